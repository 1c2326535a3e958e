//! The rules of proofs: their numbers and words stand here, and nowhere else.

ghost use Rattle.std.specs.Prelude.{◌≡◌};
ghost use Rattle.proof_objects.specs.RuleNames.{number, word};

/// A rule of proofs. What each concludes is said in docs/KERNEL.md.
#[derive(Clone, Copy, Debug, PartialEq, Eq)]
pub enum Rule {
    Hyp,
    Refl,
    Replace,
    Unfold,
    Eval,
    Substitute,
    IfTrue,
    IfFalse,
    Cases,
    Cut,
    Weaken,
    Contradict,
    Axiom,
    Ring,
    ImpliesIn,
    ImpliesOut,
    Universal,
    Discharge,
    Theorem,
    Instance,
    Induct,
}

impl Rule {
    /// The number of the rule in docs/KERNEL.md, from 1 to 21.
    pub fn number(self) -> u32
        ensures { result ≡ number self }
    {
        match self {
            Rule::Hyp => 1,
            Rule::Refl => 2,
            Rule::Replace => 3,
            Rule::Unfold => 4,
            Rule::Eval => 5,
            Rule::Substitute => 6,
            Rule::IfTrue => 7,
            Rule::IfFalse => 8,
            Rule::Cases => 9,
            Rule::Cut => 10,
            Rule::Weaken => 11,
            Rule::Contradict => 12,
            Rule::Axiom => 13,
            Rule::Ring => 14,
            Rule::ImpliesIn => 15,
            Rule::ImpliesOut => 16,
            Rule::Universal => 17,
            Rule::Discharge => 18,
            Rule::Theorem => 19,
            Rule::Instance => 20,
            Rule::Induct => 21,
        }
    }

    /// The word by which a refusal names the rule, a keyword in upper case.
    pub fn word(self) -> &'static str
        ensures { result.now ≡ word self }
    {
        match self {
            Rule::Hyp => ":HYP",
            Rule::Refl => ":REFL",
            Rule::Replace => ":REPLACE",
            Rule::Unfold => ":UNFOLD",
            Rule::Eval => ":EVAL",
            Rule::Substitute => ":SUBST",
            Rule::IfTrue => ":IF-TRUE",
            Rule::IfFalse => ":IF-FALSE",
            Rule::Cases => ":CASES",
            Rule::Cut => ":CUT",
            Rule::Weaken => ":WEAKEN",
            Rule::Contradict => ":CONTRA",
            Rule::Axiom => ":AXIOM",
            Rule::Ring => ":RING",
            Rule::ImpliesIn => ":IMPLIES-IN",
            Rule::ImpliesOut => ":IMPLIES-OUT",
            Rule::Universal => ":UNIVERSAL",
            Rule::Discharge => ":DISCHARGE",
            Rule::Theorem => ":THEOREM",
            Rule::Instance => ":INSTANCE",
            Rule::Induct => ":INDUCT",
        }
    }
}
