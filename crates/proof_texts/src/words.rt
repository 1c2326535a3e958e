//! The words of proofs and the places of the parts after them: they stand here, and nowhere else.

ghost use Rattle.std.specs.Prelude.{◌≡◌};
ghost use Rattle.proof_texts.specs.Words as spec;

use proof_objects::Rule;

/// What a part of a proof's text is (docs/SYNTAX.md, "Texts of proofs").
#[derive(Clone, Copy, Debug, PartialEq, Eq)]
pub enum Kind {
    /// A subproof.
    Proof,
    Term,
    /// A list of terms.
    Terms,
    /// A list of numbers.
    Path,
    Number,
    /// A list of variables with their terms.
    Substitution,
    /// The name of a theorem.
    Theorem,
    /// The name of a function.
    Function,
    /// The name of an isomorphism.
    Isomorphism,
    /// The name of a theorem, or what a function's measure owes.
    Fact,
    /// A list of function variables with their functions.
    Functions,
    /// A list of an induction's cases, each with its subproof.
    Cases,
}

impl Kind {
    /// Whether the part is a proof.
    pub(crate) fn is_proof(self) -> bool
        ensures { result ≡ spec.is_proof self }
    {
        match self {
            Kind::Proof => true,
            _ => false,
        }
    }
}

/// The word that begins a proof's text: its rule's, or that of a fact that is no theorem (docs/SYNTAX.md, "Texts of proofs").
#[derive(Clone, Copy, Debug, PartialEq, Eq)]
pub enum Word {
    Rule(Rule),
    /// What a function's measure owes.
    Measure,
    /// A condition of an isomorphism.
    Isomorphism,
}

const WORDS: [Word; 23] = [
    Word::Rule(Rule::Hyp),
    Word::Rule(Rule::Refl),
    Word::Rule(Rule::Replace),
    Word::Rule(Rule::Unfold),
    Word::Rule(Rule::Eval),
    Word::Rule(Rule::Substitute),
    Word::Rule(Rule::IfTrue),
    Word::Rule(Rule::IfFalse),
    Word::Rule(Rule::Cases),
    Word::Rule(Rule::Cut),
    Word::Rule(Rule::Weaken),
    Word::Rule(Rule::Contradict),
    Word::Rule(Rule::Axiom),
    Word::Rule(Rule::Ring),
    Word::Rule(Rule::ImpliesIn),
    Word::Rule(Rule::ImpliesOut),
    Word::Rule(Rule::Universal),
    Word::Rule(Rule::Discharge),
    Word::Rule(Rule::Theorem),
    Word::Measure,
    Word::Isomorphism,
    Word::Rule(Rule::Instance),
    Word::Rule(Rule::Induct),
];

impl Word {
    /// How it is written, a keyword in upper case (docs/SYNTAX.md, "Texts of proofs").
    pub fn text(self) -> &'static str
        ensures { result.now ≡ spec.text_of self }
    {
        match self {
            Word::Rule(rule) => rule.word(),
            Word::Measure => ":MEASURE",
            Word::Isomorphism => ":ISO",
        }
    }

    /// What the parts after it are, in order: reading and printing go by this table alone (docs/SYNTAX.md, "Texts of proofs").
    pub fn kinds(self) -> &'static [Kind]
        ensures { result.now ≡ spec.kinds_of self }
    {
        match self {
            Word::Rule(Rule::Hyp) => &[Kind::Term],
            Word::Rule(Rule::Refl) => &[Kind::Term],
            Word::Rule(Rule::Replace) => &[Kind::Proof, Kind::Proof, Kind::Path],
            Word::Rule(Rule::Unfold) => &[Kind::Term],
            Word::Rule(Rule::Eval) => &[Kind::Term],
            Word::Rule(Rule::Substitute) => &[Kind::Proof, Kind::Substitution],
            Word::Rule(Rule::IfTrue) => &[Kind::Proof, Kind::Term, Kind::Term],
            Word::Rule(Rule::IfFalse) => &[Kind::Proof, Kind::Term, Kind::Term],
            Word::Rule(Rule::Cases) => &[Kind::Term, Kind::Proof, Kind::Proof],
            Word::Rule(Rule::Cut) => &[Kind::Proof, Kind::Proof],
            Word::Rule(Rule::Weaken) => &[Kind::Proof, Kind::Terms, Kind::Terms],
            Word::Rule(Rule::Contradict) => &[Kind::Proof, Kind::Proof, Kind::Term],
            Word::Rule(Rule::Axiom) => &[Kind::Number, Kind::Substitution],
            Word::Rule(Rule::Ring) => &[Kind::Term, Kind::Term],
            Word::Rule(Rule::ImpliesIn) => &[Kind::Term, Kind::Proof],
            Word::Rule(Rule::ImpliesOut) => &[Kind::Proof, Kind::Proof],
            Word::Rule(Rule::Universal) => &[Kind::Term, Kind::Substitution],
            Word::Rule(Rule::Discharge) => &[Kind::Proof, Kind::Proof],
            Word::Rule(Rule::Theorem) => &[Kind::Theorem],
            Word::Measure => &[Kind::Function, Kind::Number],
            Word::Isomorphism => &[Kind::Isomorphism, Kind::Number],
            Word::Rule(Rule::Instance) => &[Kind::Fact, Kind::Functions],
            Word::Rule(Rule::Induct) => &[Kind::Term, Kind::Proof, Kind::Proof, Kind::Cases],
        }
    }

    /// The word that is written so (docs/SYNTAX.md, "Texts of proofs").
    #[tactic(auto, unfolding(crate::specs::Words::words))]
    pub fn of(text: &str) -> Option<Word>
        ensures { result ≡ spec.word_of text.now }
    {
        find(&WORDS, text)
    }
}

/// The first of these words that is written so.
fn find(words: &[Word], text: &str) -> Option<Word>
    ensures { result ≡ spec.find words.now text.now }
{
    for word in words {
        if word.text() == text {
            return Some(*word);
        }
    }
    None
}
