//! Proved sequents, and the rules that make them.

ghost use Rattle.std.specs.Prelude.{◌≡◌, ◌↔◌, [], ◌∷◌, IfOk, IsErrOf, None, Some, false};
ghost use Rattle.terms.specs.Worlds.{FitsSequent, Holds};
ghost use Rattle.proof_objects.specs.ProofTrees.{By, trees};
ghost use Rattle.kernel.specs.Concludes.{concludes, all_concluded};
ghost use Rattle.kernel.specs.Conclude.{code_of};
ghost use Rattle.kernel.specs.Conclusion.{IsProvedBy, alone, after, after_both, proofs_of, sequents_of, AllIn};
ghost use Rattle.terms.specs.Later.{IsLater};
ghost use Rattle.kernel.specs.Ring.{ring_code};
ghost use Rattle.kernel.specs.Evaluating.{can_evaluate, evaluation_code};
ghost use Rattle.kernel.specs.Answers.{IfLimit, IsWithinLimits};
ghost use Rattle.kernel.specs.InductCases.{by_induction, falls_of};

use crate::axioms::axiom_instance;
use crate::conclude::conclude;
use crate::equations::{if_false, if_true, reflexive, replaced, unfolded};
use crate::errors::RuleError;
use crate::evaluating::computed;
use crate::facts::{fact_instance, fact_of, shared};
use crate::induction::{InductCase, InductCases, cases_conclude, induced, step_cases};
use crate::laws::{proofs_stay, rules_are_sound};
use crate::logic::{
    by_cases, contradicted, cut, detached, discharged, hypothesis, implied, instantiated,
    substituted, weakened,
};
use crate::ring::ringed;
use lisp_data::{Memory, Seq, Share};
use proof_objects::{Proof, Step};
use std::alloc::Global;
use std::marker::Model;
use std::rc::Rc;
use terms::{FactName, FunPairs, Path, Sequent, Subst, Term, Terms};
use worlds::World;

/// A sequent with a world and a proof that concludes it there, so that it holds in this world.
pub struct Proved {
    world: World,
    proof: Proof,
    sequent: Rc<Sequent>,
}

impl Drop for Proved {
    fn drop(self) {
        let Proved {
            world: _,
            proof: _,
            sequent: _,
        } = self;
    }
}

impl Model for Proved {
    ghost use Rattle.std.specs.Prelude.{◌≡◌, Some};
    ghost use Rattle.kernel.specs.Concludes.{concludes};
    ghost use Rattle.kernel.specs.Conclusion.{Conclusion, conclusion_code};

    ghost Value = { Conclusion };

    ghost coded = { conclusion_code };

    ghost view = { λ p. record { world = p.world; proof = p.proof; sequent = p.sequent.value } };

    ghost invariant = { λ p. concludes p.world p.proof ≡ Some p.sequent.value };
}

/// What a rule answers.
pub type Ruled = Result<Proved, RuleError>;

/// The rules are those of docs/KERNEL.md.
impl Proved {
    pub(crate) fn concluded(
        alloc: Global,
        world: &World,
        proof: Proof,
        sequent: Sequent,
    ) -> Result<Proved, Memory>
        requires { concludes world.now proof ≡ Some sequent }
        ensures { IfOk result (λ it. IsProvedBy it world.now proof) }
    {
        let sequent = Rc::new(alloc, sequent)?;
        let world = world.share()?;
        Ok(Proved {
            world,
            proof,
            sequent,
        })
    }

    /// What the step concludes, with its proof.
    fn of(
        alloc: Global,
        world: &World,
        step: Step,
        subproofs: Seq<Proof>,
        sequent: Sequent,
    ) -> Result<Proved, Memory>
        requires { concludes world.now (By step (trees subproofs)) ≡ Some sequent }
        ensures { IfOk result (λ it. IsProvedBy it world.now (By step (trees subproofs))) }
    {
        let proof = Proof::new(alloc, step, subproofs)?;
        Proved::concluded(alloc, world, proof, sequent)
    }

    /// What a step concludes from the premises.
    pub fn by(alloc: Global, world: &World, step: Step, premises: &[Proved]) -> Ruled
        requires { AllIn world.now premises.now }
        ensures ok { IfOk result (λ it. IsProvedBy it world.now (By step (trees (proofs_of premises.now)))) }
        ensures refused { IsErrOf result RuleError.Refused → concludes world.now (By step (trees (proofs_of premises.now))) ≡ None }
        ensures limits { IfLimit result (λ code. (concludes world.now (By step (trees (proofs_of premises.now))) ≡ None) × (code_of world.now step (sequents_of premises.now) ≡ code)) }
    {
        all_conclude(world, premises);
        let sequent = conclude(alloc, world, &step, premises)?;
        let proved = Proved::of(alloc, world, step, proofs(alloc, premises)?, sequent)?;
        Ok(proved)
    }

    /// Hypothesis: a term from itself.
    pub fn hyp(alloc: Global, world: &World, p: &Term) -> Ruled
        ensures ok { IfOk result (λ it. IsProvedBy it world.now (alone (Step.Hyp p.now))) }
        ensures refused { IsErrOf result RuleError.Refused ↔ (concludes world.now (alone (Step.Hyp p.now)) ≡ None) }
        ensures limits { IsWithinLimits result }
    {
        let sequent = hypothesis(alloc, world, p)?;
        let step = Step::Hyp(p.share()?);
        let proved = Proved::of(alloc, world, step, Seq::new(alloc), sequent)?;
        Ok(proved)
    }

    /// Reflexivity: `(equal a a)`.
    pub fn refl(alloc: Global, world: &World, a: &Term) -> Ruled
        ensures ok { IfOk result (λ it. IsProvedBy it world.now (alone (Step.Refl a.now))) }
        ensures refused { IsErrOf result RuleError.Refused ↔ (concludes world.now (alone (Step.Refl a.now)) ≡ None) }
        ensures limits { IsWithinLimits result }
    {
        let sequent = reflexive(alloc, world, a)?;
        let step = Step::Refl(a.share()?);
        let proved = Proved::of(alloc, world, step, Seq::new(alloc), sequent)?;
        Ok(proved)
    }

    /// Replace: `eq` says `(equal a b)`, and the goal of `on` has a at the path, where b is put.
    pub fn replace(alloc: Global, eq: &Proved, on: &Proved, path: &Path) -> Ruled
        requires { eq.now.world ≡ on.now.world }
        ensures ok { IfOk result (λ it. IsProvedBy it eq.now.world (after_both (Step.Replace path.now) eq.now.proof on.now.proof)) }
        ensures refused { IsErrOf result RuleError.Refused ↔ (concludes eq.now.world (after_both (Step.Replace path.now) eq.now.proof on.now.proof) ≡ None) }
        ensures limits { IsWithinLimits result }
    {
        let sequent = replaced(alloc, &eq.sequent, &on.sequent, path)?;
        let step = Step::Replace(path.copy(alloc)?);
        let proved = Proved::of(alloc, &eq.world, step, both(alloc, eq, on)?, sequent)?;
        Ok(proved)
    }

    /// Unfold: the call of a function with a definition equals its body at the arguments.
    pub fn unfold(alloc: Global, world: &World, call: &Term) -> Ruled
        ensures ok { IfOk result (λ it. IsProvedBy it world.now (alone (Step.Unfold call.now))) }
        ensures refused { IsErrOf result RuleError.Refused ↔ (concludes world.now (alone (Step.Unfold call.now)) ≡ None) }
        ensures limits { IsWithinLimits result }
    {
        let sequent = unfolded(alloc, world, call)?;
        let step = Step::Unfold(call.share()?);
        let proved = Proved::of(alloc, world, step, Seq::new(alloc), sequent)?;
        Ok(proved)
    }

    /// Evaluate: a well-formed term without variables equals its value.
    pub fn eval(alloc: Global, world: &World, a: &Term) -> Ruled
        ensures ok { IfOk result (λ it. IsProvedBy it world.now (alone (Step.Eval a.now))) }
        ensures refused { IsErrOf result RuleError.Refused ↔ (can_evaluate world.now.functions a.now ≡ false) }
        ensures nothing { IsErrOf result RuleError.Refused → concludes world.now (alone (Step.Eval a.now)) ≡ None }
        ensures limits { IfLimit result (λ code. (concludes world.now (alone (Step.Eval a.now)) ≡ None) × (code ≡ evaluation_code world.now.functions a.now)) }
    {
        let sequent = computed(alloc, world, a)?;
        let step = Step::Eval(a.share()?);
        let proved = Proved::of(alloc, world, step, Seq::new(alloc), sequent)?;
        Ok(proved)
    }

    /// Substitute: the hypotheses and the goal of `p` under a substitution.
    pub fn subst(alloc: Global, p: &Proved, s: &Subst) -> Ruled
        ensures ok { IfOk result (λ it. IsProvedBy it p.now.world (after (Step.Substitute s.now) p.now.proof)) }
        ensures refused { IsErrOf result RuleError.Refused ↔ (concludes p.now.world (after (Step.Substitute s.now) p.now.proof) ≡ None) }
        ensures limits { IsWithinLimits result }
    {
        let sequent = substituted(alloc, &p.world, &p.sequent, s)?;
        let step = Step::Substitute(s.copy(alloc)?);
        let proved = Proved::of(alloc, &p.world, step, only(alloc, p)?, sequent)?;
        Ok(proved)
    }

    /// If true: `p` says a, so that `(equal (if a b c) b)`.
    pub fn if_true(alloc: Global, p: &Proved, b: &Term, c: &Term) -> Ruled
        ensures ok { IfOk result (λ it. IsProvedBy it p.now.world (after (Step.IfTrue b.now c.now) p.now.proof)) }
        ensures refused { IsErrOf result RuleError.Refused ↔ (concludes p.now.world (after (Step.IfTrue b.now c.now) p.now.proof) ≡ None) }
        ensures limits { IsWithinLimits result }
    {
        let sequent = if_true(alloc, &p.world, b, c, &p.sequent)?;
        let step = Step::IfTrue(b.share()?, c.share()?);
        let proved = Proved::of(alloc, &p.world, step, only(alloc, p)?, sequent)?;
        Ok(proved)
    }

    /// If false: `p` says `(not a)`, so that `(equal (if a b c) c)`.
    pub fn if_false(alloc: Global, p: &Proved, b: &Term, c: &Term) -> Ruled
        ensures ok { IfOk result (λ it. IsProvedBy it p.now.world (after (Step.IfFalse b.now c.now) p.now.proof)) }
        ensures refused { IsErrOf result RuleError.Refused ↔ (concludes p.now.world (after (Step.IfFalse b.now c.now) p.now.proof) ≡ None) }
        ensures limits { IsWithinLimits result }
    {
        let sequent = if_false(alloc, &p.world, b, c, &p.sequent)?;
        let step = Step::IfFalse(b.share()?, c.share()?);
        let proved = Proved::of(alloc, &p.world, step, only(alloc, p)?, sequent)?;
        Ok(proved)
    }

    /// Cases: the same goal where `c` is true and where it is false.
    pub fn cases(alloc: Global, c: &Term, yes: &Proved, no: &Proved) -> Ruled
        requires { yes.now.world ≡ no.now.world }
        ensures ok { IfOk result (λ it. IsProvedBy it yes.now.world (after_both (Step.Cases c.now) yes.now.proof no.now.proof)) }
        ensures refused { IsErrOf result RuleError.Refused ↔ (concludes yes.now.world (after_both (Step.Cases c.now) yes.now.proof no.now.proof) ≡ None) }
        ensures limits { IsWithinLimits result }
    {
        let sequent = by_cases(alloc, &yes.world, c, &yes.sequent, &no.sequent)?;
        let step = Step::Cases(c.share()?);
        let proved = Proved::of(alloc, &yes.world, step, both(alloc, yes, no)?, sequent)?;
        Ok(proved)
    }

    /// Cut: what `q` says, where `p` proves one of its hypotheses.
    pub fn cut(alloc: Global, p: &Proved, q: &Proved) -> Ruled
        requires { p.now.world ≡ q.now.world }
        ensures ok { IfOk result (λ it. IsProvedBy it p.now.world (after_both Step.Cut p.now.proof q.now.proof)) }
        ensures refused { IsErrOf result RuleError.Refused ↔ (concludes p.now.world (after_both Step.Cut p.now.proof q.now.proof) ≡ None) }
        ensures limits { IsWithinLimits result }
    {
        let sequent = cut(alloc, &p.sequent, &q.sequent)?;
        let step = Step::Cut;
        let proved = Proved::of(alloc, &p.world, step, both(alloc, p, q)?, sequent)?;
        Ok(proved)
    }

    /// Weaken: what `p` says, with further hypotheses and further universals.
    pub fn weaken(alloc: Global, p: &Proved, hyps: &Terms, universals: &Terms) -> Ruled
        ensures ok { IfOk result (λ it. IsProvedBy it p.now.world (after (Step.Weaken hyps.now universals.now) p.now.proof)) }
        ensures refused { IsErrOf result RuleError.Refused ↔ (concludes p.now.world (after (Step.Weaken hyps.now universals.now) p.now.proof) ≡ None) }
        ensures limits { IsWithinLimits result }
    {
        let sequent = weakened(alloc, &p.world, &p.sequent, hyps, universals)?;
        let step = Step::Weaken(hyps.copy(alloc)?, universals.copy(alloc)?);
        let proved = Proved::of(alloc, &p.world, step, only(alloc, p)?, sequent)?;
        Ok(proved)
    }

    /// Contradiction: `p` says a and `q` says `(not a)`, so that any goal.
    pub fn contra(alloc: Global, p: &Proved, q: &Proved, goal: &Term) -> Ruled
        requires { p.now.world ≡ q.now.world }
        ensures ok { IfOk result (λ it. IsProvedBy it p.now.world (after_both (Step.Contradict goal.now) p.now.proof q.now.proof)) }
        ensures refused { IsErrOf result RuleError.Refused ↔ (concludes p.now.world (after_both (Step.Contradict goal.now) p.now.proof q.now.proof) ≡ None) }
        ensures limits { IsWithinLimits result }
    {
        let sequent = contradicted(alloc, &p.world, &p.sequent, &q.sequent, goal)?;
        let step = Step::Contradict(goal.share()?);
        let proved = Proved::of(alloc, &p.world, step, both(alloc, p, q)?, sequent)?;
        Ok(proved)
    }

    /// Axiom: the axiom of this number under a substitution.
    pub fn axiom(alloc: Global, world: &World, number: u32, s: &Subst) -> Ruled
        ensures ok { IfOk result (λ it. IsProvedBy it world.now (alone (Step.Axiom number s.now))) }
        ensures refused { IsErrOf result RuleError.Refused ↔ (concludes world.now (alone (Step.Axiom number s.now)) ≡ None) }
        ensures limits { IsWithinLimits result }
    {
        let sequent = axiom_instance(alloc, world, number, s)?;
        let step = Step::Axiom(number, s.copy(alloc)?);
        let proved = Proved::of(alloc, world, step, Seq::new(alloc), sequent)?;
        Ok(proved)
    }

    /// Ring: `(equal a b)` for arithmetic terms that are the same polynomial.
    pub fn ring(alloc: Global, world: &World, a: &Term, b: &Term) -> Ruled
        ensures ok { IfOk result (λ it. IsProvedBy it world.now (alone (Step.Ring a.now b.now))) }
        ensures refused { IsErrOf result RuleError.Refused → concludes world.now (alone (Step.Ring a.now b.now)) ≡ None }
        ensures limits { IfLimit result (λ code. (concludes world.now (alone (Step.Ring a.now b.now)) ≡ None) × (code ≡ ring_code a.now b.now)) }
    {
        let sequent = ringed(alloc, world, a, b)?;
        let step = Step::Ring(a.share()?, b.share()?);
        let proved = Proved::of(alloc, world, step, Seq::new(alloc), sequent)?;
        Ok(proved)
    }

    /// Implies in: `(implies h g)` for the goal g of `p`, without h among the hypotheses.
    pub fn implies_in(alloc: Global, h: &Term, p: &Proved) -> Ruled
        ensures ok { IfOk result (λ it. IsProvedBy it p.now.world (after (Step.ImpliesIn h.now) p.now.proof)) }
        ensures refused { IsErrOf result RuleError.Refused ↔ (concludes p.now.world (after (Step.ImpliesIn h.now) p.now.proof) ≡ None) }
        ensures limits { IsWithinLimits result }
    {
        let sequent = implied(alloc, &p.world, h, &p.sequent)?;
        let step = Step::ImpliesIn(h.share()?);
        let proved = Proved::of(alloc, &p.world, step, only(alloc, p)?, sequent)?;
        Ok(proved)
    }

    /// Implies out: `p` says `(implies a b)` and `q` says a, so that b.
    pub fn implies_out(alloc: Global, p: &Proved, q: &Proved) -> Ruled
        requires { p.now.world ≡ q.now.world }
        ensures ok { IfOk result (λ it. IsProvedBy it p.now.world (after_both Step.ImpliesOut p.now.proof q.now.proof)) }
        ensures refused { IsErrOf result RuleError.Refused ↔ (concludes p.now.world (after_both Step.ImpliesOut p.now.proof q.now.proof) ≡ None) }
        ensures limits { IsWithinLimits result }
    {
        let sequent = detached(alloc, &p.sequent, &q.sequent)?;
        let step = Step::ImpliesOut;
        let proved = Proved::of(alloc, &p.world, step, both(alloc, p, q)?, sequent)?;
        Ok(proved)
    }

    /// Universal: a term under a substitution, where it is assumed to be true for all values of its variables.
    pub fn universal(alloc: Global, world: &World, u: &Term, s: &Subst) -> Ruled
        ensures ok { IfOk result (λ it. IsProvedBy it world.now (alone (Step.Universal u.now s.now))) }
        ensures refused { IsErrOf result RuleError.Refused ↔ (concludes world.now (alone (Step.Universal u.now s.now)) ≡ None) }
        ensures limits { IsWithinLimits result }
    {
        let sequent = instantiated(alloc, world, u, s)?;
        let step = Step::Universal(u.share()?, s.copy(alloc)?);
        let proved = Proved::of(alloc, world, step, Seq::new(alloc), sequent)?;
        Ok(proved)
    }

    /// Discharge: what `q` says, where `p` proves one of its universals, and has no hypotheses.
    pub fn discharge(alloc: Global, p: &Proved, q: &Proved) -> Ruled
        requires { p.now.world ≡ q.now.world }
        ensures ok { IfOk result (λ it. IsProvedBy it p.now.world (after_both Step.Discharge p.now.proof q.now.proof)) }
        ensures refused { IsErrOf result RuleError.Refused ↔ (concludes p.now.world (after_both Step.Discharge p.now.proof q.now.proof) ≡ None) }
        ensures limits { IsWithinLimits result }
    {
        let sequent = discharged(alloc, &p.sequent, &q.sequent)?;
        let step = Step::Discharge;
        let proved = Proved::of(alloc, &p.world, step, both(alloc, p, q)?, sequent)?;
        Ok(proved)
    }

    /// Theorem: a fact of the world.
    pub fn theorem(alloc: Global, world: &World, fact: &FactName) -> Ruled
        ensures ok { IfOk result (λ it. IsProvedBy it world.now (alone (Step.Theorem fact.now))) }
        ensures refused { IsErrOf result RuleError.Refused ↔ (concludes world.now (alone (Step.Theorem fact.now)) ≡ None) }
        ensures limits { IsWithinLimits result }
    {
        let sequent = fact_of(alloc, world, fact)?;
        let step = Step::Theorem(shared(fact)?);
        let proved = Proved::of(alloc, world, step, Seq::new(alloc), sequent)?;
        Ok(proved)
    }

    /// Instance: a theorem of the world, or an obligation of one of its definitions, with functions in the place of
    /// function variables.
    pub fn instance(alloc: Global, world: &World, fact: &FactName, pairs: &FunPairs) -> Ruled
        ensures ok { IfOk result (λ it. IsProvedBy it world.now (alone (Step.Instance fact.now pairs.now))) }
        ensures refused { IsErrOf result RuleError.Refused → concludes world.now (alone (Step.Instance fact.now pairs.now)) ≡ None }
        ensures limits { IsWithinLimits result }
    {
        let sequent = fact_instance(alloc, world, fact, pairs)?;
        let step = Step::Instance(shared(fact)?, pairs.copy(alloc)?);
        let proved = Proved::of(alloc, world, step, Seq::new(alloc), sequent)?;
        Ok(proved)
    }

    /// Induction: `natural` says `(natp m)` of the measure m, `base` has its goal from induction hypotheses alone, and
    /// in each case m falls.
    pub fn induct(
        alloc: Global,
        measure: &Term,
        natural: &Proved,
        base: &Proved,
        falls: &InductCases,
    ) -> Ruled
        requires base { natural.now.world ≡ base.now.world }
        requires falls { AllIn natural.now.world (falls_of falls.now) }
        ensures ok { IfOk result (λ it. IsProvedBy it natural.now.world (by_induction measure.now natural.now base.now falls.now)) }
        ensures refused { IsErrOf result RuleError.Refused ↔ (concludes natural.now.world (by_induction measure.now natural.now base.now falls.now) ≡ None) }
        ensures limits { IsWithinLimits result }
    {
        let cases = falls.as_slice();
        cases_conclude(&natural.world, cases);
        let (first, second) = (&natural.sequent, &base.sequent);
        let sequent = induced(alloc, &natural.world, measure, first, second, cases)?;
        let step = Step::Induct(measure.share()?, step_cases(alloc, cases)?);
        let subproofs = case_proofs(alloc, natural, base, cases)?;
        let proved = Proved::of(alloc, &natural.world, step, subproofs, sequent)?;
        Ok(proved)
    }

    pub fn sequent(&self) -> &Sequent
        ensures value { result.now ≡ self.now.sequent }
        ensures concludes { concludes self.now.world self.now.proof ≡ Some self.now.sequent }
        ensures fits { FitsSequent self.now.world.functions self.now.sequent }
        ensures holds { Holds self.now.world.functions self.now.sequent }
    {
        self.world.soundness();
        rules_are_sound();
        &self.sequent
    }

    pub fn proof(&self) -> &Proof
        ensures { result.now ≡ self.now.proof }
    {
        &self.proof
    }

    /// The same sequent and proof in a later world.
    pub fn later(&self, world: &World) -> Result<Proved, Memory>
        requires { IsLater self.now.world world.now }
        ensures world { IfOk result (λ it. it.world ≡ world.now) }
        ensures proof { IfOk result (λ it. it.proof ≡ self.now.proof) }
        ensures sequent { IfOk result (λ it. it.sequent ≡ self.now.sequent) }
    {
        self.world.soundness();
        world.soundness();
        proofs_stay();
        let world = world.share()?;
        let proof = self.proof.share()?;
        let sequent = self.sequent.clone()?;
        Ok(Proved {
            world,
            proof,
            sequent,
        })
    }

    /// The same sequent and proof, with one more owner.
    pub fn share(&self) -> Result<Proved, Memory>
        ensures { IfOk result (λ it. it ≡ self.now) }
    {
        let world = self.world.share()?;
        let proof = self.proof.share()?;
        let sequent = self.sequent.clone()?;
        Ok(Proved {
            world,
            proof,
            sequent,
        })
    }
}

impl Share for Proved {
    fn share(&self) -> Result<Proved, Memory> {
        self.share()
    }
}

/// The premises are what their proofs conclude.
#[tactic(auto, using(crate::proofs::Premises::concluded))]
pub(crate) fn all_conclude(world: &World, premises: &[Proved])
    requires { AllIn world.now premises.now }
    ensures { all_concluded world.now (trees (proofs_of premises.now)) ≡ Some (sequents_of premises.now) }
{
    for premise in premises {
        let _sequent = premise.sequent();
    }
}

#[tactic(auto, using(crate::proofs::Premises::lists))]
fn proofs(alloc: Global, premises: &[Proved]) -> Result<Seq<Proof>, Memory>
    ensures { IfOk result (λ ps. ps ≡ proofs_of premises.now) }
{
    let mut proofs = Seq::new(alloc);
    for premise in premises {
        proofs.push(premise.proof.share()?)?;
    }
    Ok(proofs)
}

fn only(alloc: Global, p: &Proved) -> Result<Seq<Proof>, Memory>
    ensures { IfOk result (λ ps. ps ≡ p.now.proof ∷ []) }
{
    let mut proofs = Seq::new(alloc);
    proofs.push(p.proof.share()?)?;
    Ok(proofs)
}

fn both(alloc: Global, p: &Proved, q: &Proved) -> Result<Seq<Proof>, Memory>
    ensures { IfOk result (λ ps. ps ≡ p.now.proof ∷ q.now.proof ∷ []) }
{
    let mut proofs = Seq::new(alloc);
    proofs.push(p.proof.share()?)?;
    proofs.push(q.proof.share()?)?;
    Ok(proofs)
}

/// The proofs of the measure, of the base and of the cases.
#[tactic(auto, using(crate::proofs::Cases::cases))]
fn case_proofs(
    alloc: Global,
    natural: &Proved,
    base: &Proved,
    cases: &[InductCase],
) -> Result<Seq<Proof>, Memory>
    ensures { IfOk result (λ ps. ps ≡ natural.now.proof ∷ base.now.proof ∷ proofs_of (falls_of cases.now)) }
{
    let mut proofs = both(alloc, natural, base)?;
    for case in cases {
        proofs.push(case.falls.proof.share()?)?;
    }
    Ok(proofs)
}
