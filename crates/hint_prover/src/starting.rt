//! The proof of a condition from that of the subgoal at which the steps of its reduction begin.

ghost use Rattle.std.specs.Prelude.{◌≡◌, false, [], ◌++◌, map, reverse, IfOk, OnOk};
ghost use Rattle.terms.specs.Definitions.{find};
ghost use Rattle.terms.specs.Measures.{is_nested, recursive_calls};
ghost use Rattle.measures.specs.Calls.{call_of};
ghost use Rattle.hints.specs.Start.{as_variables, images};
ghost use Rattle.reduction_proofs.specs.Trees.{Hyp, Substitute, Owed};
ghost use Rattle.reduction_proofs.specs.Start as spec;

use crate::derived::{first_part, second_part};
use crate::formulas::conditional;
use crate::reasons::cited;
use crate::trees::{cut, hyp, implies_out, induct, instance, owed, under, universal};
use crate::way_back::proofs;
use hints::{Fact, Hints, Scheme, Use, as_variables, bind, calls_of, conjunction, images};
use lisp_data::{Memory, Seq, Symbol, Symbols};
use measures::RecursiveCall;
use proof_objects::{InductionCase, InductionCases, Proof};
use reduction::{Made, Source, Subgoal, quoted_nil};
use std::alloc::Global;
use terms::{Definition, Subst, Term, substitute};
use worlds::World;

/// A fact under a substitution.
fn fact_under(alloc: Global, s: &Subst, fact: &Fact) -> Result<Proof, Memory>
    ensures { IfOk result (λ it. it ≡ spec.fact_under s.now fact.now) }
{
    match fact {
        Fact::Axiom(number) => under(alloc, cited(alloc, &Source::Axiom(*number))?, s),
        Fact::Theorem(name) => under(alloc, cited(alloc, &Source::Theorem(name.share()?))?, s),
        Fact::Instance(name, pairs) => under(alloc, instance(alloc, name, pairs)?, s),
        Fact::Assumed(term) => universal(alloc, term, s),
    }
}

/// Of a proof with the hypotheses of `:use`, one without them.
#[tactic(auto, using(crate::proofs::StartLists::lists))]
fn without_uses(alloc: Global, uses: &[Use], p: Proof) -> Result<Proof, Memory>
    ensures { IfOk result (λ it. it ≡ spec.without_uses uses.now p) }
{
    let mut all = p;
    for it in uses {
        let fact = fact_under(alloc, &it.s, &it.fact)?;
        all = cut(alloc, fact, all)?;
    }
    Ok(all)
}

/// Of a proof with the terms as hypotheses, one with their conjunction.
#[tactic(auto, using(crate::proofs::StartLists::conjunctions))]
pub fn cut_conjunction(alloc: Global, terms: &[Term], p: Proof) -> Result<Proof, Memory>
    ensures { IfOk result (λ it. it ≡ spec.cut_conjunction terms.now p) }
{
    let mut i = terms.len();
    if i == 0 {
        return Ok(p);
    }
    i -= 1;
    let none = quoted_nil(alloc)?;
    let mut rest = terms[i].share()?;
    let mut all = p;
    'terms: while i > 0 {
        i -= 1;
        let first = first_part(alloc, &terms[i], &rest)?;
        let second = second_part(alloc, &terms[i], &rest)?;
        let with_second = cut(alloc, second, all)?;
        all = cut(alloc, first, with_second)?;
        rest = conditional(alloc, terms[i].share()?, rest, none.share()?)?;
    }
    Ok(all)
}

/// The case of a recursive call.
#[tactic(auto, using(crate::proofs::StartLists::lists))]
fn case_of(
    alloc: Global,
    world: &World,
    reading: &Subst,
    over: &Symbols,
    call: &RecursiveCall,
) -> Result<InductionCase, Memory>
    ensures { IfOk result (λ it. it ≡ spec.case_of reading.now over.now (call_of call.now)) }
{
    let tests = images(alloc, call.tests.as_slice(), reading)?;
    let test = conjunction(alloc, world, tests.as_slice())?;
    let args = images(alloc, call.args.as_slice(), reading)?;
    let subst = bind(alloc, over, args.as_slice())?;
    Ok(InductionCase { test, subst })
}

#[tactic(auto, using(crate::proofs::StartLists::lists))]
fn cases_of(
    alloc: Global,
    world: &World,
    reading: &Subst,
    over: &Symbols,
    calls: &[RecursiveCall],
) -> Result<InductionCases, Memory>
    ensures { IfOk result (λ cs. cs ≡ map (spec.case_of reading.now over.now) (map call_of calls.now)) }
{
    let mut cases = Seq::new(alloc);
    for call in calls {
        cases.push(case_of(alloc, world, reading, over, call)?)?;
    }
    Ok(cases)
}

/// That the measure falls at a call, by what it owes there.
fn falls_at(
    alloc: Global,
    name: &Symbol,
    reading: &Subst,
    number: u32,
    call: &RecursiveCall,
) -> Result<Proof, Memory>
    ensures { IfOk result (λ it. it ≡ spec.cut_conjunction (images reading.now call.now.tests) (Substitute (Owed name.now number) reading.now)) }
{
    let fact = under(alloc, owed(alloc, name, number)?, reading)?;
    let tests = images(alloc, call.tests.as_slice(), reading)?;
    cut_conjunction(alloc, tests.as_slice(), fact)
}

/// Adds a proof for each call, that the measure falls there.
#[tactic(auto, using(crate::proofs::StartLists::lists))]
fn push_falls(
    alloc: Global,
    name: &Symbol,
    reading: &Subst,
    calls: &[RecursiveCall],
    subproofs: &mut Seq<Proof>,
) -> Result<(), Memory>
    ensures { OnOk result (subproofs.new ≡ subproofs.old ++ spec.falls_by name.now reading.now 1 (map call_of calls.now)) }
{
    for i in 0..calls.len() {
        let Ok(number) = u32::try_from(i + 1) else {
            return Err(Memory);
        };
        subproofs.push(falls_at(alloc, name, reading, number, &calls[i])?)?;
    }
    Ok(())
}

/// Induction on the calls of a definition with this measure.
pub fn by_calls(
    alloc: Global,
    world: &World,
    definition: &Definition,
    measure: &Term,
    over: &Symbols,
    p: Proof,
) -> Result<Proof, Memory>
    requires { is_nested definition.now.name definition.now.body ≡ false }
    ensures { IfOk result (λ it. it ≡ spec.by_calls definition.now.name measure.now (as_variables definition.now over.now) over.now (recursive_calls definition.now.name [] definition.now.body) p) }
{
    let name = &definition.name;
    let reading = as_variables(alloc, definition, over)?;
    let calls = calls_of(alloc, definition)?;
    let cases = cases_of(alloc, world, &reading, over, calls.as_slice())?;
    let mut subproofs = Seq::new(alloc);
    subproofs.push(under(alloc, owed(alloc, name, 0)?, &reading)?)?;
    subproofs.push(p)?;
    push_falls(alloc, name, &reading, calls.as_slice(), &mut subproofs)?;
    let measure = substitute(alloc, measure, &reading)?;
    induct(alloc, measure, cases, subproofs)
}

/// Of a proof of a goal with hypotheses before it, one where they are hypotheses again.
#[tactic(auto, using(crate::proofs::StartLists::lists))]
fn unfolded(alloc: Global, hyps: &[Term], p: Proof) -> Result<Proof, Memory>
    ensures { IfOk result (λ it. it ≡ spec.unfolded hyps.now p) }
{
    let mut all = p;
    for hypothesis in hyps {
        let given = hyp(alloc, hypothesis)?;
        all = implies_out(alloc, all, given)?;
    }
    Ok(all)
}

/// Of the proof after an induction by a definition, the one before it.
fn by_measure(
    alloc: Global,
    world: &World,
    over: &Symbols,
    subgoal: &Subgoal,
    definition: &Definition,
    p: Proof,
) -> Result<Proof, Memory>
    requires { is_nested definition.now.name definition.now.body ≡ false }
    ensures { IfOk result (λ it. it ≡ spec.by_measure over.now subgoal.now definition.now definition.now.measure p) }
{
    match &definition.measure {
        None => Ok(p),
        Some(measure) => {
            let all = by_calls(alloc, world, definition, measure, over, p)?;
            unfolded(alloc, subgoal.hyps.as_slice(), all)
        }
    }
}

/// Of the proof after an induction, if there is one, the one before it.
#[tactic(auto, using(hints::proofs::Inducting::definitions))]
fn before_induction(
    alloc: Global,
    world: &World,
    induct: &Option<Scheme>,
    subgoal: &Subgoal,
    p: Proof,
) -> Result<Proof, Memory>
    ensures { IfOk result (λ it. it ≡ spec.before_induction world.now induct.now subgoal.now p) }
{
    match induct {
        None => Ok(p),
        Some(scheme) => match world.find_definition(&scheme.function) {
            None => Ok(p),
            Some(definition) => {
                world.soundness();
                by_measure(alloc, world, &scheme.over, subgoal, definition, p)
            }
        },
    }
}

/// The first of the proofs; there is always one.
#[tactic(auto, using(crate::proofs::Stacks::stacks))]
fn top(alloc: Global, mut stack: Vec<Proof>, goal: &Term) -> Result<Proof, Memory>
    ensures { IfOk result (λ it. it ≡ spec.first_or (Hyp goal.now) (reverse stack.items)) }
{
    match stack.pop() {
        None => hyp(alloc, goal),
        Some(proof) => Ok(proof),
    }
}

/// The proof of a condition whose reduction closes by these steps.
pub(crate) fn proof_of(
    alloc: Global,
    world: &World,
    hints: &Hints,
    subgoal: &Subgoal,
    made: &[Made],
) -> Result<Proof, Memory>
    ensures { IfOk result (λ it. it ≡ spec.proof_of world.now hints.now subgoal.now made.now) }
{
    let stack = proofs(alloc, world, made)?;
    let first = top(alloc, stack, &subgoal.goal)?;
    let used = without_uses(alloc, hints.uses.as_slice(), first)?;
    before_induction(alloc, world, &hints.induct, subgoal, used)
}
