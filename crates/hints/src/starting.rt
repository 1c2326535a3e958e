//! The start of a reduction.

ghost use Rattle.std.specs.Prelude.{◌≡◌, [], false, map, IfOk, OnOk};
ghost use Rattle.terms.specs.Joins.{join};
ghost use Rattle.terms.specs.Terms.{Var};
ghost use Rattle.terms.specs.Primitives.{lookup};
ghost use Rattle.terms.specs.Measures.{is_nested, recursive_calls as all_calls};
ghost use Rattle.measures.specs.Calls.{call_of};
ghost use Rattle.hints.specs.Start as spec;

use crate::build::{conditional, implication, no, yes};
use crate::hint::{Hints, Scheme, Use};
use lisp_data::{Memory, Seq, Symbol, Symbols};
use measures::{MeasureError, RecursiveCall, RecursiveCalls, recursive_calls};
use reduction::{Outcome, Subgoal, put_new, reduce};
use std::alloc::Global;
use terms::{Definition, Subst, Term, Terms, substitute};
use worlds::World;

/// `(if t1 (if t2 .. 'nil) 'nil)`, and `'t` of no terms.
#[tactic(auto, using(crate::proofs::Inducting::conjunctions))]
pub fn conjunction(alloc: Global, world: &World, terms: &[Term]) -> Result<Term, Memory>
    ensures { IfOk result (λ t. t ≡ spec.conjunction terms.now) }
{
    let mut i = terms.len();
    if i == 0 {
        let yes = yes(alloc)?;
        return Ok(yes);
    }
    i -= 1;
    let mut all = terms[i].share()?;
    'terms: while i > 0 {
        i -= 1;
        let no = no(alloc)?;
        all = conditional(alloc, world, terms[i].share()?, all, no)?;
    }
    Ok(all)
}

/// `(implies h1 (implies h2 .. goal))`
#[tactic(auto, using(crate::proofs::Inducting::foldings))]
fn folded(alloc: Global, world: &World, hyps: &[Term], goal: &Term) -> Result<Term, Memory>
    ensures { IfOk result (λ t. t ≡ spec.folded hyps.now goal.now) }
{
    let mut i = hyps.len();
    let mut all = goal.share()?;
    'hyps: while i > 0 {
        i -= 1;
        all = implication(alloc, world, hyps[i].share()?, all)?;
    }
    Ok(all)
}

/// Adds a term for a name that has none.
fn bind_one(s: &mut Subst, name: &Symbol, term: &Term) -> Result<(), Memory>
    ensures { OnOk result (s.new ≡ spec.bound s.old name.now term.now (lookup s.old name.now)) }
{
    if s.find(name).is_none() {
        s.push(name.share()?, term.share()?)?;
    }
    Ok(())
}

/// Terms for names, one for one; the first of a name counts.
#[tactic(auto, using(crate::proofs::Inducting::bindings))]
pub fn bind(alloc: Global, names: &Symbols, terms: &[Term]) -> Result<Subst, Memory>
    ensures { IfOk result (λ s. s ≡ spec.bind [] names.now terms.now) }
{
    let names = names.as_slice();
    let mut s = Subst::new(alloc);
    for i in 0..names.len() {
        if i >= terms.len() {
            return Ok(s);
        }
        bind_one(&mut s, &names[i], &terms[i])?;
    }
    Ok(s)
}

/// The terms under a substitution.
#[tactic(auto, using(crate::proofs::Inducting::lists))]
pub fn images(alloc: Global, terms: &[Term], s: &Subst) -> Result<Terms, Memory>
    ensures { IfOk result (λ ts. ts ≡ spec.images s.now terms.now) }
{
    let mut images = Seq::new(alloc);
    for term in terms {
        images.push(substitute(alloc, term, s)?)?;
    }
    Ok(images)
}

#[tactic(auto, using(crate::proofs::Inducting::lists))]
fn variables(alloc: Global, names: &Symbols) -> Result<Terms, Memory>
    ensures { IfOk result (λ ts. ts ≡ map Var names.now) }
{
    let mut terms = Seq::new(alloc);
    for name in names.as_slice() {
        terms.push(Term::var(alloc, name.share()?)?)?;
    }
    Ok(terms)
}

/// The variables of an induction for the formals of its definition.
pub fn as_variables(alloc: Global, definition: &Definition, over: &Symbols) -> Result<Subst, Memory>
    ensures { IfOk result (λ s. s ≡ spec.as_variables definition.now over.now) }
{
    let variables = variables(alloc, over)?;
    let reading = bind(alloc, &definition.formals, variables.as_slice())?;
    Ok(reading)
}

/// The induction hypothesis of a call.
#[tactic(auto, using(crate::proofs::Inducting::lists))]
fn hypothesis(
    alloc: Global,
    world: &World,
    reading: &Subst,
    over: &Symbols,
    goal: &Term,
    call: &RecursiveCall,
) -> Result<Term, Memory>
    ensures { IfOk result (λ t. t ≡ spec.hypothesis reading.now over.now goal.now (call_of call.now)) }
{
    let tests = images(alloc, call.tests.as_slice(), reading)?;
    let ruled = conjunction(alloc, world, tests.as_slice())?;
    let args = images(alloc, call.args.as_slice(), reading)?;
    let s = bind(alloc, over, args.as_slice())?;
    let image = substitute(alloc, goal, &s)?;
    let hyp = implication(alloc, world, ruled, image)?;
    Ok(hyp)
}

/// The induction hypotheses of calls, each once.
#[tactic(auto, using(crate::proofs::Inducting::lists))]
fn hypotheses(
    alloc: Global,
    world: &World,
    reading: &Subst,
    over: &Symbols,
    goal: &Term,
    calls: &[RecursiveCall],
) -> Result<Terms, Memory>
    ensures { IfOk result (λ ts. ts ≡ join [] (map (spec.hypothesis reading.now over.now goal.now) (map call_of calls.now))) }
{
    let mut hyps = Seq::new(alloc);
    for call in calls {
        let hyp = hypothesis(alloc, world, reading, over, goal, call)?;
        put_new(&mut hyps, hyp)?;
    }
    Ok(hyps)
}

/// The recursive calls of a definition, of which none has the function in an argument.
pub fn calls_of(alloc: Global, definition: &Definition) -> Result<RecursiveCalls, Memory>
    requires { is_nested definition.now.name definition.now.body ≡ false }
    ensures { IfOk result (λ cs. map call_of cs ≡ all_calls definition.now.name [] definition.now.body) }
{
    match recursive_calls(alloc, &definition.name, &definition.body) {
        Ok(calls) => Ok(calls),
        Err(MeasureError::Nested) => unreachable!(),
        Err(MeasureError::NoMeasure) => unreachable!(),
        Err(MeasureError::Memory) => Err(Memory),
    }
}

/// The start of an induction by a definition.
fn by_definition(
    alloc: Global,
    world: &World,
    over: &Symbols,
    subgoal: &Subgoal,
    definition: &Definition,
) -> Result<Subgoal, Memory>
    requires { is_nested definition.now.name definition.now.body ≡ false }
    ensures { IfOk result (λ s. s ≡ spec.by_definition over.now subgoal.now definition.now) }
{
    let goal = folded(alloc, world, subgoal.hyps.as_slice(), &subgoal.goal)?;
    let reading = as_variables(alloc, definition, over)?;
    let calls = calls_of(alloc, definition)?;
    let hyps = hypotheses(alloc, world, &reading, over, &goal, calls.as_slice())?;
    Ok(Subgoal { hyps, goal })
}

/// The start of an induction, if there is one.
#[tactic(auto, using(crate::proofs::Inducting::definitions))]
fn inducted(
    alloc: Global,
    world: &World,
    induct: &Option<Scheme>,
    subgoal: Subgoal,
) -> Result<Subgoal, Memory>
    ensures { IfOk result (λ s. s ≡ spec.inducted world.now induct.now subgoal) }
{
    match induct {
        None => Ok(subgoal),
        Some(scheme) => match world.find_definition(&scheme.function) {
            None => Ok(subgoal),
            Some(definition) => {
                world.soundness();
                let subgoal = by_definition(alloc, world, &scheme.over, &subgoal, definition)?;
                Ok(subgoal)
            }
        },
    }
}

/// Adds the hypotheses of `:use` that are new.
#[tactic(auto, using(crate::proofs::Inducting::lists))]
fn add_uses(hyps: &mut Terms, uses: &[Use]) -> Result<(), Memory>
    ensures { OnOk result (hyps.new ≡ join hyps.old (map (λ u. u.hyp) uses.now)) }
{
    for it in uses {
        put_new(hyps, it.hyp.share()?)?;
    }
    Ok(())
}

/// The subgoal with which a reduction starts: the induction hypotheses, then those of `:use`.
pub fn start(
    alloc: Global,
    world: &World,
    hints: &Hints,
    subgoal: Subgoal,
) -> Result<Subgoal, Memory>
    ensures { IfOk result (λ s. s ≡ spec.start world.now hints.now subgoal) }
{
    let Subgoal { mut hyps, goal } = inducted(alloc, world, &hints.induct, subgoal)?;
    add_uses(&mut hyps, hints.uses.as_slice())?;
    Ok(Subgoal { hyps, goal })
}

/// Reduces a condition by its hints, in at most so many steps.
pub fn reduce_by(
    alloc: Global,
    world: &World,
    hints: &Hints,
    steps: u32,
    subgoal: Subgoal,
) -> Result<Outcome, Memory>
    ensures { IfOk result (λ o. o ≡ spec.reduced world.now hints.now steps subgoal) }
{
    let first = start(alloc, world, hints, subgoal)?;
    reduce(alloc, world, &hints.how, steps, first)
}
