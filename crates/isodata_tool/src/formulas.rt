//! The formulas and sequents of functions on another representation.

ghost use Rattle.std.specs.Prelude.{◌≡◌, map, length, option_map, IfOk};
ghost use Rattle.measures.specs.Calls.{call_of};
ghost use Rattle.terms.specs.Links.{conjunction as Conjunction};
ghost use Rattle.terms.specs.Substitution.{by_pairs, HasDistinctKeys};
ghost use Rattle.terms.specs.Terms.{Call, Var, by_args, tms, substitute as substituted};
ghost use Rattle.terms.specs.Worlds.{Distinct};
ghost use Rattle.kernel.specs.Sequents.{equation as Equation};
ghost use Rattle.isodata_tool.specs.Carried as spec;
ghost use Rattle.isodata_tool.specs.Proofs as trees;

use crate::maps::{Mapped, all_forth, all_in_new, all_in_old, back_for, backs, formals_in_old};
use hint_prover::{conditional, equation, implication};
use hints::conjunction;
use lisp_data::{Memory, Symbol, Symbols};
use measures::RecursiveCall;
use reduction::quoted_nil;
use sequents::without_repeats;
use std::alloc::Global;
use terms::{Definition, Node, Sequent, Subst, Term, Terms, substitute};
use tool_parts::{at_variables, followed};
use worlds::World;

/// What stands for calls of a function.
#[derive(Clone, Copy)]
pub(crate) struct Change<'a> {
    pub old: &'a Symbol,
    pub new: &'a Symbol,
    pub formals: &'a Symbols,
    pub maps: &'a [Mapped],
}

/// Terms with calls of the new function for those of the old one.
#[cycle(with_new_calls)]
#[tactic(auto, using(crate::proofs::Mapping::callings))]
fn all_with_new_calls(alloc: Global, change: &Change<'_>, terms: &[Term]) -> Result<Terms, Memory>
    ensures { IfOk result (λ ts. tms ts ≡ spec.all_with_new_calls change.now.old.now change.now.new.now change.now.maps.now change.now.formals.now (tms terms.now)) }
{
    let mut images = Terms::new(alloc);
    for term in terms {
        images.push(with_new_calls(alloc, change, term)?)?;
    }
    Ok(images)
}

/// A term with calls of the new function, on the new representation, for those of the old one.
#[cycle(with_new_calls)]
#[tactic(auto, using(crate::proofs::Mapping::callings))]
fn with_new_calls(alloc: Global, change: &Change<'_>, term: &Term) -> Result<Term, Memory>
    ensures { IfOk result (λ t. t ≡ spec.with_new_calls change.now.old.now change.now.new.now change.now.maps.now change.now.formals.now term.now) }
{
    match term.node() {
        Node::Var(_) => term.share(),
        Node::Quote(_) => term.share(),
        Node::Call(name, args) => {
            if change.old.same(name) {
                let images = all_forth(alloc, change.maps, change.formals, args)?;
                Term::call(alloc, change.new.share()?, images)
            } else {
                let images = all_with_new_calls(alloc, change, args.as_slice())?;
                Term::call(alloc, name.share()?, images)
            }
        }
    }
}

/// The old body with the new function's calls.
pub(crate) fn called_body(
    alloc: Global,
    definition: &Definition,
    function: &Symbol,
    maps: &[Mapped],
) -> Result<Term, Memory>
    ensures { IfOk result (λ t. t ≡ spec.called_body definition.now function.now maps.now) }
{
    let change = Change {
        old: &definition.name,
        new: function,
        formals: &definition.formals,
        maps,
    };
    with_new_calls(alloc, &change, &definition.body)
}

/// The old function at the formals, on the old representation.
pub(crate) fn old_at_back(
    alloc: Global,
    definition: &Definition,
    maps: &[Mapped],
) -> Result<Term, Memory>
    ensures { IfOk result (λ t. t ≡ spec.old_at_back definition.now maps.now) }
{
    let mut args = Terms::new(alloc);
    for formal in definition.formals.as_slice() {
        let variable = Term::var(alloc, formal.share()?)?;
        args.push(back_for(alloc, maps, formal, variable)?)?;
    }
    Term::call(alloc, definition.name.share()?, args)
}

/// Variables as terms.
fn variables(alloc: Global, names: &Symbols) -> Result<Terms, Memory>
    ensures { IfOk result (λ ts. ts ≡ map Var names.now) }
{
    let mut terms = Terms::new(alloc);
    for name in names.as_slice() {
        terms.push(Term::var(alloc, name.share()?)?)?;
    }
    Ok(terms)
}

/// A function at arguments, on the new representation.
pub(crate) fn at_forth(
    alloc: Global,
    maps: &[Mapped],
    formals: &Symbols,
    function: &Symbol,
    args: &Terms,
) -> Result<Term, Memory>
    ensures { IfOk result (λ t. t ≡ Call function.now (spec.all_forth maps.now formals.now (tms args.now))) }
{
    let images = all_forth(alloc, maps, formals, args)?;
    Term::call(alloc, function.share()?, images)
}

/// The new function at the formals, on the new representation.
pub(crate) fn new_at_forth(
    alloc: Global,
    definition: &Definition,
    function: &Symbol,
    maps: &[Mapped],
) -> Result<Term, Memory>
    ensures { IfOk result (λ t. t ≡ spec.new_at_forth definition.now function.now maps.now) }
{
    let formals = &definition.formals;
    let args = variables(alloc, formals)?;
    at_forth(alloc, maps, formals, function, &args)
}

/// That the mapped formals are in the new representation.
pub(crate) fn in_new(alloc: Global, world: &World, maps: &[Mapped]) -> Result<Term, Memory>
    ensures { IfOk result (λ t. t ≡ Conjunction (spec.all_in_new maps.now)) }
{
    let terms = all_in_new(alloc, maps)?;
    conjunction(alloc, world, terms.as_slice())
}

/// That the mapped formals are in the old representation.
pub(crate) fn in_old(alloc: Global, world: &World, maps: &[Mapped]) -> Result<Term, Memory>
    ensures { IfOk result (λ t. t ≡ Conjunction (spec.all_in_old maps.now Var)) }
{
    let terms = formals_in_old(alloc, maps)?;
    conjunction(alloc, world, terms.as_slice())
}

/// That what the substitution gives for the mapped formals is in the old representation.
fn images_in_old(
    alloc: Global,
    world: &World,
    maps: &[Mapped],
    images: &Subst,
) -> Result<Term, Memory>
    ensures { IfOk result (λ t. t ≡ Conjunction (spec.all_in_old maps.now (by_pairs images.now))) }
{
    let terms = all_in_old(alloc, maps, images)?;
    conjunction(alloc, world, terms.as_slice())
}

/// The theorem from the new function to the old one.
pub(crate) fn new_to_old(
    alloc: Global,
    world: &World,
    definition: &Definition,
    function: &Symbol,
    maps: &[Mapped],
) -> Result<Term, Memory>
    ensures { IfOk result (λ t. t ≡ spec.new_to_old definition.now function.now maps.now) }
{
    let new = at_variables(alloc, function, &definition.formals)?;
    let old = old_at_back(alloc, definition, maps)?;
    let same = equation(alloc, new, old)?;
    implication(alloc, in_new(alloc, world, maps)?, same)
}

/// The theorem from the old function to the new one.
pub(crate) fn old_to_new(
    alloc: Global,
    world: &World,
    definition: &Definition,
    function: &Symbol,
    maps: &[Mapped],
) -> Result<Term, Memory>
    ensures { IfOk result (λ t. t ≡ spec.old_to_new definition.now function.now maps.now) }
{
    let old = at_variables(alloc, &definition.name, &definition.formals)?;
    let new = new_at_forth(alloc, definition, function, maps)?;
    let same = equation(alloc, old, new)?;
    implication(alloc, in_old(alloc, world, maps)?, same)
}

/// That the two functions are the same at a recursive call's arguments.
pub(crate) fn same_at(
    alloc: Global,
    definition: &Definition,
    function: &Symbol,
    maps: &[Mapped],
    args: &Terms,
) -> Result<Term, Memory>
    ensures { IfOk result (λ t. t ≡ Equation (Call definition.now.name (tms args.now)) (Call function.now (spec.all_forth maps.now definition.now.formals (tms args.now)))) }
{
    let old = Term::call(alloc, definition.name.share()?, args.copy(alloc)?)?;
    let new = at_forth(alloc, maps, &definition.formals, function, args)?;
    equation(alloc, old, new)
}

/// That the arguments of a recursive call are in the old representation.
fn arguments_in_old(
    alloc: Global,
    world: &World,
    definition: &Definition,
    maps: &[Mapped],
    args: &Terms,
) -> Result<Term, Memory>
    requires distinct { Distinct definition.now.formals }
    requires lengths { length definition.now.formals ≡ length args.now }
    ensures { IfOk result (λ t. t ≡ Conjunction (spec.all_in_old maps.now (by_args definition.now.formals (tms args.now)))) }
{
    let images = Subst::of_arguments(alloc, &definition.formals, args)?;
    let term = images_in_old(alloc, world, maps, &images)?;
    Ok(term)
}

/// That a recursive call stays in the old representation.
pub(crate) fn stays_old(
    alloc: Global,
    world: &World,
    definition: &Definition,
    maps: &[Mapped],
    call: &RecursiveCall,
) -> Result<Sequent, Memory>
    requires distinct { Distinct definition.now.formals }
    requires lengths { length definition.now.formals ≡ length call.now.args }
    ensures { IfOk result (λ s. s ≡ spec.stays_old definition.now maps.now (call_of call.now)) }
{
    let hyps = followed(formals_in_old(alloc, maps)?, &call.tests)?;
    Ok(Sequent {
        universals: Terms::new(alloc),
        hyps: without_repeats(alloc, &hyps)?,
        goal: arguments_in_old(alloc, world, definition, maps, &call.args)?,
    })
}

/// A term on the old representation.
fn on_old(alloc: Global, maps: &[Mapped], images: &Subst, term: &Term) -> Result<Term, Memory>
    requires { images.now ≡ trees.backs maps.now }
    ensures { IfOk result (λ t. t ≡ substituted (spec.with_back maps.now) term.now) }
{
    let image = substitute(alloc, term, images)?;
    Ok(image)
}

/// The measure on the old representation, if there is one.
fn measure_of(
    alloc: Global,
    maps: &[Mapped],
    images: &Subst,
    measure: &Option<Term>,
) -> Result<Option<Term>, Memory>
    requires { images.now ≡ trees.backs maps.now }
    ensures { IfOk result (λ m. m ≡ option_map (substituted (spec.with_back maps.now)) measure.now) }
{
    match measure {
        Some(measure) => Ok(Some(on_old(alloc, maps, images, measure)?)),
        None => Ok(None),
    }
}

/// The new function.
pub(crate) fn carried_over(
    alloc: Global,
    world: &World,
    definition: &Definition,
    function: &Symbol,
    maps: &[Mapped],
) -> Result<Definition, Memory>
    requires { HasDistinctKeys (trees.backs maps.now) }
    ensures { IfOk result (λ d. d ≡ spec.carried_over definition.now function.now maps.now) }
{
    let images = backs(alloc, maps)?;
    let called = called_body(alloc, definition, function, maps)?;
    let inside = on_old(alloc, maps, &images, &called)?;
    let outside = quoted_nil(alloc)?;
    let mut new = definition.copy(alloc)?;
    new.name = function.share()?;
    new.body = conditional(alloc, in_new(alloc, world, maps)?, inside, outside)?;
    new.measure = measure_of(alloc, maps, &images, &definition.measure)?;
    Ok(new)
}
