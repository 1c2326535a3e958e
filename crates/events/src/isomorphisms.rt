//! The conditions of an isomorphism.
#![tactic(auto, unfolding(lisp_data::specs::SymbolText::is_symbol_text, lisp_data::specs::Atoms::leaf, lisp_data::specs::Atoms::in_atom, lisp_data::specs::Atoms::is_delimiter, lisp_data::specs::Atoms::is_sign))]

ghost use Rattle.std.specs.Prelude.{◌≡◌, true, codes, IfOk};
ghost use Rattle.lisp_data.specs.SymbolText.{is_symbol_text};
ghost use Rattle.terms.specs.Measures.{call1 as Call1, call2 as Call2};
ghost use Rattle.terms.specs.Sound.{over_x};
ghost use Rattle.terms.specs.Terms.{Var};
ghost use Rattle.events.specs.Defiso as spec;

use lisp_data::{Memory, Symbol};
use plans::{Condition, Conditions};
use std::alloc::Global;
use terms::{Iso, Sequent, Term, Terms};
use worlds::{Connective, World};

fn call(alloc: Global, function: &Symbol, argument: Term) -> Result<Term, Memory>
    ensures { IfOk result (λ t. t ≡ Call1 function.now argument) }
{
    let mut arguments = Terms::new(alloc);
    arguments.push(argument)?;
    Term::call(alloc, function.share()?, arguments)
}

fn equation(alloc: Global, world: &World, left: Term, right: Term) -> Result<Term, Memory>
    ensures { IfOk result (λ t. t ≡ Call2 (codes "EQUAL") left right) }
{
    let equal = world.connective(Connective::Equal)?;
    let mut sides = Terms::new(alloc);
    sides.push(left)?;
    sides.push(right)?;
    Term::call(alloc, equal, sides)
}

fn x(alloc: Global) -> Result<Term, Memory>
    ensures { IfOk result (λ t. t ≡ Var (codes "X")) }
{
    Term::var(alloc, Symbol::named(alloc, "X")?)
}

/// The goal, where the predicate is true of x.
fn over_x(alloc: Global, predicate: &Symbol, goal: Term) -> Result<Sequent, Memory>
    ensures { IfOk result (λ s. s ≡ over_x predicate.now goal) }
{
    let mut hyps = Terms::new(alloc);
    hyps.push(call(alloc, predicate, x(alloc)?)?)?;
    Ok(Sequent {
        universals: Terms::new(alloc),
        hyps,
        goal,
    })
}

/// What one predicate is true of, a function takes to what the other one is true of.
fn image(alloc: Global, from: &Symbol, to: &Symbol, function: &Symbol) -> Result<Sequent, Memory>
    ensures { IfOk result (λ s. s ≡ over_x from.now (Call1 to.now (Call1 function.now (Var (codes "X"))))) }
{
    let image = call(alloc, function, x(alloc)?)?;
    over_x(alloc, from, call(alloc, to, image)?)
}

/// Of what the predicate is true of, one function undoes the other, which comes first.
fn undone(
    alloc: Global,
    world: &World,
    predicate: &Symbol,
    first: &Symbol,
    then: &Symbol,
) -> Result<Sequent, Memory>
    ensures { IfOk result (λ s. s ≡ over_x predicate.now (Call2 (codes "EQUAL") (Call1 then.now (Call1 first.now (Var (codes "X")))) (Var (codes "X")))) }
{
    let image = call(alloc, first, x(alloc)?)?;
    let again = call(alloc, then, image)?;
    over_x(alloc, predicate, equation(alloc, world, again, x(alloc)?)?)
}

fn named(alloc: Global, name: &str, sequent: Sequent) -> Result<Condition, Memory>
    requires { is_symbol_text name.now ≡ true }
    ensures { IfOk result (λ c. c ≡ record { name = name.now; sequent = sequent }) }
{
    Ok(Condition {
        name: Symbol::named(alloc, name)?,
        sequent,
    })
}

/// The four conditions of an isomorphism (docs/EVENTS.md, "defiso").
pub(crate) fn iso_conditions(alloc: Global, world: &World, iso: &Iso) -> Result<Conditions, Memory>
    ensures { IfOk result (λ cs. cs ≡ spec.conditions iso.now) }
{
    let forth_image = image(alloc, &iso.oldp, &iso.newp, &iso.forth)?;
    let back_image = image(alloc, &iso.newp, &iso.oldp, &iso.back)?;
    let back_of_forth = undone(alloc, world, &iso.oldp, &iso.forth, &iso.back)?;
    let forth_of_back = undone(alloc, world, &iso.newp, &iso.back, &iso.forth)?;
    let mut conditions = Conditions::new(alloc);
    conditions.push(named(alloc, ":FORTH-IMAGE", forth_image)?)?;
    conditions.push(named(alloc, ":BACK-IMAGE", back_image)?)?;
    conditions.push(named(alloc, ":BACK-OF-FORTH", back_of_forth)?)?;
    conditions.push(named(alloc, ":FORTH-OF-BACK", forth_of_back)?)?;
    Ok(conditions)
}
