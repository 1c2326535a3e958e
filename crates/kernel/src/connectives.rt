//! Equations, negations, implications and conditionals, and what they are made of.

ghost use Rattle.std.specs.Prelude.{◌≡◌, IfOk, codes};
ghost use Rattle.std.specs.Option.{option_map, option_copied};
ghost use Rattle.terms.specs.Terms.{tms};
ghost use Rattle.terms.specs.Measures.{call1 as Call1, call2 as Call2};
ghost use Rattle.kernel.specs.Axioms.{natp, less};
ghost use Rattle.kernel.specs.Sequents.{equation, negation, implication, conditional, args_of, one_of, negated_of, sides_of};
ghost use Rattle.terms.specs.Evaluation.{then_with};
ghost use Rattle.worlds.specs.Connectives.{name_of};

use lisp_data::{Memory, Seq};
use std::alloc::Global;
use terms::{Node, Term, Terms};
use worlds::{Connective, World};

fn call1(alloc: Global, world: &World, function: Connective, a: Term) -> Result<Term, Memory>
    ensures { IfOk result (λ t. t ≡ Call1 (name_of function) a) }
{
    let name = world.connective(function)?;
    let mut args = Seq::new(alloc);
    args.push(a)?;
    Term::call(alloc, name, args)
}

fn call2(
    alloc: Global,
    world: &World,
    function: Connective,
    a: Term,
    b: Term,
) -> Result<Term, Memory>
    ensures { IfOk result (λ t. t ≡ Call2 (name_of function) a b) }
{
    let name = world.connective(function)?;
    let mut args = Seq::new(alloc);
    args.push(a)?;
    args.push(b)?;
    Term::call(alloc, name, args)
}

/// `(equal a b)`
pub(crate) fn equation(alloc: Global, world: &World, a: Term, b: Term) -> Result<Term, Memory>
    ensures { IfOk result (λ t. t ≡ equation a b) }
{
    call2(alloc, world, Connective::Equal, a, b)
}

/// `(implies a b)`
pub(crate) fn implication(alloc: Global, world: &World, a: Term, b: Term) -> Result<Term, Memory>
    ensures { IfOk result (λ t. t ≡ implication a b) }
{
    call2(alloc, world, Connective::Implies, a, b)
}

/// `(not a)`
pub(crate) fn negation(alloc: Global, world: &World, a: Term) -> Result<Term, Memory>
    ensures { IfOk result (λ t. t ≡ negation a) }
{
    call1(alloc, world, Connective::Not, a)
}

/// `(if a b c)`
pub(crate) fn conditional(
    alloc: Global,
    world: &World,
    a: Term,
    b: Term,
    c: Term,
) -> Result<Term, Memory>
    ensures { IfOk result (λ t. t ≡ conditional a b c) }
{
    let name = world.connective(Connective::If)?;
    let mut args = Seq::new(alloc);
    args.push(a)?;
    args.push(b)?;
    args.push(c)?;
    Term::call(alloc, name, args)
}

/// `(natp a)`
pub(crate) fn natural(alloc: Global, world: &World, a: Term) -> Result<Term, Memory>
    ensures { IfOk result (λ t. t ≡ natp a) }
{
    call1(alloc, world, Connective::Natp, a)
}

/// `(< a b)`
pub(crate) fn comparison(alloc: Global, world: &World, a: Term, b: Term) -> Result<Term, Memory>
    ensures { IfOk result (λ t. t ≡ less a b) }
{
    call2(alloc, world, Connective::Less, a, b)
}

/// The arguments of a call of the function with this name.
fn args_of<'a>(name: &str, term: &'a Term) -> Option<&'a Terms>
    ensures { option_map (λ ts. tms ts.now) result ≡ args_of name.now term.now }
{
    match term.node() {
        Node::Var(_) => None,
        Node::Quote(_) => None,
        Node::Call(function, args) => {
            if function.text() != name {
                return None;
            }
            Some(args)
        }
    }
}

/// What a negation negates.
#[tactic(auto, using(crate::proofs::Args::parts))]
pub(crate) fn negated_of<'a>(term: &'a Term) -> Option<&'a Term>
    ensures { option_copied result ≡ negated_of term.now }
{
    let Some(args) = args_of("NOT", term) else {
        return None;
    };
    match args.as_slice() {
        [negated] => Some(negated),
        _ => None,
    }
}

#[tactic(auto, using(crate::proofs::Args::parts))]
fn sides_of<'a>(name: &str, term: &'a Term) -> Option<(&'a Term, &'a Term)>
    ensures { option_map (λ e. (e.0.now, e.1.now)) result ≡ sides_of name.now term.now }
{
    let Some(args) = args_of(name, term) else {
        return None;
    };
    match args.as_slice() {
        [left, right] => Some((left, right)),
        _ => None,
    }
}

/// The two sides of an equation.
pub(crate) fn equal_sides<'a>(term: &'a Term) -> Option<(&'a Term, &'a Term)>
    ensures { option_map (λ e. (e.0.now, e.1.now)) result ≡ sides_of (codes "EQUAL") term.now }
{
    sides_of("EQUAL", term)
}

/// The two sides of an implication.
pub(crate) fn implies_sides<'a>(term: &'a Term) -> Option<(&'a Term, &'a Term)>
    ensures { option_map (λ e. (e.0.now, e.1.now)) result ≡ sides_of (codes "IMPLIES") term.now }
{
    sides_of("IMPLIES", term)
}

/// The two sides of a comparison.
pub(crate) fn less_sides<'a>(term: &'a Term) -> Option<(&'a Term, &'a Term)>
    ensures { option_map (λ e. (e.0.now, e.1.now)) result ≡ sides_of (codes "<") term.now }
{
    sides_of("<", term)
}

/// What is said to be a natural number.
#[tactic(auto, using(crate::proofs::Args::parts))]
pub(crate) fn natural_of<'a>(term: &'a Term) -> Option<&'a Term>
    ensures { option_copied result ≡ then_with (args_of (codes "NATP") term.now) one_of }
{
    let Some(args) = args_of("NATP", term) else {
        return None;
    };
    match args.as_slice() {
        [natural] => Some(natural),
        _ => None,
    }
}
