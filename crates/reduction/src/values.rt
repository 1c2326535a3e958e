//! Calls on quoted arguments, which become their values.

ghost use Rattle.std.specs.Prelude.{◌≡◌, IfOk, true};
ghost use Rattle.std.specs.Option.{option_map};
ghost use Rattle.lisp_data.specs.ValueView.{val_of};
ghost use Rattle.terms.specs.Terms.{tms};
ghost use Rattle.reduction.specs.Complete.{is_complete};
ghost use Rattle.reduction.specs.Finders as spec;

use crate::finders::Finding;
use crate::found::{Found, Reason};
use evaluator::{EvalError, evaluate};
use lisp_data::{Memory, Value};
use std::alloc::Global;
use terms::{Node, Term};
use worlds::World;

fn is_quoted(term: &Term) -> bool
    ensures { result ≡ spec.is_quoted term.now }
{
    match term.node() {
        Node::Var(_) => false,
        Node::Quote(_) => true,
        Node::Call(_, _) => false,
    }
}

#[tactic(auto, using(crate::proofs::Args::args))]
fn are_quoted(terms: &[Term]) -> bool
    ensures { result ≡ spec.are_quoted (tms terms.now) }
{
    for term in terms {
        if !is_quoted(term) {
            return false;
        }
    }
    true
}

fn is_quoted_call(term: &Term) -> bool
    ensures { result ≡ spec.is_quoted_call term.now }
{
    match term.node() {
        Node::Var(_) => false,
        Node::Quote(_) => false,
        Node::Call(_, args) => are_quoted(args.as_slice()),
    }
}

/// Whether the function that the term calls takes as many arguments.
#[tactic(auto, using(crate::proofs::Args::counts))]
fn is_complete(world: &World, term: &Term) -> bool
    ensures { result ≡ is_complete world.now.functions term.now }
{
    match term.node() {
        Node::Var(_) => false,
        Node::Quote(_) => false,
        Node::Call(name, args) => match world.arity(name) {
            None => false,
            Some(arity) => arity == args.len(),
        },
    }
}

/// The value of a call on quoted arguments, where evaluation gives one.
#[tactic(auto, using(crate::proofs::Ground::values))]
fn value_of(alloc: Global, world: &World, call: &Term) -> Result<Option<Value>, Memory>
    requires { spec.is_quoted_call call.now ≡ true }
    ensures { IfOk result (λ o. option_map val_of o ≡ spec.value_of world.now call.now) }
{
    if !is_complete(world, call) {
        return Ok(None);
    }
    match evaluate(alloc, world, call) {
        Ok(value) => Ok(Some(value)),
        Err(EvalError::HasFunctionVariables(_)) => Ok(None),
        Err(EvalError::TooManyCalls) => Ok(None),
        Err(EvalError::TooWide) => Ok(None),
        Err(EvalError::TooLarge) => Ok(None),
        Err(EvalError::Memory) => Err(Memory),
    }
}

/// The value of a call on quoted arguments.
pub(crate) fn ground(alloc: Global, world: &World, term: &Term) -> Finding
    ensures { IfOk result (λ o. o ≡ spec.ground world.now term.now) }
{
    if !is_quoted_call(term) {
        return Ok(None);
    }
    match value_of(alloc, world, term)? {
        None => Ok(None),
        Some(value) => {
            let term = Term::quote(alloc, value)?;
            Ok(Some(Found {
                term,
                reason: Reason::Valued,
            }))
        }
    }
}
