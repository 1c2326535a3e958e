//! What the rule that evaluates concludes, as docs/KERNEL.md says.

ghost use Rattle.std.specs.Prelude.{◌≡◌, ◌↔◌, false, IsErrOf};
ghost use Rattle.terms.specs.Terms.{tms};
ghost use Rattle.evaluator.specs.Counted.{evaluated};
ghost use Rattle.evaluator.specs.Laws.{IsGround};
ghost use Rattle.kernel.specs.Answers.{SaysStep, SaysValue};
ghost use Rattle.kernel.specs.Evaluating.{is_ground as grounded, all_ground as all_grounded, can_evaluate, computed, evaluation_code};

use crate::connectives::equation;
use crate::errors::RuleError;
use crate::fitting::fits;
use crate::sequents::of_goal;
use evaluator::{EvalError, evaluate};
use lisp_data::{Code, Value};
use std::alloc::Global;
use terms::{Node, Sequent, Term};
use worlds::World;

#[cycle(variables)]
#[tactic(auto, using(crate::proofs::Args::args))]
fn all_ground(terms: &[Term]) -> bool
    ensures { result ≡ all_grounded (tms terms.now) }
{
    for term in terms {
        if !is_ground(term) {
            return false;
        }
    }
    true
}

/// Whether the term has no variables.
#[cycle(variables)]
#[tactic(auto, using(crate::proofs::Args::args))]
fn is_ground(term: &Term) -> bool
    ensures { result ≡ grounded term.now }
{
    match term.node() {
        Node::Var(_) => false,
        Node::Quote(_) => true,
        Node::Call(_, args) => all_ground(args.as_slice()),
    }
}

/// The value of a term, or the limit that its evaluation meets.
fn value_of(alloc: Global, world: &World, term: &Term) -> Result<Value, RuleError>
    requires { IsGround world.now.functions term.now }
    ensures { SaysValue (evaluated world.now.functions.defs term.now) result }
{
    match evaluate(alloc, world, term) {
        Ok(value) => Ok(value),
        Err(EvalError::HasFunctionVariables(_)) => {
            Err(RuleError::Limit(Code::HasFunctionVariables))
        }
        Err(EvalError::TooManyCalls) => Err(RuleError::Limit(Code::EvalTooManyCalls)),
        Err(EvalError::TooWide) => Err(RuleError::Limit(Code::EvalTooWide)),
        Err(EvalError::TooLarge) => Err(RuleError::Limit(Code::EvalTooLarge)),
        Err(EvalError::Memory) => Err(RuleError::Memory),
    }
}

/// Evaluate: a well-formed term without variables equals its value.
pub(crate) fn computed(alloc: Global, world: &World, term: &Term) -> Result<Sequent, RuleError>
    ensures says { SaysStep (computed world.now.functions term.now) (evaluation_code world.now.functions term.now) result }
    ensures refused { IsErrOf result RuleError.Refused ↔ (can_evaluate world.now.functions term.now ≡ false) }
{
    if !fits(world, term) || !is_ground(term) {
        return Err(RuleError::Refused);
    }
    let value = value_of(alloc, world, term)?;
    let value = Term::quote(alloc, value)?;
    let goal = equation(alloc, world, term.share()?, value)?;
    Ok(of_goal(alloc, goal))
}
