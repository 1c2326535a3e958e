//! How many calls of a function a term has, and so how much a definition owes.

ghost use Rattle.std.specs.Prelude.{◌≡◌, ◌-◌, length, nat_lt};
ghost use Rattle.terms.specs.Terms.{tms};
ghost use Rattle.terms.specs.Measures as spec;
ghost use Rattle.measures.specs.view.Calls.{calls_of, calls_in};

use lisp_data::Symbol;
use terms::{Definition, Node, Term};

/// What is left of a number once each call of the function in the term has taken one away.
#[cycle(counts)]
#[tactic(auto, using(crate::proofs::Numbers::counts))]
fn left_of(number: u32, name: &Symbol, term: &Term) -> u32
    ensures { result ≡ number - calls_of name.now term.now }
{
    match term.node() {
        Node::Var(_) => number,
        Node::Quote(_) => number,
        Node::Call(called, args) => {
            let after = if name.same(called) {
                number.saturating_sub(1)
            } else {
                number
            };
            left_of_all(after, name, args.as_slice())
        }
    }
}

#[cycle(counts)]
#[tactic(auto, using(crate::proofs::Numbers::counts))]
fn left_of_all(number: u32, name: &Symbol, terms: &[Term]) -> u32
    ensures { result ≡ number - calls_in name.now (tms terms.now) }
{
    let mut left = number;
    for term in terms {
        left = left_of(left, name, term);
    }
    left
}

/// Whether a definition owes an obligation of this number, from 0 (docs/MODEL.md, "Recursive calls and obligations").
pub fn has_obligation(def: &Definition, number: u32) -> bool
    ensures { result ≡ nat_lt number (length (spec.obligations def.now)) }
{
    let calls = number.max(1);
    def.measure.is_some() && left_of(calls, &def.name, &def.body) == 0
}
