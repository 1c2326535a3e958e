//! What a term is in a ring.

ghost use Rattle.std.specs.Prelude.{◌≡◌};
ghost use Rattle.ring_laws.specs.Expressions.{expression, is_arithmetic as arithmetic};
ghost use Rattle.ring_laws.specs.view.Readings.{as_expression, IsBelow};

use lisp_data::Value;
use terms::{Node, Term};

/// A term in a ring, with its parts.
#[derive(Clone, Copy)]
pub(crate) enum Reading<'a> {
    Literal(i128),
    Atom,
    Sum(&'a Term, &'a Term),
    Product(&'a Term, &'a Term),
    Negation(&'a Term),
}

#[tactic(auto, using(crate::proofs::Parts::parts))]
pub(crate) fn read<'a>(term: &'a Term) -> Reading<'a>
    ensures value { as_expression result term.now ≡ expression term.now }
    ensures below { IsBelow result term.now }
{
    match term.node() {
        Node::Var(_) => Reading::Atom,
        Node::Quote(Value::Int(number)) => Reading::Literal(*number),
        Node::Quote(_) => Reading::Atom,
        Node::Call(name, args) => match args.as_slice() {
            [a] => {
                if name.text() == "UNARY--" {
                    return Reading::Negation(a);
                }
                Reading::Atom
            }
            [a, b] => {
                if name.text() == "BINARY-+" {
                    return Reading::Sum(a, b);
                }
                if name.text() == "BINARY-*" {
                    return Reading::Product(a, b);
                }
                Reading::Atom
            }
            _ => Reading::Atom,
        },
    }
}

/// Whether a term is a quoted integer, a sum, a product or a negation.
pub fn is_arithmetic(term: &Term) -> bool
    ensures { result ≡ arithmetic term.now }
{
    match read(term) {
        Reading::Atom => false,
        _ => true,
    }
}
