//! An atom of a term, as a key of an index.

ghost use Rattle.std.specs.Prelude.{◌≡◌, fold, IfOk};
ghost use Rattle.std.specs.Cmp.{partial_equiv_from_equiv};
ghost use Rattle.lisp_data.specs.ValueView.{val_of};
ghost use Rattle.terms.specs.Terms.{same_tm, tms};
ghost use Rattle.ring_laws.specs.view.Writes.{of_value, of_term, of_terms, term_laws, terms_alike};

use lisp_data::Value;
use lists::Memory;
use std::hash::{Hash, Hasher};
use std::marker::Model;
use terms::{Node, Term};

#[tactic(auto, using(crate::proofs::Writes::writes))]
fn hash_value<H: Hasher>(value: &Value, state: &mut H)
    ensures { state.new ≡ fold H.write state.old (of_value (val_of value.now)) }
{
    match value {
        Value::Int(number) => {
            state.write_u8(0);
            number.hash(state);
        }
        Value::Sym(symbol) => {
            state.write_u8(1);
            symbol.hash(state);
        }
        Value::Pair(pair) => {
            state.write_u8(2);
            hash_value(pair.car(), state);
            hash_value(pair.cdr(), state);
        }
    }
}

#[cycle(hash)]
#[tactic(auto, using(crate::proofs::Writes::writes))]
fn hash_terms<H: Hasher>(terms: &[Term], state: &mut H)
    ensures { state.new ≡ fold H.write state.old (of_terms (tms terms.now)) }
{
    for term in terms {
        hash_term(term, state);
    }
    state.write_u8(3);
}

#[cycle(hash)]
#[tactic(auto, using(crate::proofs::Writes::writes))]
fn hash_term<H: Hasher>(term: &Term, state: &mut H)
    ensures { state.new ≡ fold H.write state.old (of_term term.now) }
{
    match term.node() {
        Node::Var(name) => {
            state.write_u8(0);
            name.hash(state);
        }
        Node::Quote(value) => {
            state.write_u8(1);
            hash_value(value, state);
        }
        Node::Call(name, args) => {
            state.write_u8(2);
            name.hash(state);
            hash_terms(args.as_slice(), state);
        }
    }
}

/// An atom. Contracts see its term.
pub(crate) struct Atom {
    term: Term,
}

impl Drop for Atom {
    fn drop(self) {
        let Atom { term: _ } = self;
    }
}

impl Model for Atom {
    ghost use Rattle.terms.specs.Terms.{Tm, tm_code};

    ghost Value = { Tm };

    ghost coded = { tm_code };

    ghost view = { λ a. a.term };
}

impl Atom {
    pub(crate) fn of(term: &Term) -> Result<Atom, Memory>
        ensures { IfOk result (λ a. a ≡ term.now) }
    {
        Ok(Atom {
            term: term.share()?,
        })
    }
}

impl PartialEq for Atom {
    ghost eq = { same_tm };

    ghost laws = { partial_equiv_from_equiv term_laws };

    fn eq(&self, other: &Atom) -> bool {
        self.term.same(&other.term)
    }
}

impl Eq for Atom {
    ghost laws = { term_laws };
}

impl Hash for Atom {
    ghost hash_input = { of_term };

    ghost respects_eq = { terms_alike };

    fn hash<H: Hasher>(&self, state: &mut H) {
        hash_term(&self.term, state);
    }
}
