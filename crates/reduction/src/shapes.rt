//! Calls of known functions.

ghost use Rattle.std.specs.Prelude.{◌≡◌, IfOk, codes};
ghost use Rattle.std.specs.Option.{option_copied, option_map};
ghost use Rattle.terms.specs.Terms.{tms, same_tm};
ghost use Rattle.terms.specs.Measures.{mentions as is_mentioned, mentions_in as is_mentioned_in};
ghost use Rattle.reduction.specs.Finding as spec;
ghost use Rattle.reduction.specs.Hyps.{negation, quoted_nil, quoted_t, is_true_quote as is_true};

use lisp_data::{Memory, Seq, Symbol, Value};
use std::alloc::Global;
use terms::{Node, Term};

/// The arguments of a call of a function.
pub(crate) fn args_of<'a>(term: &'a Term, name: &str) -> Option<&'a [Term]>
    ensures { option_map (λ a. tms a.now) result ≡ spec.args_of name.now term.now }
{
    match term.node() {
        Node::Var(_) => None,
        Node::Quote(_) => None,
        Node::Call(called, args) => {
            if called.text() == name {
                Some(args.as_slice())
            } else {
                None
            }
        }
    }
}

/// The argument of a call of a function on one.
#[tactic(auto, using(crate::proofs::Args::shapes))]
pub fn of_one<'a>(term: &'a Term, name: &str) -> Option<&'a Term>
    ensures { option_copied result ≡ spec.of_one name.now term.now }
{
    match args_of(term, name) {
        None => None,
        Some(args) => match args {
            [a] => Some(a),
            _ => None,
        },
    }
}

/// The arguments of a call of a function on two.
#[tactic(auto, using(crate::proofs::Args::shapes))]
pub fn of_two<'a>(term: &'a Term, name: &str) -> Option<(&'a Term, &'a Term)>
    ensures { option_map (λ e. (e.0.now, e.1.now)) result ≡ spec.of_two name.now term.now }
{
    match args_of(term, name) {
        None => None,
        Some(args) => match args {
            [a, b] => Some((a, b)),
            _ => None,
        },
    }
}

/// The arguments of a call of a function on three.
#[tactic(auto, using(crate::proofs::Args::shapes))]
pub fn of_three<'a>(term: &'a Term, name: &str) -> Option<(&'a Term, &'a Term, &'a Term)>
    ensures { option_map (λ e. (e.0.now, e.1.now, e.2.now)) result ≡ spec.of_three name.now term.now }
{
    match args_of(term, name) {
        None => None,
        Some(args) => match args {
            [a, b, c] => Some((a, b, c)),
            _ => None,
        },
    }
}

pub(crate) fn is_call(term: &Term) -> bool
    ensures { result ≡ spec.is_call term.now }
{
    match term.node() {
        Node::Var(_) => false,
        Node::Quote(_) => false,
        Node::Call(_, _) => true,
    }
}

/// Whether the term has a call of the function.
#[cycle(mentions)]
#[tactic(auto, using(crate::proofs::Args::args))]
pub fn mentions(term: &Term, name: &str) -> bool
    ensures { result ≡ is_mentioned name.now term.now }
{
    match term.node() {
        Node::Var(_) => false,
        Node::Quote(_) => false,
        Node::Call(called, args) => name == called.text() || mentions_in(args.as_slice(), name),
    }
}

#[cycle(mentions)]
#[tactic(auto, using(crate::proofs::Args::args))]
fn mentions_in(terms: &[Term], name: &str) -> bool
    ensures { result ≡ is_mentioned_in name.now (tms terms.now) }
{
    for term in terms {
        if mentions(term, name) {
            return true;
        }
    }
    false
}

/// Whether a quoted value other than NIL.
pub fn is_true_quote(term: &Term) -> bool
    ensures { result ≡ is_true term.now }
{
    match term.node() {
        Node::Var(_) => false,
        Node::Quote(value) => match value {
            Value::Sym(symbol) => symbol.text() != "NIL",
            Value::Int(_) => true,
            Value::Pair(_) => true,
        },
        Node::Call(_, _) => false,
    }
}

/// Whether `'nil`.
pub fn is_quoted_nil(term: &Term) -> bool
    ensures { result ≡ same_tm term.now quoted_nil }
{
    match term.node() {
        Node::Var(_) => false,
        Node::Quote(value) => match value {
            Value::Sym(symbol) => symbol.text() == "NIL",
            Value::Int(_) => false,
            Value::Pair(_) => false,
        },
        Node::Call(_, _) => false,
    }
}

/// `'nil`
#[tactic(auto, unfolding(lisp_data::specs::SymbolText::is_symbol_text, lisp_data::specs::Atoms::leaf, lisp_data::specs::Atoms::in_atom, lisp_data::specs::Atoms::is_delimiter, lisp_data::specs::Atoms::is_sign))]
pub fn quoted_nil(alloc: Global) -> Result<Term, Memory>
    ensures { IfOk result (λ t. t ≡ quoted_nil) }
{
    let symbol = Symbol::named(alloc, "NIL")?;
    Term::quote(alloc, Value::Sym(symbol))
}

/// `'t`
#[tactic(auto, unfolding(lisp_data::specs::SymbolText::is_symbol_text, lisp_data::specs::Atoms::leaf, lisp_data::specs::Atoms::in_atom, lisp_data::specs::Atoms::is_delimiter, lisp_data::specs::Atoms::is_sign))]
pub(crate) fn quoted_t(alloc: Global) -> Result<Term, Memory>
    ensures { IfOk result (λ t. t ≡ quoted_t) }
{
    let symbol = Symbol::named(alloc, "T")?;
    Term::quote(alloc, Value::Sym(symbol))
}

/// `(not a)`
#[tactic(auto, unfolding(lisp_data::specs::SymbolText::is_symbol_text, lisp_data::specs::Atoms::leaf, lisp_data::specs::Atoms::in_atom, lisp_data::specs::Atoms::is_delimiter, lisp_data::specs::Atoms::is_sign))]
pub fn negation(alloc: Global, term: Term) -> Result<Term, Memory>
    ensures { IfOk result (λ t. t ≡ negation term) }
{
    let symbol = Symbol::named(alloc, "NOT")?;
    let mut args = Seq::new(alloc);
    args.push(term)?;
    Term::call(alloc, symbol, args)
}
