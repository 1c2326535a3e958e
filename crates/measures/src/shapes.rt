//! What terms call, and how some are put together.

ghost use Rattle.std.specs.Prelude.{◌≡◌, true, codes, IfOk};
ghost use Rattle.lisp_data.specs.SymbolText.{is_symbol_text};
ghost use Rattle.terms.specs.Terms.{Var, Call, tms, same_tm};
ghost use Rattle.terms.specs.Measures as spec;

use lisp_data::{Memory, Symbol};
use std::alloc::Global;
use terms::{Node, Term, Terms};

/// Whether the term calls the function (docs/MODEL.md, "Recursive calls and obligations").
#[cycle(mentions)]
#[tactic(auto, using(terms::proofs::Args::args))]
pub fn mentions(name: &Symbol, term: &Term) -> bool
    ensures { result ≡ spec.mentions name.now term.now }
{
    match term.node() {
        Node::Var(_) => false,
        Node::Quote(_) => false,
        Node::Call(called, args) => name.same(called) || mentions_in(name, args.as_slice()),
    }
}

#[cycle(mentions)]
#[tactic(auto, using(terms::proofs::Args::args))]
fn mentions_in(name: &Symbol, terms: &[Term]) -> bool
    ensures { result ≡ spec.mentions_in name.now (tms terms.now) }
{
    for term in terms {
        if mentions(name, term) {
            return true;
        }
    }
    false
}

/// Whether an argument of a call of the function calls it too (docs/MODEL.md, "Recursive calls and obligations").
#[cycle(nested)]
#[tactic(auto, using(terms::proofs::Args::args))]
pub fn is_nested(name: &Symbol, term: &Term) -> bool
    ensures { result ≡ spec.is_nested name.now term.now }
{
    match term.node() {
        Node::Var(_) => false,
        Node::Quote(_) => false,
        Node::Call(called, args) => {
            (name.same(called) && mentions_in(name, args.as_slice()))
                || is_nested_in(name, args.as_slice())
        }
    }
}

#[cycle(nested)]
#[tactic(auto, using(terms::proofs::Args::args))]
fn is_nested_in(name: &Symbol, terms: &[Term]) -> bool
    ensures { result ≡ spec.is_nested_in name.now (tms terms.now) }
{
    for term in terms {
        if is_nested(name, term) {
            return true;
        }
    }
    false
}

/// Whether the term is this variable.
pub(crate) fn is_variable(term: &Term, name: &Symbol) -> bool
    ensures { result ≡ same_tm term.now (Var name.now) }
{
    match term.node() {
        Node::Var(variable) => variable.same(name),
        Node::Quote(_) => false,
        Node::Call(_, _) => false,
    }
}

fn call_on(alloc: Global, name: &str, term: Term) -> Result<Term, Memory>
    requires { is_symbol_text name.now ≡ true }
    ensures { IfOk result (λ t. t ≡ spec.call1 name.now term) }
{
    let mut args = Terms::new(alloc);
    args.push(term)?;
    Term::call(alloc, Symbol::named(alloc, name)?, args)
}

/// `(not a)`
#[tactic(auto, unfolding(lisp_data::specs::SymbolText::is_symbol_text, lisp_data::specs::Atoms::leaf, lisp_data::specs::Atoms::in_atom, lisp_data::specs::Atoms::is_delimiter, lisp_data::specs::Atoms::is_sign))]
pub(crate) fn not(alloc: Global, term: Term) -> Result<Term, Memory>
    ensures { IfOk result (λ t. t ≡ spec.call1 (codes "NOT") term) }
{
    call_on(alloc, "NOT", term)
}

/// `(natp a)`
#[tactic(auto, unfolding(lisp_data::specs::SymbolText::is_symbol_text, lisp_data::specs::Atoms::leaf, lisp_data::specs::Atoms::in_atom, lisp_data::specs::Atoms::is_delimiter, lisp_data::specs::Atoms::is_sign))]
pub(crate) fn natp(alloc: Global, term: Term) -> Result<Term, Memory>
    ensures { IfOk result (λ t. t ≡ spec.call1 (codes "NATP") term) }
{
    call_on(alloc, "NATP", term)
}

/// `(acl2-count a)`
#[tactic(auto, unfolding(lisp_data::specs::SymbolText::is_symbol_text, lisp_data::specs::Atoms::leaf, lisp_data::specs::Atoms::in_atom, lisp_data::specs::Atoms::is_delimiter, lisp_data::specs::Atoms::is_sign))]
pub(crate) fn acl2_count(alloc: Global, term: Term) -> Result<Term, Memory>
    ensures { IfOk result (λ t. t ≡ spec.call1 (codes "ACL2-COUNT") term) }
{
    call_on(alloc, "ACL2-COUNT", term)
}

/// `(< a b)`
#[tactic(auto, unfolding(lisp_data::specs::SymbolText::is_symbol_text, lisp_data::specs::Atoms::leaf, lisp_data::specs::Atoms::in_atom, lisp_data::specs::Atoms::is_delimiter, lisp_data::specs::Atoms::is_sign))]
pub(crate) fn less(alloc: Global, a: Term, b: Term) -> Result<Term, Memory>
    ensures { IfOk result (λ t. t ≡ spec.call2 (codes "<") a b) }
{
    let mut args = Terms::new(alloc);
    args.push(a)?;
    args.push(b)?;
    Term::call(alloc, Symbol::named(alloc, "<")?, args)
}
