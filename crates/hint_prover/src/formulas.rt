//! Terms of functions that each world has, and terms for the variables of axioms.
#![tactic(auto, unfolding(lisp_data::specs::SymbolText::is_symbol_text, lisp_data::specs::Atoms::leaf, lisp_data::specs::Atoms::in_atom, lisp_data::specs::Atoms::is_delimiter, lisp_data::specs::Atoms::is_sign))]

ghost use Rattle.std.specs.Prelude.{◌≡◌, true, [], ◌∷◌, codes, pos, IfOk};
ghost use Rattle.lisp_data.specs.SymbolText.{is_symbol_text};
ghost use Rattle.terms.specs.BuiltIn.{quoted, if_else};
ghost use Rattle.terms.specs.Measures.{call1 as Call1, call2 as Call2};
ghost use Rattle.kernel.specs.Sequents.{equation as Equation, implication as Implication};

use lisp_data::{Memory, Seq, Symbol, Value};
use std::alloc::Global;
use terms::{Subst, Term};

fn call1(alloc: Global, name: &str, a: Term) -> Result<Term, Memory>
    requires { is_symbol_text name.now ≡ true }
    ensures { IfOk result (λ t. t ≡ Call1 name.now a) }
{
    let name = Symbol::named(alloc, name)?;
    let mut args = Seq::new(alloc);
    args.push(a)?;
    Term::call(alloc, name, args)
}

fn call2(alloc: Global, name: &str, a: Term, b: Term) -> Result<Term, Memory>
    requires { is_symbol_text name.now ≡ true }
    ensures { IfOk result (λ t. t ≡ Call2 name.now a b) }
{
    let name = Symbol::named(alloc, name)?;
    let mut args = Seq::new(alloc);
    args.push(a)?;
    args.push(b)?;
    Term::call(alloc, name, args)
}

/// `(equal a b)`
pub fn equation(alloc: Global, a: Term, b: Term) -> Result<Term, Memory>
    ensures { IfOk result (λ t. t ≡ Equation a b) }
{
    call2(alloc, "EQUAL", a, b)
}

/// `(implies a b)`.
pub fn implication(alloc: Global, a: Term, b: Term) -> Result<Term, Memory>
    ensures { IfOk result (λ t. t ≡ Implication a b) }
{
    call2(alloc, "IMPLIES", a, b)
}

/// `(if a b c)`
pub fn conditional(alloc: Global, a: Term, b: Term, c: Term) -> Result<Term, Memory>
    ensures { IfOk result (λ t. t ≡ if_else a b c) }
{
    let name = Symbol::named(alloc, "IF")?;
    let mut args = Seq::new(alloc);
    args.push(a)?;
    args.push(b)?;
    args.push(c)?;
    Term::call(alloc, name, args)
}

/// `(integerp a)`
pub(crate) fn integer(alloc: Global, a: Term) -> Result<Term, Memory>
    ensures { IfOk result (λ t. t ≡ Call1 (codes "INTEGERP") a) }
{
    call1(alloc, "INTEGERP", a)
}

/// `'0`
pub(crate) fn zero(alloc: Global) -> Result<Term, Memory>
    ensures { IfOk result (λ t. t ≡ quoted (pos 0)) }
{
    Term::quote(alloc, Value::Int(0))
}

/// `(< '0 '0)`
pub(crate) fn zero_less(alloc: Global) -> Result<Term, Memory>
    ensures { IfOk result (λ t. t ≡ Call2 (codes "<") (quoted (pos 0)) (quoted (pos 0))) }
{
    call2(alloc, "<", zero(alloc)?, zero(alloc)?)
}

/// A term for the variable x.
pub(crate) fn for_x(alloc: Global, a: Term) -> Result<Subst, Memory>
    ensures { IfOk result (λ s. s ≡ (codes "X", a) ∷ []) }
{
    let mut s = Subst::new(alloc);
    s.push(Symbol::named(alloc, "X")?, a)?;
    Ok(s)
}

/// Terms for the variables x and y.
pub(crate) fn for_x_and_y(alloc: Global, a: Term, b: Term) -> Result<Subst, Memory>
    ensures { IfOk result (λ s. s ≡ (codes "X", a) ∷ (codes "Y", b) ∷ []) }
{
    let mut s = for_x(alloc, a)?;
    s.push(Symbol::named(alloc, "Y")?, b)?;
    Ok(s)
}
