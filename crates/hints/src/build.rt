//! Terms of names that are known to be symbols.
#![tactic(auto, unfolding(lisp_data::specs::SymbolText::is_symbol_text, lisp_data::specs::Atoms::leaf, lisp_data::specs::Atoms::in_atom, lisp_data::specs::Atoms::is_delimiter, lisp_data::specs::Atoms::is_sign))]

ghost use Rattle.std.specs.Prelude.{◌≡◌, IfOk};
ghost use Rattle.terms.specs.BuiltIn as spec;
ghost use Rattle.hints.specs.Start.{implication};

use lisp_data::{Memory, Seq, Symbol, Value};
use std::alloc::Global;
use terms::Term;
use worlds::{Connective, World};

/// `'t`
pub(crate) fn yes(alloc: Global) -> Result<Term, Memory>
    ensures { IfOk result (λ t. t ≡ spec.yes) }
{
    let value = Symbol::named(alloc, "T")?;
    Term::quote(alloc, Value::Sym(value))
}

/// `'nil`
pub(crate) fn no(alloc: Global) -> Result<Term, Memory>
    ensures { IfOk result (λ t. t ≡ spec.no) }
{
    let value = Symbol::named(alloc, "NIL")?;
    Term::quote(alloc, Value::Sym(value))
}

/// `(implies a b)`
pub(crate) fn implication(alloc: Global, world: &World, a: Term, b: Term) -> Result<Term, Memory>
    ensures { IfOk result (λ t. t ≡ implication a b) }
{
    let name = world.connective(Connective::Implies)?;
    let mut args = Seq::new(alloc);
    args.push(a)?;
    args.push(b)?;
    Term::call(alloc, name, args)
}

/// `(if a b c)`
pub(crate) fn conditional(
    alloc: Global,
    world: &World,
    a: Term,
    b: Term,
    c: Term,
) -> Result<Term, Memory>
    ensures { IfOk result (λ t. t ≡ spec.if_else a b c) }
{
    let name = world.connective(Connective::If)?;
    let mut args = Seq::new(alloc);
    args.push(a)?;
    args.push(b)?;
    args.push(c)?;
    Term::call(alloc, name, args)
}
