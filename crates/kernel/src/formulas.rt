//! Terms over the variables x, y and z, and the functions that the axioms speak of.
#![tactic(auto, unfolding(lisp_data::specs::SymbolText::is_symbol_text, lisp_data::specs::Atoms::leaf, lisp_data::specs::Atoms::in_atom, lisp_data::specs::Atoms::is_delimiter, lisp_data::specs::Atoms::is_sign))]

ghost use Rattle.std.specs.Prelude.{◌≡◌, true, IfOk};
ghost use Rattle.lisp_data.specs.SymbolText.{is_symbol_text};
ghost use Rattle.terms.specs.BuiltIn.{x, y, yes, no, quoted};
ghost use Rattle.terms.specs.Measures.{call1 as Call1, call2 as Call2};
ghost use Rattle.terms.specs.Terms.{Var};
ghost use Rattle.kernel.specs.Axioms as spec;
ghost use Rattle.kernel.specs.Sequents.{equation as Equation, negation as Negation, implication as Implication, conditional as Conditional};

use crate::connectives::{comparison, conditional, equation, implication, natural, negation};
use lisp_data::{Memory, Seq, Symbol, Value};
use std::alloc::Global;
use terms::Term;
use worlds::World;

/// Makes the terms of the axioms, each method the term that it is called after.
#[derive(Drop)]
pub(crate) struct Formulas<'a> {
    alloc: Global,
    world: &'a World,
}

impl<'a> Formulas<'a> {
    pub(crate) fn new(alloc: Global, world: &'a World) -> Formulas<'a> {
        Formulas { alloc, world }
    }

    fn var(&self, name: &str) -> Result<Term, Memory>
        requires { is_symbol_text name.now ≡ true }
        ensures { IfOk result (λ t. t ≡ Var name.now) }
    {
        let name = Symbol::named(self.alloc, name)?;
        Term::var(self.alloc, name)
    }

    fn call1(&self, name: &str, a: Term) -> Result<Term, Memory>
        requires { is_symbol_text name.now ≡ true }
        ensures { IfOk result (λ t. t ≡ Call1 name.now a) }
    {
        let name = Symbol::named(self.alloc, name)?;
        let mut args = Seq::new(self.alloc);
        args.push(a)?;
        Term::call(self.alloc, name, args)
    }

    fn call2(&self, name: &str, a: Term, b: Term) -> Result<Term, Memory>
        requires { is_symbol_text name.now ≡ true }
        ensures { IfOk result (λ t. t ≡ Call2 name.now a b) }
    {
        let name = Symbol::named(self.alloc, name)?;
        let mut args = Seq::new(self.alloc);
        args.push(a)?;
        args.push(b)?;
        Term::call(self.alloc, name, args)
    }

    pub(crate) fn x(&self) -> Result<Term, Memory>
        ensures { IfOk result (λ t. t ≡ x) }
    {
        self.var("X")
    }

    pub(crate) fn y(&self) -> Result<Term, Memory>
        ensures { IfOk result (λ t. t ≡ y) }
    {
        self.var("Y")
    }

    pub(crate) fn z(&self) -> Result<Term, Memory>
        ensures { IfOk result (λ t. t ≡ spec.z) }
    {
        self.var("Z")
    }

    /// `'t`
    pub(crate) fn yes(&self) -> Result<Term, Memory>
        ensures { IfOk result (λ t. t ≡ yes) }
    {
        let name = Symbol::named(self.alloc, "T")?;
        Term::quote(self.alloc, Value::Sym(name))
    }

    /// `'nil`
    pub(crate) fn no(&self) -> Result<Term, Memory>
        ensures { IfOk result (λ t. t ≡ no) }
    {
        let name = Symbol::named(self.alloc, "NIL")?;
        Term::quote(self.alloc, Value::Sym(name))
    }

    pub(crate) fn number(&self, value: i128) -> Result<Term, Memory>
        ensures { IfOk result (λ t. t ≡ quoted value) }
    {
        Term::quote(self.alloc, Value::Int(value))
    }

    pub(crate) fn equal(&self, a: Term, b: Term) -> Result<Term, Memory>
        ensures { IfOk result (λ t. t ≡ Equation a b) }
    {
        equation(self.alloc, self.world, a, b)
    }

    pub(crate) fn implies(&self, a: Term, b: Term) -> Result<Term, Memory>
        ensures { IfOk result (λ t. t ≡ Implication a b) }
    {
        implication(self.alloc, self.world, a, b)
    }

    pub(crate) fn not(&self, a: Term) -> Result<Term, Memory>
        ensures { IfOk result (λ t. t ≡ Negation a) }
    {
        negation(self.alloc, self.world, a)
    }

    pub(crate) fn if_else(&self, a: Term, b: Term, c: Term) -> Result<Term, Memory>
        ensures { IfOk result (λ t. t ≡ Conditional a b c) }
    {
        conditional(self.alloc, self.world, a, b, c)
    }

    /// What the predicate says is T where it is true.
    pub(crate) fn gives_t(&self, a: Term) -> Result<Term, Memory>
        ensures { IfOk result (λ t. t ≡ spec.gives_t a) }
    {
        let is_t = self.equal(a.share()?, self.yes()?)?;
        self.implies(a, is_t)
    }

    pub(crate) fn cons(&self, a: Term, b: Term) -> Result<Term, Memory>
        ensures { IfOk result (λ t. t ≡ spec.cons a b) }
    {
        self.call2("CONS", a, b)
    }

    pub(crate) fn car(&self, a: Term) -> Result<Term, Memory>
        ensures { IfOk result (λ t. t ≡ spec.car a) }
    {
        self.call1("CAR", a)
    }

    pub(crate) fn cdr(&self, a: Term) -> Result<Term, Memory>
        ensures { IfOk result (λ t. t ≡ spec.cdr a) }
    {
        self.call1("CDR", a)
    }

    pub(crate) fn consp(&self, a: Term) -> Result<Term, Memory>
        ensures { IfOk result (λ t. t ≡ spec.consp a) }
    {
        self.call1("CONSP", a)
    }

    pub(crate) fn integerp(&self, a: Term) -> Result<Term, Memory>
        ensures { IfOk result (λ t. t ≡ spec.integerp a) }
    {
        self.call1("INTEGERP", a)
    }

    pub(crate) fn symbolp(&self, a: Term) -> Result<Term, Memory>
        ensures { IfOk result (λ t. t ≡ spec.symbolp a) }
    {
        self.call1("SYMBOLP", a)
    }

    pub(crate) fn natp(&self, a: Term) -> Result<Term, Memory>
        ensures { IfOk result (λ t. t ≡ spec.natp a) }
    {
        natural(self.alloc, self.world, a)
    }

    pub(crate) fn less(&self, a: Term, b: Term) -> Result<Term, Memory>
        ensures { IfOk result (λ t. t ≡ spec.less a b) }
    {
        comparison(self.alloc, self.world, a, b)
    }

    pub(crate) fn plus(&self, a: Term, b: Term) -> Result<Term, Memory>
        ensures { IfOk result (λ t. t ≡ spec.plus a b) }
    {
        self.call2("BINARY-+", a, b)
    }

    pub(crate) fn times(&self, a: Term, b: Term) -> Result<Term, Memory>
        ensures { IfOk result (λ t. t ≡ spec.times a b) }
    {
        self.call2("BINARY-*", a, b)
    }

    pub(crate) fn minus(&self, a: Term) -> Result<Term, Memory>
        ensures { IfOk result (λ t. t ≡ spec.minus a) }
    {
        self.call1("UNARY--", a)
    }

    pub(crate) fn count(&self, a: Term) -> Result<Term, Memory>
        ensures { IfOk result (λ t. t ≡ spec.count a) }
    {
        self.call1("ACL2-COUNT", a)
    }
}
