//! Tests of what translates and prints terms.

use lisp_data::{Memory, Symbol, Text, Value};
use lisp_reader::FormReader;
use std::alloc::Global;
use std::test::Fail;
use term_forms::{Scope, TermError, print_term, translate};
use terms::{Signatures, Term, Terms};

fn variable(alloc: Global, name: &str) -> Result<Term, Fail> {
    let name = Symbol::new(alloc, name)?;
    let variable = Term::var(alloc, name)?;
    Ok(variable)
}

fn pair(alloc: Global, a: Term, b: Term) -> Result<Term, Fail> {
    let name = Symbol::new(alloc, "CONS")?;
    let mut args = Terms::new(alloc);
    args.push(a)?;
    args.push(b)?;
    let pair = Term::call(alloc, name, args)?;
    Ok(pair)
}

#[test]
fn prints_terms(rt: HostRuntime) -> Result<(), Fail> {
    let alloc = rt.alloc();
    let value = Value::pair(alloc, Value::Int(-1), Value::Int(2))?;
    let constant = Term::call(alloc, Symbol::new(alloc, "F")?, Terms::new(alloc))?;
    let term = pair(
        alloc,
        Term::quote(alloc, value)?,
        pair(alloc, variable(alloc, "x")?, constant)?,
    )?;
    let mut out = Text::from_slice(alloc, b"> ")?;
    print_term(&term, &mut out)?;
    assert_eq!(rt;
        out.as_slice(),
        b"> (CONS '(-1 . 2) (CONS X (F)))".as_slice()
    );
    Ok(())
}

/// Each function takes two arguments.
struct TwoArguments;

impl Signatures for TwoArguments {
    ghost use Rattle.std.specs.Prelude.{Some};

    ghost arity_of = { λ _ _. Some 2 };

    fn arity(&self, _name: &Symbol) -> Option<usize> {
        Some(2)
    }
}

/// The text of the term of the first form of these bytes, or the word of its refusal.
fn translated(alloc: Global, bytes: &[u8]) -> Result<Text, Fail> {
    let mut out = Text::new(alloc);
    let mut reader = FormReader::new(bytes, false);
    if let Some(located) = reader.next(alloc)? {
        let answer = translate(alloc, &located.form, &TwoArguments, &Scope::Any);
        match &answer {
            Ok(term) => print_term(term, &mut out)?,
            Err(TermError::Refused { code, detail: _ }) => out.extend(code.word().as_bytes())?,
            Err(TermError::Memory) => {}
        }
    }
    Ok(out)
}

#[test]
fn translates_forms(rt: HostRuntime) -> Result<(), Fail> {
    let alloc = rt.alloc();
    for (form, term) in [
        ("(let ((x y) (y x)) (list x y))", "(CONS Y (CONS X 'NIL))"),
        ("(let* ((x y) (y x)) (cons x y))", "(CONS Y Y)"),
        (
            "(and a (or b :k) t)",
            "(IF A (IF (IF B B ':K) 'T 'NIL) 'NIL)",
        ),
        (
            "(cond ((f a b) '(1 . c)) (t b) (a b))",
            "(IF (F A B) '(1 . C) B)",
        ),
        (
            "(- (+ a b 1) 3)",
            "(BINARY-+ '-3 (BINARY-+ A (BINARY-+ B '1)))",
        ),
        (
            "(<= (cadr a) (1- b))",
            "(NOT (< (BINARY-+ '-1 B) (CAR (CDR A))))",
        ),
        ("(f (quote \"s\"))", "WrongArity"),
        ("(f (quote \"s\") a)", "BadForm"),
        ("(let ((a 1) (a 2)) b)", "RepeatedFormal"),
    ] {
        let answer = translated(alloc, form.as_bytes())?;
        assert_eq!(rt; answer.as_slice(), term.as_bytes(), "{form}");
    }
    Ok(())
}
