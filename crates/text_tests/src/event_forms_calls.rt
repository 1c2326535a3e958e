//! Tests of the reading of events: a theorem, a function, a book, a function variable and a specification are read, and what is wrong is refused with its code and detail.

ghost use Rattle.std.specs.Prelude.{IfOk};
ghost use Rattle.lisp_data.specs.FormView.{IsProper};

use event_forms::{Event, EventError, read_event};
use lisp_data::{Bytes, Detail, Form, Forms, Memory, Symbol, Text};
use proof_texts::{Word, items, symbol};
use std::alloc::Global;
use std::process::Abort;
use std::test::Fail;

#[tactic(auto, using(lisp_data::proofs::Proper::leaves))]
fn word(alloc: Global, text: &str) -> Result<Form, Fail>
    ensures { IfOk result IsProper }
{
    let symbol = Symbol::new(alloc, text)?;
    Ok(Form::Sym(symbol))
}

#[tactic(auto, using(lisp_data::proofs::Proper::leaves))]
fn string(alloc: Global, bytes: &[u8]) -> Result<Form, Fail>
    ensures { IfOk result IsProper }
{
    let bytes = Bytes::from_slice(alloc, bytes)?;
    Ok(Form::Text(bytes))
}

/// A form before the items of a list.
fn before(alloc: Global, first: Form, rest: Form) -> Result<Form, Fail>
    requires first { IsProper first }
    requires rest { IsProper rest }
    ensures { IfOk result IsProper }
{
    let mut items = Forms::new(alloc);
    items.push(first)?;
    let list = Form::dotted(alloc, items, rest)?;
    Ok(list)
}

/// The list of these words.
fn words(alloc: Global, texts: &[&str]) -> Result<Form, Fail>
    ensures { IfOk result IsProper }
{
    let mut list = word(alloc, "nil")?;
    for text in texts.iter().rev() {
        list = before(alloc, word(alloc, text)?, list)?;
    }
    Ok(list)
}

/// `(defthm n x :rule-classes nil :proof (:refl x))`
fn theorem(alloc: Global) -> Result<Form, Fail>
    ensures { IfOk result IsProper }
{
    let proof = words(alloc, &[":refl", "x"])?;
    let mut form = before(alloc, proof, word(alloc, "nil")?)?;
    for text in [":proof", "nil", ":rule-classes", "x", "n", "defthm"] {
        form = before(alloc, word(alloc, text)?, form)?;
    }
    Ok(form)
}

fn assert_refused(rt: &impl Abort, error: &EventError, code: u8, text: &[u8]) {
    match error {
        EventError::Refused {
            code: given,
            detail,
        } => {
            assert_eq!(rt; given.number(), code);
            match detail {
                Detail::Absent => assert_eq!(rt; text.len(), 0),
                Detail::Name(name) => assert_eq!(rt; name.text().as_bytes(), text),
                Detail::Word(word) => assert_eq!(rt; word.as_slice(), text),
                Detail::Number(_) => assert!(rt; false),
            }
        }
        EventError::Memory => assert!(rt; false),
    }
}

#[test]
fn reads_a_theorem(rt: HostRuntime) -> Result<(), Fail> {
    let form = theorem(rt.alloc())?;
    match read_event(rt.alloc(), &form) {
        Ok(Event::Defthm(theorem)) => {
            assert_eq!(rt; theorem.name.text(), "N");
            assert!(rt; symbol(theorem.formula).is_some());
            let Some(proof) = theorem.proof else {
                return Err(Fail::from("no proof"));
            };
            assert_eq!(rt; items(proof).map(|items| items.len()), Some(2));
            assert!(rt; theorem.how.is_none());
        }
        _ => assert!(rt; false),
    }
    Ok(())
}

#[test]
fn reads_a_function_and_a_book(rt: HostRuntime) -> Result<(), Fail> {
    let alloc = rt.alloc();
    let ignored = words(alloc, &["ignore", "y"])?;
    let declare = before(
        alloc,
        word(alloc, "declare")?,
        before(alloc, ignored, word(alloc, "nil")?)?,
    )?;
    let parts = before(alloc, declare, words(alloc, &["x"])?)?;
    let parts = before(alloc, string(alloc, b"text")?, parts)?;
    let parts = before(alloc, words(alloc, &["x", "y"])?, parts)?;
    let form = before(
        alloc,
        word(alloc, "defun")?,
        before(alloc, word(alloc, "f")?, parts)?,
    )?;
    match read_event(alloc, &form) {
        Ok(Event::Defun(function)) => {
            assert_eq!(rt; function.name.text(), "F");
            assert_eq!(rt; function.formals.len(), 2);
            assert!(rt; symbol(function.body).is_some());
            assert!(rt; function.measure.is_none());
            assert_eq!(rt; function.proofs.len(), 0);
            assert_eq!(rt; function.hows.len(), 0);
        }
        _ => assert!(rt; false),
    }
    let form = before(
        alloc,
        string(alloc, b"kestrel/soft/top")?,
        words(alloc, &[":dir", ":system"])?,
    )?;
    let form = before(alloc, word(alloc, "include-book")?, form)?;
    match read_event(alloc, &form) {
        Ok(Event::IncludeBook(book)) => assert_eq!(rt; book, b"kestrel/soft/top".as_slice()),
        _ => assert!(rt; false),
    }
    Ok(())
}

#[test]
fn reads_a_function_variable_and_a_specification(rt: HostRuntime) -> Result<(), Fail> {
    let alloc = rt.alloc();
    let stars = words(alloc, &["*", "*"])?;
    let form = before(alloc, stars, words(alloc, &["=>", "*"])?)?;
    let form = before(alloc, word(alloc, "?f")?, form)?;
    match read_event(alloc, &before(alloc, word(alloc, "defunvar")?, form)?) {
        Ok(Event::Defunvar(variable)) => {
            assert_eq!(rt; variable.name.text(), "?F");
            assert_eq!(rt; variable.arity, 2);
        }
        _ => assert!(rt; false),
    }
    let quantifier = words(alloc, &["forall", "x", "y"])?;
    let form = before(alloc, quantifier, word(alloc, "nil")?)?;
    let form = before(alloc, word(alloc, "nil")?, form)?;
    let form = before(alloc, word(alloc, "s")?, form)?;
    match read_event(alloc, &before(alloc, word(alloc, "defun-sk2")?, form)?) {
        Ok(Event::DefunSk2(specification)) => {
            assert_eq!(rt; specification.name.text(), "S");
            assert_eq!(rt; specification.variables.len(), 1);
            assert!(rt; symbol(specification.matrix).is_some());
        }
        _ => assert!(rt; false),
    }
    Ok(())
}

#[test]
fn refuses_with_a_code_and_a_detail(rt: HostRuntime) -> Result<(), Fail> {
    let alloc = rt.alloc();
    for (texts, code, detail) in [
        (
            ["defthm", "n", "x", ":hints", "nil"],
            13,
            b":HINTS".as_slice(),
        ),
        (
            ["defthm", "n", "x", ":hints", ":how"],
            13,
            b":HINTS".as_slice(),
        ),
        (["defthm", "n", "x", ":how", "x"], 12, b":HOW".as_slice()),
        (
            ["defthm", "n", "x", ":assuming", "x"],
            12,
            b":ASSUMING".as_slice(),
        ),
        (["defun", "n", "x", "x", "x"], 12, b"formals".as_slice()),
        (
            ["in-package", "a", "b", "c", "d"],
            12,
            b"arguments".as_slice(),
        ),
    ] {
        match read_event(alloc, &words(alloc, &texts)?) {
            Ok(_) => assert!(rt; false),
            Err(error) => assert_refused(&rt, &error, code, detail),
        }
    }
    Ok(())
}
