//! Tests of hints that are read or refused, and of reductions by them.

ghost use Rattle.std.specs.Prelude.{IfOk};
ghost use Rattle.lisp_data.specs.FormView.{IsProper};

use hints::{Facts, HintError, Hints, reduce_by};
use lisp_data::{Code, Memory, Seq};
use lisp_reader::{FormReader, Located};
use reduction::{Outcome, Subgoal};
use std::alloc::Global;
use std::test::Fail;
use term_forms::{Scope, translate};
use worlds::World;

fn read(alloc: Global, text: &str) -> Result<Located, Fail>
    ensures { IfOk result (λ located. IsProper located.form) }
{
    let mut reader = FormReader::new(text.as_bytes(), false);
    match reader.next(alloc) {
        Ok(Some(located)) => Ok(located),
        _ => Err(Fail::from("no form")),
    }
}

/// How the reduction of a goal ends, or the code of the refusal of its hints.
#[derive(Clone, Copy)]
enum Ending {
    Closed(usize),
    Stuck,
    TooLong,
    Refused(Code),
}

fn ending_of(alloc: Global, goal: &str, hints: &str) -> Result<Ending, Fail> {
    let world = World::initial(alloc)?;
    let universals = Seq::new(alloc);
    let facts = Facts {
        world: &world,
        universals: &universals,
    };
    let Ok(goal) = translate(alloc, &read(alloc, goal)?.form, &world, &Scope::Any) else {
        return Err(Fail::from("no term"));
    };
    let hints = match Hints::read(alloc, &facts, &read(alloc, hints)?.form) {
        Ok(hints) => hints,
        Err(HintError::Refused { code, detail: _ }) => return Ok(Ending::Refused(code)),
        Err(HintError::Memory) => return Err(Fail::from("out of memory")),
    };
    let subgoal = Subgoal {
        hyps: Seq::new(alloc),
        goal,
    };
    match reduce_by(alloc, &world, &hints, 10_000, subgoal)? {
        Outcome::Closed(made) => Ok(Ending::Closed(made.len())),
        Outcome::Stuck(_) => Ok(Ending::Stuck),
        Outcome::TooLong => Ok(Ending::TooLong),
    }
}

fn closes(alloc: Global, goal: &str, hints: &str) -> Result<bool, Fail> {
    match ending_of(alloc, goal, hints)? {
        Ending::Closed(_) => Ok(true),
        _ => Ok(false),
    }
}

#[test]
fn proves_by_hints(rt: HostRuntime) -> Result<(), Fail> {
    let alloc = rt.alloc();
    let pair = "(implies (consp x) (equal (cons (car x) (cdr x)) x))";
    assert!(rt; closes(alloc, pair, "()")?);
    assert!(rt; closes(alloc, "(equal (equal 1 2) nil)", "()")?);
    let assoc = "(equal (append (append x y) z) (append x (append y z)))";
    assert!(rt; !closes(alloc, assoc, "()")?);
    let induct =
        "((:induct (binary-append x y)) (:expand (append x y) (append x (append y z)) (append (cons (car x) (append (cdr x) y)) z)))";
    assert!(rt; closes(alloc, assoc, induct)?);
    let less = "(implies (consp x) (< (acl2-count (cdr x)) (acl2-count x)))";
    assert!(rt; closes(alloc, less, "((:use acl2-count-cdr ()))")?);
    Ok(())
}

#[test]
fn refuses_hints(rt: HostRuntime) -> Result<(), Fail> {
    let refused = [
        ("((:induct (append x y)))", Code::UnknownName),
        ("((:induct (if x y z)))", Code::NotAFunction),
        ("((:induct (len x y)))", Code::WrongArity),
        ("((:induct (binary-append x x)))", Code::BadForm),
        ("((:induct (len x)) (:induct (len x)))", Code::BadForm),
        ("((:unfold len))", Code::BadForm),
        ("((:unfold not car))", Code::NotAFunction),
        ("((:rewrite len))", Code::UnknownName),
        ("((:use 36 ()))", Code::BadForm),
        ("((:use 8 ((x a) (x b))))", Code::BadForm),
        ("((:use 8 ((x (f a)))))", Code::UnknownName),
        ("((:use (acl2-count-car . x) ()))", Code::BadForm),
        ("((:use (acl2-count-car x) ()))", Code::BadForm),
        ("((:use (8) ()))", Code::BadForm),
        ("((:use (car) ()))", Code::UnknownName),
        ("((:use (acl2-count-car (f . car)) ()))", Code::UnknownName),
        (
            "((:use (acl2-count-car (car . cdr)) ()))",
            Code::NotAFunction,
        ),
        ("((:expand x))", Code::BadForm),
        ("((:what x))", Code::BadForm),
    ];
    for (hints, expected) in refused {
        match ending_of(rt.alloc(), "x", hints)? {
            Ending::Refused(code) => assert!(rt; code == expected, "{hints}"),
            _ => return Err(Fail::from("taken")),
        }
    }
    let taken = [
        "((:unfold not atom) (:cases x (car x)))",
        "((:rewrite equal-same acl2-count-car))",
        "((:use 8 ((x (cons y z)) (y 3))))",
        "((:use (acl2-count-car) ((x y))))",
        "((:expand (not (car x)) (len x)))",
        "nil",
    ];
    for hints in taken {
        let ending = ending_of(rt.alloc(), "x", hints)?;
        assert!(rt; !matches!(ending, Ending::Refused(_)), "{hints}");
    }
    Ok(())
}
