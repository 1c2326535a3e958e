//! Tests of conditions that are proved, that end stuck, and that need too many steps.

ghost use Rattle.std.specs.Prelude.{◌≡◌, IfOk};
ghost use Rattle.lisp_data.specs.FormView.{IsProper};
ghost use Rattle.terms.specs.Worlds.{FitsSequent};

use hint_prover::{ProveError, prove};
use hints::{Facts, Hints};
use kernel::{Proved, fits, fits_decides};
use lisp_data::{Memory, Seq};
use lisp_reader::{FormReader, Located};
use proof_texts::items;
use reduction_proofs::hints_fit;
use std::alloc::Global;
use std::test::Fail;
use term_forms::{Scope, translate};
use terms::Sequent;
use worlds::World;

fn read(alloc: Global, text: &str) -> Result<Located, Fail>
    ensures { IfOk result (λ located. IsProper located.form) }
{
    let mut reader = FormReader::new(text.as_bytes(), false);
    match reader.next(alloc) {
        Ok(Some(located)) => Ok(located),
        _ => Err(Fail::from("no form")),
    }
}

/// A condition without hypotheses.
fn condition(alloc: Global, world: &World, goal: &str) -> Result<Sequent, Fail>
    ensures { IfOk result (λ c. FitsSequent world.now.functions c) }
{
    let Ok(goal) = translate(alloc, &read(alloc, goal)?.form, world, &Scope::Any) else {
        return Err(Fail::from("no term"));
    };
    fits_decides();
    if !fits(world, &goal) {
        return Err(Fail::from("not well formed"));
    }
    Ok(Sequent {
        universals: Seq::new(alloc),
        hyps: Seq::new(alloc),
        goal,
    })
}

/// What the prover answers; of a stuck leaf, how many hypotheses it has.
#[derive(Clone, Copy, Debug, PartialEq, Eq)]
enum Ending {
    Proved,
    Stuck(usize),
    TooLong,
}

fn ending_of(alloc: Global, goal: &str, hints: &str) -> Result<Ending, Fail> {
    let world = World::initial(alloc)?;
    let condition = condition(alloc, &world, goal)?;
    let facts = Facts {
        world: &world,
        universals: &condition.universals,
    };
    let located = read(alloc, hints)?;
    let Some(steps) = items(&located.form) else {
        return Err(Fail::from("no list"));
    };
    let Ok(hints) = Hints::of_steps(alloc, &facts, steps) else {
        return Err(Fail::from("no hints"));
    };
    world.soundness();
    hints_fit();
    match prove(alloc, &world, &condition, &hints) {
        Ok(_) => Ok(Ending::Proved),
        Err(ProveError::NotProved(reduction)) => Ok(Ending::Stuck(reduction.stuck().hyps.len())),
        Err(ProveError::StepLimit) => Ok(Ending::TooLong),
        Err(ProveError::Memory) => Err(Fail::from("out of memory")),
    }
}

#[test]
fn proves_conditions(rt: HostRuntime) -> Result<(), Fail> {
    let induct =
        "((:induct (binary-append x y)) (:expand (append x y) (append x (append y z)) (append (cons (car x) (append (cdr x) y)) z)))";
    let tried = [
        ("(implies (consp x) (equal (cons (car x) (cdr x)) x))", "()"),
        ("(equal (equal 1 2) nil)", "()"),
        ("(equal (+ x (* 2 y)) (+ y (+ x y)))", "()"),
        (
            "(implies (equal x (car y)) (equal (cons x z) (cons (car y) z)))",
            "()",
        ),
        ("(implies (not (not p)) p)", "()"),
        (
            "(implies (consp x) (< (acl2-count (cdr x)) (acl2-count x)))",
            "((:use acl2-count-cdr ()))",
        ),
        (
            "(equal (append (append x y) z) (append x (append y z)))",
            induct,
        ),
        ("(equal a a)", "((:cases b c d))"),
    ];
    for (goal, hints) in tried {
        assert_eq!(rt;
            ending_of(rt.alloc(), goal, hints)?,
            Ending::Proved,
            "{goal}"
        );
    }
    Ok(())
}

#[test]
fn shows_a_stuck_leaf_or_the_limit(rt: HostRuntime) -> Result<(), Fail> {
    let alloc = rt.alloc();
    assert_eq!(rt; ending_of(alloc, "(equal x 0)", "()")?, Ending::Stuck(0));
    let branches = "(if a (implies b (equal x 1)) (equal x 2))";
    assert_eq!(rt; ending_of(alloc, branches, "()")?, Ending::Stuck(2));
    let cases = "((:cases a b c d e f g h i j k l m))";
    assert_eq!(rt; ending_of(alloc, "(equal a a)", cases)?, Ending::TooLong);
    Ok(())
}
