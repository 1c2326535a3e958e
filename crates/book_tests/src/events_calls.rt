//! A theorem with its proof, one whose reduction is stuck, and a value.

use events::{Lines, StepAnswer, step};
use lisp_reader::FormReader;
use std::alloc::Global;
use std::process::Abort;
use std::test::Fail;
use worlds::World;

/// The answer to the first event of a book, in a world.
fn first_in(alloc: Global, world: &World, book: &str) -> Result<StepAnswer, Fail> {
    let mut reader = FormReader::new(book.as_bytes(), false);
    match reader.next(alloc) {
        Ok(Some(located)) => Ok(step(alloc, world, &located, 1, false)?),
        _ => Err(Fail::from("no form")),
    }
}

fn assert_line(rt: &impl Abort, lines: &Lines, text: &str) {
    match lines.as_slice() {
        [line] => assert_eq!(rt; line.as_slice(), text.as_bytes()),
        _ => assert!(rt; false),
    }
}

#[test]
fn has_the_proof_of_a_theorem(rt: HostRuntime) -> Result<(), Fail> {
    let alloc = rt.alloc();
    let world = World::initial(alloc)?;
    match first_in(alloc, &world, "(defthm same (equal x x) :proof (:refl x))")? {
        StepAnswer::Accepted(world, lines, proofs) => {
            assert_eq!(rt; world.theorems(), 1);
            assert_eq!(rt; lines.len(), 1);
            assert_eq!(rt; proofs.before.len(), 1);
            assert_eq!(rt; proofs.after.len(), 0);
            Ok(())
        }
        _ => Err(Fail::from("not accepted")),
    }
}

/// The lines of the refusal of the first event of a book.
fn refused_lines(alloc: Global, world: &World, book: &str) -> Result<Lines, Fail> {
    match first_in(alloc, world, book)? {
        StepAnswer::Refused(_number, lines) => Ok(lines),
        _ => Err(Fail::from("not refused")),
    }
}

#[test]
fn tells_where_a_reduction_is_stuck(rt: HostRuntime) -> Result<(), Fail> {
    let alloc = rt.alloc();
    let world = World::initial(alloc)?;
    let lines = refused_lines(alloc, &world, "(defthm no (implies x y) :how ())")?;
    match lines.as_slice() {
        [first, hypothesis, goal] => {
            assert_eq!(rt;
                first.as_slice(),
                b"refused 1 30 NotProved :GOAL at 0\n".as_slice()
            );
            assert_eq!(rt; hypothesis.as_slice(), b"hypothesis X\n".as_slice());
            assert_eq!(rt; goal.as_slice(), b"goal Y\n".as_slice());
            Ok(())
        }
        _ => Err(Fail::from("other lines")),
    }
}

/// The lines of the value of the first event of a book.
fn printed_lines(alloc: Global, world: &World, book: &str) -> Result<Lines, Fail> {
    match first_in(alloc, world, book)? {
        StepAnswer::Printed(lines) => Ok(lines),
        _ => Err(Fail::from("not printed")),
    }
}

#[test]
fn prints_a_value(rt: HostRuntime) -> Result<(), Fail> {
    let alloc = rt.alloc();
    let world = World::initial(alloc)?;
    let lines = printed_lines(alloc, &world, "(value-triple (cons 'a 'b))")?;
    assert_line(&rt, &lines, "value (A . B)\n");
    Ok(())
}
