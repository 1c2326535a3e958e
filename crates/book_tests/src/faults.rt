//! A fault at each read of a book, and at each write of its report.

use book_cli::{Status, Words, run};
use lists::{Bytes, Text};
use ports::{Calls, MemorySink, MemorySource, SureSink, SureSource};
use std::test::Fail;

/// A function, and a theorem with its proof.
const BOOK: &[u8] = b"(defun dup (x) (cons x x))
(defthm car-dup (equal (car (dup x)) (car (cons x x))) :proof (:replace (:unfold (dup x)) (:refl (car (dup x))) (2 1)))
";

/// What is reported of it.
const REPORT: &[u8] = b"ok defun DUP
ok defthm CAR-DUP
accepted 2 events 1 theorems
";

/// The most bytes that a report here has.
const ROOM: usize = 1_000;

/// How many pulls read the book: 20 bytes each, and one that finds the end.
const PULLS: u64 = 9;

/// How many puts write its report, of one byte each.
const PUTS: u64 = 60;

/// How `check` ends over the book, and what it writes, where the pulls and the puts of these numbers, counted from 1, fail. A pull gives at most 20 bytes and a put takes one.
fn faulty_outcome(
    rt: &HostRuntime,
    pulls: &[u64],
    puts: &[u64],
) -> Result<(Status, Vec<u8>), Fail> {
    let mut words = Words::new(rt.alloc());
    words.push(Text::from_slice(rt.alloc(), b"check")?)?;
    let bytes = Bytes::from_slice(rt.alloc(), BOOK)?;
    let pulls = Calls::from_slice(rt.alloc(), pulls)?;
    let puts = Calls::from_slice(rt.alloc(), puts)?;
    let mut source = MemorySource::by_pieces(bytes, pulls, 20);
    let mut sink = MemorySink::by_pieces(rt.alloc(), ROOM, puts, 1)?;
    let mut old_log = SureSource::new(Bytes::new(rt.alloc()));
    let mut new_log = SureSink::with_room(rt.alloc(), 0)?;
    let status = run(
        rt.alloc(),
        &words,
        &mut source,
        &mut old_log,
        &mut sink,
        &mut new_log,
    );
    let held = sink.bytes().ok_or("no room")?.to_vec(rt.alloc())?;
    Ok((status, held))
}

#[test]
fn read_faults(rt: HostRuntime) -> Result<(), Fail> {
    for pull in 1..PULLS + 1 {
        let (status, held) = faulty_outcome(&rt, &[pull], &[])?;
        assert_eq!(rt; status, Status::ReadFault, "pull {pull}");
        assert_eq!(rt; held.len(), 0, "pull {pull}");
    }
    let (status, held) = faulty_outcome(&rt, &[PULLS + 1], &[])?;
    assert_eq!(rt; status, Status::Accepted);
    assert_eq!(rt; held.as_slice(), REPORT);
    Ok(())
}

#[test]
fn write_faults(rt: HostRuntime) -> Result<(), Fail> {
    for written in 0..PUTS {
        let (status, held) = faulty_outcome(&rt, &[], &[written + 1])?;
        let front = REPORT.get(..written as usize).unwrap_or(&[]);
        assert_eq!(rt; status, Status::WriteFault, "put {written}");
        assert_eq!(rt; held.as_slice(), front, "put {written}");
    }
    let (status, held) = faulty_outcome(&rt, &[], &[PUTS + 1])?;
    assert_eq!(rt; status, Status::Accepted);
    assert_eq!(rt; held.as_slice(), REPORT);
    Ok(())
}
