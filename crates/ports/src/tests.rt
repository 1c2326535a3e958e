//! Tests of ports in memory.

use crate::{
    Calls, Failed, FileSink, FileSource, MemorySink, MemorySource, ReadAllError, Sink, Source,
    SureSink, SureSource, put_all, read_all,
};
use lists::Bytes;
use std::alloc::Global;
use std::fs;
use std::test::Fail;

const LETTERS: &[u8; 7] = b"abcdefg";

/// What `read_all` is to answer.
#[derive(Clone, Copy)]
enum Answer {
    Whole(&'static [u8]),
    Cut(&'static [u8]),
    Fault,
}

fn answers(found: &Result<Bytes, ReadAllError>, wanted: &Answer) -> bool {
    match (found, wanted) {
        (Ok(all), Answer::Whole(bytes)) => all.as_slice() == *bytes,
        (Err(ReadAllError::TooLong(front)), Answer::Cut(bytes)) => front.as_slice() == *bytes,
        (Err(ReadAllError::ReadFault), Answer::Fault) => true,
        _ => false,
    }
}

#[test]
fn reads_by_pieces(rt: HostRuntime) -> Result<(), Fail> {
    let cases: [(&[u8], &[u64], usize, usize, Answer); 8] = [
        (LETTERS, &[], 3, 7, Answer::Whole(LETTERS)),
        (LETTERS, &[], 1, 8, Answer::Whole(LETTERS)),
        (LETTERS, &[], 3, 6, Answer::Cut(b"abcdef")),
        (LETTERS, &[4], 3, 7, Answer::Fault),
        (LETTERS, &[5, 9], 3, 7, Answer::Whole(LETTERS)),
        (LETTERS, &[8, 2, 2], 3, 2, Answer::Cut(b"ab")),
        (b"", &[], 1, 0, Answer::Whole(b"")),
        (b"a", &[], 1, 0, Answer::Cut(b"")),
    ];
    for (bytes, failing, most, limit, wanted) in &cases {
        assert!(rt; *most > 0);
        let bytes = Bytes::from_slice(rt.alloc(), bytes)?;
        let failing = Calls::from_slice(rt.alloc(), failing)?;
        let mut source = MemorySource::by_pieces(bytes, failing, *most);
        let found = read_all(rt.alloc(), &mut source, *limit);
        assert!(rt;
            answers(&found, wanted),
            "limit {limit}, pieces of {most}: {found:?}"
        );
    }
    Ok(())
}

#[test]
fn puts_by_pieces(rt: HostRuntime) -> Result<(), Fail> {
    let cases: [(&[u64], usize, usize, Result<(), Failed>, Option<&[u8]>); 6] = [
        (&[], 3, 7, Ok(()), Some(LETTERS)),
        (&[4], 3, 7, Ok(()), Some(LETTERS)),
        (&[3, 1, 3], 3, 7, Err(Failed), Some(b"")),
        (&[3], 3, 7, Err(Failed), Some(b"abcdef")),
        (&[3], 1, 7, Err(Failed), Some(b"ab")),
        (&[], 3, 6, Ok(()), None),
    ];
    for (failing, most, room, wanted, held) in &cases {
        assert!(rt; *most > 0);
        let failing = Calls::from_slice(rt.alloc(), failing)?;
        let mut sink = MemorySink::by_pieces(rt.alloc(), *room, failing, *most)?;
        let found = put_all(&mut sink, LETTERS);
        assert_eq!(rt; found, *wanted, "room for {room}, pieces of {most}");
        assert_eq!(rt; sink.bytes(), *held, "room for {room}, pieces of {most}");
    }
    Ok(())
}

/// Moves the letters from a source to a sink.
fn move_letters<S: Source, K: Sink>(
    alloc: Global,
    source: &mut S,
    sink: &mut K,
) -> Result<(), Fail> {
    let all = read_all(alloc, source, 7)?;
    put_all(sink, all.as_slice())?;
    Ok(())
}

#[test]
fn moves_in_memory(rt: HostRuntime) -> Result<(), Fail> {
    let letters = Bytes::from_slice(rt.alloc(), LETTERS)?;
    let mut source = MemorySource::new(letters, Calls::new(rt.alloc()));
    let mut sink = MemorySink::new(rt.alloc(), 7, Calls::new(rt.alloc()))?;
    move_letters(rt.alloc(), &mut source, &mut sink)?;
    assert_eq!(rt; sink.bytes(), Some(LETTERS.as_slice()));
    Ok(())
}

#[test]
fn moves_surely(rt: HostRuntime) -> Result<(), Fail> {
    let letters = Bytes::from_slice(rt.alloc(), LETTERS)?;
    let mut source = SureSource::by_pieces(letters, 2);
    let mut sink = SureSink::with_room(rt.alloc(), 7)?;
    move_letters(rt.alloc(), &mut source, &mut sink)?;
    assert_eq!(rt; sink.bytes(), Some(LETTERS.as_slice()));
    Ok(())
}

#[test]
fn moves_by_a_file(rt: HostRuntime) -> Result<(), Fail> {
    let name = "ports_test_file";
    fs::write(&rt, name, "something longer, of which nothing stays")?;
    let mut source = SureSource::new(Bytes::from_slice(rt.alloc(), LETTERS)?);
    move_letters(rt.alloc(), &mut source, &mut FileSink::new(&rt, name))?;
    let mut sink = SureSink::with_room(rt.alloc(), 7)?;
    move_letters(rt.alloc(), &mut FileSource::new(&rt, name), &mut sink)?;
    assert_eq!(rt; sink.bytes(), Some(LETTERS.as_slice()));
    fs::remove_file(&rt, name)?;
    Ok(())
}

#[test]
fn missing_files_are_faults(rt: HostRuntime) {
    let mut source = FileSource::new(&rt, "ports_no_such_file");
    assert_eq!(rt; source.pull(&mut [0; 4]), Err(Failed));
    let mut sink = FileSink::new(&rt, "ports_no_such_folder/file");
    assert_eq!(rt; put_all(&mut sink, LETTERS), Err(Failed));
}
