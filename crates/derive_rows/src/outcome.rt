//! The command, run over ports in memory.

use book_cli::{Words, run};
use lists::{Bytes, Memory};
use ports::{SureSink, SureSource};
use std::alloc::Global;

/// How a run ended, and what it wrote: None where that was more than there was room for.
#[derive(Drop)]
pub struct Outcome {
    pub status: u8,
    pub report: Option<Vec<u8>>,
}

/// Runs these words over this book, with room for so many bytes of a report.
pub fn run_in_memory(
    alloc: Global,
    words: &Words,
    book: &[u8],
    room: usize,
) -> Result<Outcome, Memory> {
    let mut source = SureSource::new(Bytes::from_slice(alloc, book)?);
    let mut sink = SureSink::with_room(alloc, room)?;
    let mut old_log = SureSource::new(Bytes::new(alloc));
    let mut new_log = SureSink::with_room(alloc, 0)?;
    let status = run(
        alloc,
        words,
        &mut source,
        &mut old_log,
        &mut sink,
        &mut new_log,
    );
    let report = match sink.bytes() {
        Some(bytes) => Some(bytes.to_vec(alloc)?),
        None => None,
    };
    Ok(Outcome {
        status: status.code(),
        report,
    })
}
