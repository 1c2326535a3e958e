//! Checks a book of definitions and theorems, and writes a report of it (docs/EVENTS.md).
#![tactic(auto)]

use book_cli::{Status, Words, print_usage, run};
use lists::{Memory, Text};
use ports::{FileSink, FileSource, StdinSource, StdoutSink};
use std::env;
use std::process::ExitCode;

/// The words of the command, without the program's name.
fn command_words(rt: &HostRuntime) -> Result<Words, Memory> {
    let mut words = Words::new(rt.alloc());
    let Ok(all) = env::args(rt) else {
        return Err(Memory);
    };
    for word in all.skip(1) {
        words.push(Text::from_slice(rt.alloc(), word.as_bytes())?)?;
    }
    Ok(words)
}

/// The file of the log in the working directory. The mode `check` neither reads nor writes it.
const LOG: &str = "derive.log";

/// The run on the standard input and output.
fn checked(rt: &HostRuntime) -> Result<Status, Memory> {
    let words = command_words(rt)?;
    let mut book = StdinSource::new(rt);
    let mut out = StdoutSink::new(rt);
    let mut old_log = FileSource::new(rt, LOG);
    let mut new_log = FileSink::new(rt, LOG);
    Ok(run(
        rt.alloc(),
        &words,
        &mut book,
        &mut old_log,
        &mut out,
        &mut new_log,
    ))
}

fn main(rt: HostRuntime) -> ExitCode {
    let status = match checked(&rt) {
        Ok(status) => status,
        Err(Memory) => Status::Memory,
    };
    if status == Status::Usage {
        let _ = print_usage(&rt);
    }
    ExitCode::from(status.code())
}
