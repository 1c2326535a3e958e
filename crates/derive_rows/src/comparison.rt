//! What a row gives, against what it should give.

use crate::braces::expand;
use crate::outcome::run_in_memory;
use crate::rows::Row;
use anyhow::{Context, Result, anyhow, bail};
use book_cli::Words;
use lists::{Memory, Text};
use std::alloc::Global;

/// Room for a report beyond what is expected of it.
const ROOM: usize = 65_536;

/// What a row should give.
#[derive(Drop)]
struct Expected {
    status: u8,
    report: Vec<u8>,
}

fn no_memory(_memory: Memory) -> anyhow::Error {
    anyhow!("no memory")
}

/// The words of a command: as many as blanks part, and none where the text is empty.
fn command(alloc: Global, text: &str) -> Result<Words> {
    let mut words = Words::new(alloc);
    if text.is_empty() {
        return Ok(words);
    }
    for word in text.split(' ') {
        let bytes = expand(alloc, word)?;
        let word = Text::from_slice(alloc, bytes.as_slice()).map_err(no_memory)?;
        words.push(word).map_err(no_memory)?;
    }
    Ok(words)
}

fn tell_status(rt: &HostRuntime, got: u8, wanted: u8) -> Result<()> {
    if got != wanted {
        println!(rt; "  status {got}, and should be {wanted}")?;
    }
    Ok(())
}

/// The line that begins at this place.
fn line_at(text: &[u8], start: usize) -> &str {
    let rest = text.get(start..).unwrap_or(&[]);
    let line = rest.split(|&byte| byte == b'\n').next().unwrap_or(&[]);
    if rest.is_empty() {
        "(nothing)"
    } else {
        str::from_utf8(line).unwrap_or("(no text)")
    }
}

impl Expected {
    /// Each line of a report ends with a newline.
    fn of(alloc: Global, row: &Row) -> Result<Expected> {
        let Ok(status) = row.case.status.parse::<u8>() else {
            bail!("the status is no number");
        };
        let mut report = expand(alloc, row.case.report.as_str())?;
        if !row.case.report.is_empty() {
            report.push(b'\n')?;
        }
        Ok(Expected { status, report })
    }
}

/// The first line in which two reports differ.
fn tell_reports(rt: &HostRuntime, got: &[u8], wanted: &[u8]) -> Result<()> {
    if got == wanted {
        return Ok(());
    }
    let same = got.iter().zip(wanted).take_while(|(a, b)| a == b).count();
    let front = wanted.get(..same).unwrap_or(&[]);
    let start = front
        .iter()
        .rposition(|&byte| byte == b'\n')
        .map_or(0, |place| place.saturating_add(1));
    let number = front
        .iter()
        .filter(|&&byte| byte == b'\n')
        .count()
        .saturating_add(1);
    println!(rt; "  line {number} of the report:")?;
    let got = line_at(got, start);
    let wanted = line_at(wanted, start);
    println!(rt; "    is        {got}")?;
    println!(rt; "    should be {wanted}")?;
    Ok(())
}

fn compared(rt: &HostRuntime, file: &str, row: &Row) -> Result<bool> {
    let alloc = rt.alloc();
    let words = command(alloc, row.case.words.as_str())?;
    let book = expand(alloc, row.case.book.as_str())?;
    let expected = Expected::of(alloc, row)?;
    let room = expected.report.len().saturating_add(ROOM);
    let outcome = run_in_memory(alloc, &words, book.as_slice(), room).map_err(no_memory)?;
    let wanted = expected.report.as_slice();
    let got = match &outcome.report {
        Some(report) => report.as_slice(),
        None => b"(a report of more bytes than there is room for)",
    };
    if outcome.status == expected.status && got == wanted {
        return Ok(true);
    }
    let line = row.line;
    let name = row.name.as_str();
    println!(rt; "{file}:{line}: {name} differs")?;
    tell_status(rt, outcome.status, expected.status)?;
    tell_reports(rt, got, wanted)?;
    Ok(false)
}

/// Runs a row of this file, and says where it differs.
pub fn is_as_expected(rt: &HostRuntime, file: &str, row: &Row) -> Result<bool> {
    let line = row.line;
    compared(rt, file, row).context(format_args!("{file}:{line}"))
}
