//! The words of a command, read by `clap` as one simple command (docs/REPORT.md).

ghost use Rattle.std.specs.Prelude.{◌≡◌, IfOk, IfErr, IsUtf8, map, option_map};
ghost use Rattle.std.specs.List.{All};
ghost use Rattle.clap.specs.Words.{app_of, found_of, kind_of, rows_of};
ghost use Rattle.book_cli.specs.CommandLines.{IsModeLine, IsRefusalOf, flags_of};
ghost use Rattle.book_cli.specs.view.CommandMatches.{HasFlags, derive_app, is_check, line_in};

use clap::error::ErrorKind;
use clap::{Arg, ArgAction, ArgMatches, Command, Error};
use lists::{Seq, Text};
use std::alloc::{AllocError, AllocFailed, Global};
use std::io;

/// What a command line asks for, where a book is checked.
#[derive(Clone, Copy, Debug, PartialEq, Eq)]
pub(crate) struct Flags {
    /// The events after a refused one are handled too.
    pub(crate) continues: bool,
    /// What the events make is shown.
    pub(crate) shows: bool,
}

/// The words are no mode line. Its text is the line of usage.
#[derive(Debug, Drop, thiserror::Error)]
#[error("usage: derive check [--continue] [--show] < BOOK")]
pub(crate) struct UsageFault;

/// Why the words give no mode line.
#[derive(Debug, Drop)]
pub(crate) enum WordsError {
    Usage(UsageFault),
    Memory,
}

impl From<AllocError> for WordsError {
    ghost use Rattle.std.specs.Prelude.{◌≡◌};
    ghost use Rattle.book_cli.specs.declared.words.WordsError.TheVariants.{Memory as OutOfMemory};

    ghost from_gives = { λ _ e. e ≡ OutOfMemory };

    fn from(_error: AllocError) -> WordsError {
        WordsError::Memory
    }
}

impl<T: Drop> From<AllocFailed<T>> for WordsError {
    ghost use Rattle.std.specs.Prelude.{◌≡◌};
    ghost use Rattle.book_cli.specs.declared.words.WordsError.TheVariants.{Memory as OutOfMemory};

    ghost from_gives = { λ _ e. e ≡ OutOfMemory };

    fn from(_error: AllocFailed<T>) -> WordsError {
        WordsError::Memory
    }
}

/// Prints the line of usage.
pub fn print_usage<R: Eprint>(rt: &R) -> io::Result<()> {
    rt.eprintln(UsageFault)
}

/// The words as texts. A word that is no text is in no mode line.
fn texts_of(alloc: Global, words: &Seq<Text>) -> Result<Vec<&str>, WordsError>
    ensures texts { IfOk result (λ texts. map (λ s. s.now) texts.items ≡ words.now) }
    ensures valid { IfOk result (λ texts. All IsUtf8 words.now) }
    ensures refusal { IfErr result (IsRefusalOf words.now) }
{
    let mut texts = Vec::new(alloc);
    for word in words.as_slice() {
        match std::str::from_utf8(word.as_slice()) {
            Ok(text) => texts.push(text)?,
            Err(_) => return Err(WordsError::Usage(UsageFault)),
        }
    }
    Ok(texts)
}

/// The command: `derive MODE [COUNT] [--continue] [--show]`.
fn command<'a>(alloc: Global) -> Result<Command<'a>, AllocError>
    ensures { IfOk result (λ command. app_of command ≡ derive_app) }
{
    let mode = Arg::new(alloc, "MODE").required(true);
    let count = Arg::new(alloc, "COUNT");
    let continues = Arg::new(alloc, "continue")
        .long("continue")
        .action(ArgAction::SetTrue);
    let shows = Arg::new(alloc, "show")
        .long("show")
        .action(ArgAction::SetTrue);
    let command = Command::new(alloc, "derive")
        .no_binary_name(true)
        .disable_help_flag(true)
        .disable_version_flag(true)
        .arg(mode)?
        .arg(count)?
        .arg(continues)?
        .arg(shows)?;
    Ok(command)
}

/// The one mode so far takes no count.
fn is_check(mode: Option<&str>, count: Option<&str>) -> bool
    ensures { result ≡ is_check (option_map (λ s. s.now) mode.entry) (option_map (λ s. s.now) count.entry) }
{
    match mode {
        Some(mode) => mode == "check" && count.is_none(),
        None => false,
    }
}

/// The flags of the mode line that clap's matches give.
fn line_of(matches: &ArgMatches<'_>) -> Option<Flags>
    ensures { (flags : Flags) → HasFlags (rows_of (found_of matches.now)) flags → result ≡ line_in (rows_of (found_of matches.now)) flags }
{
    if !is_check(matches.get_str("MODE"), matches.get_str("COUNT")) {
        return None;
    }
    Some(Flags {
        continues: matches.get_flag("continue"),
        shows: matches.get_flag("show"),
    })
}

/// What a refusal by clap comes to.
fn words_error(error: &Error) -> WordsError
    ensures memory { kind_of error.now ≡ ErrorKind.OutOfMemory → result ≡ WordsError.Memory }
{
    match error.kind() {
        ErrorKind::OutOfMemory => WordsError::Memory,
        _ => WordsError::Usage(UsageFault),
    }
}

/// What the words of a command ask for, without the program's name (docs/REPORT.md).
pub(crate) fn read_words(alloc: Global, words: &Seq<Text>) -> Result<Flags, WordsError>
    ensures mode { IfOk result (λ line. IsModeLine words.now) }
    ensures flags { IfOk result (λ flags. flags ≡ flags_of words.now) }
    ensures refusal { IfErr result (IsRefusalOf words.now) }
{
    let texts = texts_of(alloc, words)?;
    match command(alloc)?.try_get_matches_from(texts.as_slice()) {
        Ok(matches) => line_of(&matches).ok_or(WordsError::Usage(UsageFault)),
        Err(error) => Err(words_error(&error)),
    }
}
