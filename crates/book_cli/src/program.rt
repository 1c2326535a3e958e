//! The top call, which does all that the program does.

ghost use Rattle.std.specs.Prelude.{◌≡◌, ◌≢◌, ◌≤◌, IfSome, IsTrue, true, false};
ghost use Rattle.ports.specs.Causes.{Rose};
ghost use Rattle.ports.specs.Streams.{GrowsByFront};
ghost use Rattle.lisp_reader.specs.Grammar.{parse};
ghost use Rattle.book_cli.specs.CommandLines.{IsModeLine, flags_of};
ghost use Rattle.book_cli.specs.Report.{is_accepted, report, report_of};
ghost use Rattle.book_cli.specs.Outcomes.{IsAcceptedRun, IsRefusedRun, IsReported, IsReportStatus, IsOfModeLine, IsSureEnd, IsUntouched, is_cut};

use crate::laws::printed_values_are_true;
use crate::report::write_report;
use crate::status::{Status, status_of};
use crate::words::{Flags, WordsError, read_words};
use lisp_reader::{FormReader, MAX_BOOK};
use lists::{Seq, Text};
use ports::{ReadAllError, Sink, Source, read_all};
use std::alloc::Global;

/// The words of a command, without the program's name.
pub type Words = Seq<Text>;

/// Reads the book, checks its events and writes the report (docs/REPORT.md). It does all that the program does.
///
/// The old log and the new log aren't touched yet.
pub fn run<B: Source, L: Source, K: Sink, P: Sink>(
    alloc: Global,
    words: &Words,
    book: &mut B,
    old_log: &mut L,
    out: &mut K,
    new_log: &mut P,
) -> Status
    // Words that are no mode line are refused, and nothing is touched.
    ensures usage { result ≡ Status.Usage → IsModeLine words.now → ⊥ }
    ensures mode_line { IsOfModeLine result → IsModeLine words.now }
    ensures book_untouched { result ≡ Status.Usage → IsUntouched (B.left book.old) (B.left book.new) (B.faults book.old) (B.faults book.new) }
    ensures out_untouched { result ≡ Status.Usage → IsUntouched (K.held out.old) (K.held out.new) (K.faults out.old) (K.faults out.new) }
    ensures old_log_untouched { IsUntouched (L.left old_log.old) (L.left old_log.new) (L.faults old_log.old) (L.faults old_log.new) }
    ensures new_log_untouched { IsUntouched (P.held new_log.old) (P.held new_log.new) (P.faults new_log.old) (P.faults new_log.new) }

    // What is accepted is true: the whole book was read, its report was written, each theorem of its world holds, and each value that it
    // prints is the model's.
    ensures accepted { result ≡ Status.Accepted → IsAcceptedRun (flags_of words.now) (B.left book.old) (B.left book.new) (K.held out.old) (K.held out.new) }

    // The whole report was written, with its refused line; each value that it prints is the model's.
    ensures refused { result ≡ Status.Refused → IsRefusedRun (flags_of words.now) (B.left book.old) (K.held out.old) (K.held out.new) }

    // Where the words are a mode line and no count of faults rises, the book is accepted or refused as it is, or there was no memory.
    ensures sure { IsModeLine words.now → (Rose (B.faults book.old) (B.faults book.new) → ⊥) → (Rose (K.faults out.old) (K.faults out.new) → ⊥) → IfSome (B.left book.old) (λ bytes. IsSureEnd (is_accepted bytes) result) }

    // After a fault, or out of memory, a prefix of the report was written.
    ensures cut { IsTrue (is_cut result) → IfSome (B.left book.old) (λ bytes. GrowsByFront (K.held out.old) (K.held out.new) (report (flags_of words.now) bytes)) }

    // A fault is told only where one came.
    ensures read_fault { result ≡ Status.ReadFault → Rose (B.faults book.old) (B.faults book.new) }
    ensures read_fault_untouched { result ≡ Status.ReadFault → IsUntouched (K.held out.old) (K.held out.new) (K.faults out.old) (K.faults out.new) }
    ensures write_fault { result ≡ Status.WriteFault → Rose (K.faults out.old) (K.faults out.new) }
{
    match read_words(alloc, words) {
        Ok(flags) => check_book(alloc, flags, book, out),
        Err(error) => match error {
            WordsError::Usage(_) => Status::Usage,
            WordsError::Memory => Status::Memory,
        },
    }
}

/// The report of the bytes of a book, which goes on past them or not.
fn report_bytes<K: Sink>(
    alloc: Global,
    bytes: &[u8],
    more: bool,
    flags: Flags,
    out: &mut K,
) -> Status
    ensures accepted { result ≡ Status.Accepted → IsReported flags (K.held out.old) (K.held out.new) (parse more bytes.now) true }
    ensures refused { result ≡ Status.Refused → IsReported flags (K.held out.old) (K.held out.new) (parse more bytes.now) false }
    ensures cut { IsTrue (is_cut result) → GrowsByFront (K.held out.old) (K.held out.new) (report_of flags (parse more bytes.now)) }
    ensures others { IsReportStatus result }
    ensures cause { result ≡ Status.WriteFault → Rose (K.faults out.old) (K.faults out.new) }
    ensures later { K.faults out.old ≤ K.faults out.new }
{
    let mut reader = FormReader::new(bytes, more);
    status_of(write_report(alloc, &mut reader, flags, out))
}

/// Reads a book, checks its events and writes the report, with what the flags ask for.
fn check_book<B: Source, K: Sink>(alloc: Global, flags: Flags, book: &mut B, out: &mut K) -> Status
    ensures no_usage { result ≢ Status.Usage }
    ensures accepted { result ≡ Status.Accepted → IsAcceptedRun flags (B.left book.old) (B.left book.new) (K.held out.old) (K.held out.new) }
    ensures refused { result ≡ Status.Refused → IsRefusedRun flags (B.left book.old) (K.held out.old) (K.held out.new) }
    ensures cut { IsTrue (is_cut result) → IfSome (B.left book.old) (λ bytes. GrowsByFront (K.held out.old) (K.held out.new) (report flags bytes)) }
    ensures read_fault { result ≡ Status.ReadFault → Rose (B.faults book.old) (B.faults book.new) }
    ensures read_fault_untouched { result ≡ Status.ReadFault → IsUntouched (K.held out.old) (K.held out.new) (K.faults out.old) (K.faults out.new) }
    ensures write_fault { result ≡ Status.WriteFault → Rose (K.faults out.old) (K.faults out.new) }
{
    printed_values_are_true();
    match read_all(alloc, book, MAX_BOOK) {
        Ok(bytes) => report_bytes(alloc, bytes.as_slice(), false, flags, out),
        Err(error) => match error {
            ReadAllError::ReadFault => Status::ReadFault,
            ReadAllError::TooLong(front) => {
                report_bytes(alloc, front.as_slice(), true, flags, out)
            }
            ReadAllError::Memory => Status::Memory,
        },
    }
}
