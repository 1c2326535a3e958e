//! The report of a book.

ghost use Rattle.std.specs.Prelude.{◌≡◌, ◌++◌, codes, ◌≤◌, ◌<◌, ◌^◌, ◌-◌, ◌+◌, ◌||◌, ◌&&◌, length, IfOk, OnOk, OnErr, IsErrOf, Some};
ghost use Rattle.std.specs.Fmt.{decimal};
ghost use Rattle.lisp_data.specs.FormView.{form_of, IsProper};
ghost use Rattle.ports.specs.Causes.{Rose};
ghost use Rattle.ports.specs.Streams.{Grows, GrowsByFront};
ghost use Rattle.terms.specs.Sound.{Sound};
ghost use Rattle.events.specs.Lines.{refused_line};
ghost use Rattle.events.specs.Verdicts.{verdict};
ghost use Rattle.lisp_reader.specs.declared.limits.TheConstants.{MAX_FORMS};
ghost use Rattle.book_cli.specs.Report.{all_lines, IsNext, event_lines, turn_lines, last_line, end_lines, report_of, accepts_all, world_made};

use crate::progress::Progress;
use crate::stop::Stop;
use crate::words::Flags;
use events::{Refusal, StepAnswer, refused_text, step};
use lisp_data::{Code, Detail};
use lisp_reader::{FormReader, Located, ReadError};
use lists::{Memory, Text};
use ports::{Sink, put_all};
use std::alloc::Global;
use worlds::World;

/// Writes the lines of an event, which are few.
fn write_lines<K: Sink>(lines: &[Text], out: &mut K) -> Result<(), Stop>
    ensures written { OnOk result (Grows (K.held out.old) (K.held out.new) (all_lines lines.now)) }
    ensures cut { OnErr result (GrowsByFront (K.held out.old) (K.held out.new) (all_lines lines.now)) }
    ensures cause { IsErrOf result Stop.WriteFault → Rose (K.faults out.old) (K.faults out.new) }
    ensures later { K.faults out.old ≤ K.faults out.new }
{
    match lines {
        [] => Ok(()),
        [line, rest @ ..] => {
            put_all(out, line.as_slice())?;
            write_lines(rest, out)?;
            Ok(())
        }
    }
}

/// Handles an event and writes its lines. Answers whether it wasn't refused.
fn handle<K: Sink>(
    alloc: Global,
    progress: &mut Progress,
    located: &Located,
    flags: Flags,
    out: &mut K,
) -> Result<bool, Stop>
    requires proper { IsProper located.now.form }
    requires few { progress.old.handled < 2 ^ 64 - 1 }
    requires counted { progress.old.counted ≤ progress.old.handled }
    ensures written { OnOk result (Grows (K.held out.old) (K.held out.new) (all_lines (event_lines flags progress.old (form_of located.now.form, located.now.place)))) }
    ensures cut { OnErr result (GrowsByFront (K.held out.old) (K.held out.new) (all_lines (event_lines flags progress.old (form_of located.now.form, located.now.place)))) }
    ensures next { IfOk result (IsNext (verdict progress.old.world (form_of located.now.form)) progress.old progress.new) }
    ensures cause { IsErrOf result Stop.WriteFault → Rose (K.faults out.old) (K.faults out.new) }
    ensures later { K.faults out.old ≤ K.faults out.new }
{
    let index = progress.handled + 1;
    match step(alloc, &progress.world, located, index, flags.shows)? {
        StepAnswer::Accepted(next, lines, _proofs) => {
            write_lines(lines.as_slice(), out)?;
            progress.world = next;
            progress.handled += 1;
            progress.counted += 1;
            Ok(true)
        }
        StepAnswer::Redundant(lines) | StepAnswer::Printed(lines) => {
            write_lines(lines.as_slice(), out)?;
            progress.handled += 1;
            progress.counted += 1;
            Ok(true)
        }
        StepAnswer::Refused(_, lines) => {
            write_lines(lines.as_slice(), out)?;
            progress.handled += 1;
            Ok(false)
        }
    }
}

/// Whether a run goes on after an event.
fn goes_on(accepted: bool, continues: bool) -> bool
    ensures { result ≡ (accepted || continues) }
{
    accepted || continues
}

/// Whether all events are accepted, with one more.
fn still_all(all: bool, accepted: bool) -> bool
    ensures { result ≡ (all && accepted) }
{
    all && accepted
}

/// The last line.
fn accepted_text(alloc: Global, events: u64, theorems: u64) -> Result<Text, Memory>
    ensures { IfOk result (λ text. text ≡ codes "accepted " ++ (decimal events ++ (codes " events " ++ (decimal theorems ++ codes " theorems\n")))) }
{
    let text = format!(in alloc; "accepted {events} events {theorems} theorems\n")?;
    Text::from_slice(alloc, text.as_bytes())
}

/// Writes the last line.
fn write_last<K: Sink>(alloc: Global, progress: &Progress, out: &mut K) -> Result<(), Stop>
    ensures written { OnOk result (Grows (K.held out.old) (K.held out.new) (last_line progress.now)) }
    ensures cut { OnErr result (GrowsByFront (K.held out.old) (K.held out.new) (last_line progress.now)) }
    ensures cause { IsErrOf result Stop.WriteFault → Rose (K.faults out.old) (K.faults out.new) }
    ensures later { K.faults out.old ≤ K.faults out.new }
{
    let line = accepted_text(alloc, progress.counted, progress.world.theorems())?;
    put_all(out, line.as_slice())?;
    Ok(())
}

/// Handles an event and writes its lines, with the last line where the run ends with it. Answers whether it wasn't refused.
fn take_event<K: Sink>(
    alloc: Global,
    progress: &mut Progress,
    located: Located,
    flags: Flags,
    out: &mut K,
) -> Result<bool, Stop>
    requires proper { IsProper located.form }
    requires few { progress.old.handled < 2 ^ 64 - 1 }
    requires counted { progress.old.counted ≤ progress.old.handled }
    ensures written { OnOk result (Grows (K.held out.old) (K.held out.new) (turn_lines flags progress.old (form_of located.form, located.place))) }
    ensures cut { OnErr result (GrowsByFront (K.held out.old) (K.held out.new) (turn_lines flags progress.old (form_of located.form, located.place))) }
    ensures next { IfOk result (IsNext (verdict progress.old.world (form_of located.form)) progress.old progress.new) }
    ensures cause { IsErrOf result Stop.WriteFault → Rose (K.faults out.old) (K.faults out.new) }
    ensures later { K.faults out.old ≤ K.faults out.new }
{
    let accepted = handle(alloc, progress, &located, flags, out)?;
    if goes_on(accepted, flags.continues) {
        return Ok(accepted);
    }
    write_last(alloc, progress, out)?;
    Ok(accepted)
}

/// Writes the line of a refused event, where so many were accepted before it.
fn write_refusal<K: Sink>(
    alloc: Global,
    events: u64,
    why: &Refusal,
    place: u64,
    out: &mut K,
) -> Result<(), Stop>
    requires { events < 2 ^ 64 - 1 }
    ensures written { OnOk result (Grows (K.held out.old) (K.held out.new) (refused_line (events + 1) why.now place)) }
    ensures cut { OnErr result (GrowsByFront (K.held out.old) (K.held out.new) (refused_line (events + 1) why.now place)) }
    ensures cause { IsErrOf result Stop.WriteFault → Rose (K.faults out.old) (K.faults out.new) }
    ensures later { K.faults out.old ≤ K.faults out.new }
{
    let line = refused_text(alloc, events + 1, why, place)?;
    put_all(out, line.as_slice())?;
    Ok(())
}

/// Writes the line of a fault of the book, and the last line.
fn write_fault<K: Sink>(
    alloc: Global,
    progress: &Progress,
    code: Code,
    place: u64,
    out: &mut K,
) -> Result<(), Stop>
    requires { progress.now.handled < 2 ^ 64 - 1 }
    ensures written { OnOk result (Grows (K.held out.old) (K.held out.new) (end_lines progress.now (Some (code, place)))) }
    ensures cut { OnErr result (GrowsByFront (K.held out.old) (K.held out.new) (end_lines progress.now (Some (code, place)))) }
    ensures cause { IsErrOf result Stop.WriteFault → Rose (K.faults out.old) (K.faults out.new) }
    ensures later { K.faults out.old ≤ K.faults out.new }
{
    let why = Refusal::Coded {
        code,
        detail: Detail::Absent,
    };
    write_refusal(alloc, progress.handled, &why, place, out)?;
    write_last(alloc, progress, out)?;
    Ok(())
}

/// Handles the events that the reader gives, and writes the report. The first refusal ends it, unless the run continues; what can't be
/// read ends it always. Answers whether all were accepted.
pub(crate) fn write_report<K: Sink>(
    alloc: Global,
    reader: &mut FormReader<'_>,
    flags: Flags,
    out: &mut K,
) -> Result<bool, Stop>
    requires { length reader.old.0 ≤ MAX_FORMS }
    ensures written { OnOk result (Grows (K.held out.old) (K.held out.new) (report_of flags reader.old)) }
    ensures cut { OnErr result (GrowsByFront (K.held out.old) (K.held out.new) (report_of flags reader.old)) }
    ensures accepted { IfOk result (λ all. all ≡ accepts_all reader.old) }
    ensures sound { OnOk result (Sound (world_made flags reader.old)) }
    ensures cause { IsErrOf result Stop.WriteFault → Rose (K.faults out.old) (K.faults out.new) }
    ensures later { K.faults out.old ≤ K.faults out.new }
{
    let mut progress = Progress {
        world: World::initial(alloc)?,
        handled: 0,
        counted: 0,
    };
    let mut all = true;
    'events: loop {
        match reader.next(alloc) {
            Ok(Some(located)) => {
                let accepted = take_event(alloc, &mut progress, located, flags, out)?;
                all = still_all(all, accepted);
                if !goes_on(accepted, flags.continues) {
                    progress.world.soundness();
                    return Ok(false);
                }
            }
            Ok(None) => {
                write_last(alloc, &progress, out)?;
                progress.world.soundness();
                return Ok(all);
            }
            Err(error) => match error {
                ReadError::Refused { code, place } => {
                    write_fault(alloc, &progress, code, place, out)?;
                    progress.world.soundness();
                    return Ok(false);
                }
                ReadError::Memory => return Err(Stop::Memory),
            },
        }
    }
}
