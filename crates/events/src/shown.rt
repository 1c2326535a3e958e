//! The lines that show what an event makes.

ghost use Rattle.std.specs.Prelude.{◌≡◌, ◌++◌, codes, Some, Ok, IfOk, OnOk};
ghost use Rattle.events.specs.Shown as spec;
ghost use Rattle.events.specs.Shown.{texts_of};

use crate::steps::Lines;
use lisp_data::Symbol;
use lists::{Memory, Text};
use plans::{Entry, Plan};
use std::alloc::Global;
use term_forms::print_term;
use terms::{Definition, Sequent, Specification, Term};

/// Writes names, each behind a blank.
#[tactic(auto, using(crate::proofs::ShownLemmas::shown))]
fn write_further_names(names: &[Symbol], out: &mut Text) -> Result<(), Memory>
    ensures { OnOk result (out.new ≡ out.old ++ spec.further_text names.now) }
{
    for name in names {
        out.push(b' ')?;
        out.extend(name.text().as_bytes())?;
    }
    Ok(())
}

/// Writes names between parentheses.
#[tactic(auto, using(crate::proofs::ShownLemmas::shown))]
fn write_names(names: &[Symbol], out: &mut Text) -> Result<(), Memory>
    ensures { OnOk result (out.new ≡ out.old ++ spec.list_text names.now) }
{
    let [first, rest @ ..] = names else {
        return out.extend(b"()");
    };
    out.push(b'(')?;
    out.extend(first.text().as_bytes())?;
    write_further_names(rest, out)?;
    out.push(b')')
}

/// Writes terms, each behind a blank.
#[tactic(auto, using(crate::proofs::ShownLemmas::shown))]
fn write_further_terms(terms: &[Term], out: &mut Text) -> Result<(), Memory>
    ensures { OnOk result (out.new ≡ out.old ++ spec.further_text (texts_of terms.now)) }
{
    for term in terms {
        out.push(b' ')?;
        print_term(term, out)?;
    }
    Ok(())
}

/// Writes what a theorem assumes.
#[tactic(auto, using(crate::proofs::ShownLemmas::shown))]
fn write_assumed(terms: &[Term], out: &mut Text) -> Result<(), Memory>
    ensures { OnOk result (out.new ≡ out.old ++ spec.assuming_text terms.now) }
{
    let [first, rest @ ..] = terms else {
        return Ok(());
    };
    out.extend(b" :ASSUMING (")?;
    print_term(first, out)?;
    write_further_terms(rest, out)?;
    out.push(b')')
}

/// Writes a measure as it is declared.
fn write_declared(measure: &Term, out: &mut Text) -> Result<(), Memory>
    ensures { OnOk result (out.new ≡ out.old ++ spec.measure_text (Some measure.now)) }
{
    out.extend(b"(DECLARE (XARGS :MEASURE ")?;
    print_term(measure, out)?;
    out.extend(b")) ")
}

/// Writes the measure of a recursive function.
#[tactic(auto, using(crate::proofs::ShownLemmas::shown))]
fn write_measure(measure: &Option<Term>, out: &mut Text) -> Result<(), Memory>
    ensures { OnOk result (out.new ≡ out.old ++ spec.measure_text measure.now) }
{
    match measure {
        None => Ok(()),
        Some(measure) => write_declared(measure, out),
    }
}

/// Writes the name of a function, and its formals behind it.
#[tactic(auto, using(crate::proofs::ShownLemmas::shown))]
fn write_head(name: &Symbol, formals: &[Symbol], out: &mut Text) -> Result<(), Memory>
    ensures { OnOk result (out.new ≡ out.old ++ (name.now ++ (codes " " ++ spec.list_text formals.now))) }
{
    out.extend(name.text().as_bytes())?;
    out.push(b' ')?;
    write_names(formals, out)
}

#[tactic(auto, using(crate::proofs::ShownLemmas::shown))]
fn function_line(alloc: Global, definition: &Definition) -> Result<Text, Memory>
    ensures { IfOk result (λ text. text ≡ spec.function_line definition.now) }
{
    let mut text = Text::from_slice(alloc, b"function (DEFUN ")?;
    write_head(&definition.name, definition.formals.as_slice(), &mut text)?;
    text.push(b' ')?;
    write_measure(&definition.measure, &mut text)?;
    print_term(&definition.body, &mut text)?;
    text.extend(b")\n")?;
    Ok(text)
}

fn specification_line(alloc: Global, specification: &Specification) -> Result<Text, Memory>
    ensures { IfOk result (λ text. text ≡ spec.specification_line specification.now) }
{
    let mut text = Text::from_slice(alloc, b"specification (DEFUN-SK2 ")?;
    text.extend(specification.name.text().as_bytes())?;
    text.extend(b" () (FORALL ")?;
    write_names(specification.variables.as_slice(), &mut text)?;
    text.push(b' ')?;
    print_term(&specification.matrix, &mut text)?;
    text.extend(b"))\n")?;
    Ok(text)
}

#[tactic(auto, using(crate::proofs::ShownLemmas::shown))]
fn theorem_line(alloc: Global, name: &Symbol, sequent: &Sequent) -> Result<Text, Memory>
    ensures { IfOk result (λ text. text ≡ spec.theorem_line name.now sequent.now) }
{
    let mut text = Text::from_slice(alloc, b"theorem (DEFTHM ")?;
    text.extend(name.text().as_bytes())?;
    text.push(b' ')?;
    print_term(&sequent.goal, &mut text)?;
    write_assumed(sequent.universals.as_slice(), &mut text)?;
    text.extend(b")\n")?;
    Ok(text)
}

/// Adds the line of an entry that has one.
#[tactic(auto, using(crate::proofs::ShownLemmas::shown))]
fn push_entry(alloc: Global, entry: &Entry, lines: &mut Lines) -> Result<(), Memory>
    ensures { OnOk result (lines.new ≡ lines.old ++ spec.entry_lines entry.now) }
{
    match entry {
        Entry::Function(definition) => lines.push(function_line(alloc, definition)?),
        Entry::Spec(specification) => lines.push(specification_line(alloc, specification)?),
        Entry::Theorem(name, sequent) => lines.push(theorem_line(alloc, name, sequent)?),
        Entry::Variable(_, _) => Ok(()),
        Entry::Isomorphism(_) => Ok(()),
        Entry::Instance(_, _, _) => Ok(()),
        Entry::Chained(_, _) => Ok(()),
    }
}

/// Adds the lines of entries, in order.
#[tactic(auto, using(crate::proofs::ShownLemmas::shown))]
fn push_entries(alloc: Global, entries: &[Entry], lines: &mut Lines) -> Result<(), Memory>
    ensures { OnOk result (lines.new ≡ lines.old ++ spec.entries_lines entries.now) }
{
    for entry in entries {
        push_entry(alloc, entry, lines)?;
    }
    Ok(())
}

/// Adds the lines of what a plan makes, where it is to be shown.
#[tactic(auto, using(crate::proofs::ShownLemmas::shown))]
pub(crate) fn push_shown(
    alloc: Global,
    show: bool,
    plan: &Plan,
    lines: &mut Lines,
) -> Result<(), Memory>
    ensures { OnOk result (lines.new ≡ lines.old ++ spec.plan_lines show (Ok plan.now)) }
{
    if !show {
        return Ok(());
    }
    push_entries(alloc, plan.entries.as_slice(), lines)
}
