//! The lines of events.

ghost use Rattle.std.specs.Prelude.{◌≡◌, ◌∷◌, ◌++◌, [], codes, map, IfOk, OnOk};
ghost use Rattle.lisp_data.specs.ValueView.{val_of};
ghost use Rattle.term_forms.specs.Printing.{term_text};
ghost use Rattle.events.specs.Lines as spec;
ghost use Rattle.events.specs.Lines.{event_text, refused_line};

use crate::kind::Kind;
use crate::refusal::Refusal;
use crate::steps::Lines;
use lisp_data::Value;
use lisp_reader::print_value;
use lists::{Memory, Text};
use std::alloc::Global;
use term_forms::print_term;
use terms::{Sequent, Term};

pub(crate) fn one_line(alloc: Global, line: Text) -> Result<Lines, Memory>
    ensures { IfOk result (λ lines. lines ≡ line ∷ []) }
{
    let mut lines = Lines::new(alloc);
    lines.push(line)?;
    Ok(lines)
}

/// The line of an event, which begins with a word on what became of it and a blank.
pub(crate) fn event_line<K: Kind>(alloc: Global, begin: &str, event: &K) -> Result<Text, Memory>
    ensures { IfOk result (λ text. text ≡ event_text begin.now (K.frame event.now)) }
{
    let mut text = Text::from_slice(alloc, begin.as_bytes())?;
    event.write_title(&mut text)?;
    text.push(b'\n')?;
    Ok(text)
}

/// The line of a value that is printed.
pub(crate) fn value_line(alloc: Global, value: &Value) -> Result<Text, Memory>
    ensures { IfOk result (λ text. text ≡ spec.value_line (val_of value.now)) }
{
    let mut text = Text::from_slice(alloc, b"value ")?;
    print_value(value, &mut text)?;
    text.push(b'\n')?;
    Ok(text)
}

/// The line of a term, which begins with a word and a blank.
fn term_line(alloc: Global, begin: &str, term: &Term) -> Result<Text, Memory>
    ensures { IfOk result (λ text. text ≡ begin.now ++ (term_text term.now ++ codes "\n")) }
{
    let mut text = Text::from_slice(alloc, begin.as_bytes())?;
    print_term(term, &mut text)?;
    text.push(b'\n')?;
    Ok(text)
}

/// Adds a line for each hypothesis.
#[tactic(auto, using(crate::proofs::LineLemmas::lines))]
fn push_hypotheses(alloc: Global, hyps: &[Term], lines: &mut Lines) -> Result<(), Memory>
    ensures { OnOk result (lines.new ≡ lines.old ++ map spec.hypothesis_line hyps.now) }
{
    for hyp in hyps {
        lines.push(term_line(alloc, "hypothesis ", hyp)?)?;
    }
    Ok(())
}

/// Adds the lines of the sequent at which a reduction is stuck.
#[tactic(auto, using(crate::proofs::LineLemmas::lines))]
fn push_leaf(alloc: Global, leaf: &Sequent, lines: &mut Lines) -> Result<(), Memory>
    ensures { OnOk result (lines.new ≡ lines.old ++ spec.leaf_lines leaf.now) }
{
    push_hypotheses(alloc, leaf.hyps.as_slice(), lines)?;
    lines.push(term_line(alloc, "goal ", &leaf.goal)?)
}

/// Adds the lines that stand behind the line of a refusal.
#[tactic(auto, using(crate::proofs::LineLemmas::lines))]
fn push_further(alloc: Global, why: &Refusal, lines: &mut Lines) -> Result<(), Memory>
    ensures { OnOk result (lines.new ≡ lines.old ++ spec.further_lines why.now) }
{
    match why {
        Refusal::Coded { code: _, detail: _ } => Ok(()),
        Refusal::ProofWrong {
            condition: _,
            node: _,
            rule: _,
        } => Ok(()),
        Refusal::AtNode {
            code: _,
            condition: _,
            node: _,
        } => Ok(()),
        Refusal::NotProved {
            condition: _,
            reduction,
        } => push_leaf(alloc, reduction.stuck(), lines),
    }
}

/// The line of a refused event: its index from 1, why, and the place of a byte of the book.
pub fn refused_text(alloc: Global, index: u64, why: &Refusal, place: u64) -> Result<Text, Memory>
    ensures { IfOk result (λ text. text ≡ refused_line index why.now place) }
{
    let begin = format!(in alloc; "refused {index} ")?;
    let end = format!(in alloc; " at {place}\n")?;
    let mut text = Text::from_slice(alloc, begin.as_bytes())?;
    why.write(alloc, &mut text)?;
    text.extend(end.as_bytes())?;
    Ok(text)
}

/// The lines of a refused event.
pub(crate) fn refused_lines(
    alloc: Global,
    index: u64,
    why: &Refusal,
    place: u64,
) -> Result<Lines, Memory>
    ensures { IfOk result (λ lines. lines ≡ spec.refused_lines index why.now place) }
{
    let line = refused_text(alloc, index, why, place)?;
    let mut lines = one_line(alloc, line)?;
    push_further(alloc, why, &mut lines)?;
    Ok(lines)
}
