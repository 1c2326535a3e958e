//! Why events are refused, and how it is written.

ghost use Rattle.std.specs.Prelude.{◌≡◌, ◌++◌, codes, IfOk, OnOk};
ghost use Rattle.events.specs.Refusals as spec;

use hint_prover::Reduction;
use kernel::RuleName;
use lisp_data::{Code, Detail, Symbol};
use lists::{Memory, Text};
use std::alloc::Global;

/// Why a book or an event is refused (docs/REPORT.md, "Refusals").
pub enum Refusal {
    /// A refusal by its code, and what it names.
    Coded {
        code: Code,
        detail: Detail,
    },
    /// A condition's proof is wrong: its first node that concludes nothing, or its last node and the claim that it doesn't prove.
    ProofWrong {
        condition: Symbol,
        node: u32,
        rule: RuleName,
    },
    /// A rule of a condition's proof computes, and can't go on.
    AtNode {
        code: Code,
        condition: Symbol,
        node: u32,
    },
    /// A condition isn't proved by its hints, whose reduction ends stuck.
    NotProved {
        condition: Symbol,
        reduction: Reduction,
    },
}

impl Drop for Refusal {
    fn drop(self) {
        match self {
            Refusal::Coded { code: _, detail: _ } => {}
            Refusal::ProofWrong {
                condition: _,
                node: _,
                rule: _,
            } => {}
            Refusal::AtNode {
                code: _,
                condition: _,
                node: _,
            } => {}
            Refusal::NotProved {
                condition: _,
                reduction: _,
            } => {}
        }
    }
}

/// The word of a node's rule, or of the claim that the proof doesn't prove.
fn rule_word(rule: RuleName) -> &'static str
    ensures { result.now ≡ spec.rule_word rule }
{
    match rule {
        RuleName::Rule(rule) => rule.word(),
        RuleName::Claim => ":CLAIM",
    }
}

/// Code and word.
fn coded_text(alloc: Global, code: Code) -> Result<Text, Memory>
    ensures { IfOk result (λ text. text ≡ spec.coded_text code) }
{
    let number = code.number();
    let word = code.word();
    let text = format!(in alloc; "{number} {word}")?;
    Text::from_slice(alloc, text.as_bytes())
}

/// Writes a detail behind a blank, where there is one.
fn write_detail(alloc: Global, detail: &Detail, out: &mut Text) -> Result<(), Memory>
    ensures { OnOk result (out.new ≡ out.old ++ spec.detail_after detail.now) }
{
    if let Detail::Absent = detail {
        return Ok(());
    }
    out.push(b' ')?;
    detail.write(alloc, out)
}

/// A condition, and a node of its proof.
fn node_text(alloc: Global, condition: &Symbol, node: u32) -> Result<Text, Memory>
    ensures { IfOk result (λ text. text ≡ spec.node_text condition.now node) }
{
    let name = condition.text();
    let text = format!(in alloc; " {name} {node}")?;
    Text::from_slice(alloc, text.as_bytes())
}

/// A condition, a node of its proof and the node's rule.
fn rule_text(alloc: Global, condition: &Symbol, node: u32, rule: RuleName) -> Result<Text, Memory>
    ensures { IfOk result (λ text. text ≡ spec.node_text condition.now node ++ (codes " " ++ spec.rule_word rule)) }
{
    let mut text = node_text(alloc, condition, node)?;
    text.push(b' ')?;
    text.extend(rule_word(rule).as_bytes())?;
    Ok(text)
}

impl Refusal {
    ghost use Rattle.events.specs.Refusals.{refusal_code};

    /// The code of the refusal.
    pub fn code(&self) -> Code
        ensures { result ≡ refusal_code self.now }
    {
        match self {
            Refusal::Coded { code, detail: _ } => *code,
            Refusal::ProofWrong {
                condition: _,
                node: _,
                rule: _,
            } => Code::ProofWrong,
            Refusal::AtNode {
                code,
                condition: _,
                node: _,
            } => *code,
            Refusal::NotProved {
                condition: _,
                reduction: _,
            } => Code::NotProved,
        }
    }

    /// Writes what the refusal names.
    fn write_named(&self, alloc: Global, out: &mut Text) -> Result<(), Memory>
        ensures { OnOk result (out.new ≡ out.old ++ spec.named_text self.now) }
    {
        match self {
            Refusal::Coded { code: _, detail } => write_detail(alloc, detail, out),
            Refusal::ProofWrong {
                condition,
                node,
                rule,
            } => {
                let text = rule_text(alloc, condition, *node, *rule)?;
                out.extend(text.as_slice())
            }
            Refusal::AtNode {
                code: _,
                condition,
                node,
            } => {
                let text = node_text(alloc, condition, *node)?;
                out.extend(text.as_slice())
            }
            Refusal::NotProved {
                condition,
                reduction: _,
            } => {
                out.push(b' ')?;
                out.extend(condition.text().as_bytes())
            }
        }
    }

    /// Writes code, word and what the refusal names at the end of a text. Where there is no memory a part of it may be there.
    pub fn write(&self, alloc: Global, out: &mut Text) -> Result<(), Memory>
        ensures { OnOk result (out.new ≡ out.old ++ spec.refusal_text self.now) }
    {
        let text = coded_text(alloc, self.code())?;
        out.extend(text.as_slice())?;
        self.write_named(alloc, out)
    }
}
