//! What steps are given, as the parts of their texts.

ghost use Rattle.std.specs.Prelude.{◌≡◌, map, IfOk};
ghost use Rattle.proof_texts.specs.Given.{seen, word_for, parts_of};

use crate::words::Word;
use lisp_data::{Memory, Symbol};
use proof_objects::{InductionCases, Step};
use std::alloc::Global;
use terms::{FactName, FunPairs, Path, Subst, Term, Terms};

/// A part of a step's text that is no proof, where it stands in the step.
#[derive(Clone, Copy)]
pub(crate) enum Given<'a> {
    Term(&'a Term),
    Terms(&'a Terms),
    Path(&'a Path),
    Number(u32),
    Substitution(&'a Subst),
    /// The name of a theorem, a function or an isomorphism.
    Name(&'a Symbol),
    Fact(&'a FactName),
    Functions(&'a FunPairs),
    Cases(&'a InductionCases),
}

/// The word of a step's text.
pub(crate) fn word_for(step: &Step) -> Word
    ensures { result ≡ word_for step.now }
{
    match step {
        Step::Theorem(FactName::Measure(_, _)) => Word::Measure,
        Step::Theorem(FactName::Isomorphism(_, _)) => Word::Isomorphism,
        _ => Word::Rule(step.rule()),
    }
}

/// The parts after the word that are no proofs, in order.
pub(crate) fn parts_of(alloc: Global, step: &Step) -> Result<Vec<Given<'_>>, Memory>
    ensures { IfOk result (λ parts. map seen parts.items ≡ parts_of step.now) }
{
    let parts = match step {
        Step::Hyp(hyp) => vec![in alloc; Given::Term(hyp)]?,
        Step::Refl(term) => vec![in alloc; Given::Term(term)]?,
        Step::Replace(path) => vec![in alloc; Given::Path(path)]?,
        Step::Unfold(call) => vec![in alloc; Given::Term(call)]?,
        Step::Eval(term) => vec![in alloc; Given::Term(term)]?,
        Step::Substitute(s) => vec![in alloc; Given::Substitution(s)]?,
        Step::IfTrue(then, other) => vec![in alloc; Given::Term(then), Given::Term(other)]?,
        Step::IfFalse(then, other) => vec![in alloc; Given::Term(then), Given::Term(other)]?,
        Step::Cases(test) => vec![in alloc; Given::Term(test)]?,
        Step::Cut => Vec::new(alloc),
        Step::Weaken(hyps, universals) => {
            vec![in alloc; Given::Terms(hyps), Given::Terms(universals)]?
        }
        Step::Contradict(goal) => vec![in alloc; Given::Term(goal)]?,
        Step::Axiom(number, s) => {
            vec![in alloc; Given::Number(*number), Given::Substitution(s)]?
        }
        Step::Ring(left, right) => vec![in alloc; Given::Term(left), Given::Term(right)]?,
        Step::ImpliesIn(hyp) => vec![in alloc; Given::Term(hyp)]?,
        Step::ImpliesOut => Vec::new(alloc),
        Step::Universal(universal, s) => {
            vec![in alloc; Given::Term(universal), Given::Substitution(s)]?
        }
        Step::Discharge => Vec::new(alloc),
        Step::Theorem(FactName::Theorem(name)) => vec![in alloc; Given::Name(name)]?,
        Step::Theorem(FactName::Measure(function, number)) => {
            vec![in alloc; Given::Name(function), Given::Number(*number)]?
        }
        Step::Theorem(FactName::Isomorphism(name, number)) => {
            vec![in alloc; Given::Name(name), Given::Number(*number)]?
        }
        Step::Instance(fact, pairs) => {
            vec![in alloc; Given::Fact(fact), Given::Functions(pairs)]?
        }
        Step::Induct(measure, cases) => {
            vec![in alloc; Given::Term(measure), Given::Cases(cases)]?
        }
    };
    Ok(parts)
}
