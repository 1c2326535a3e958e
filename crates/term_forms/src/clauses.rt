//! The clauses of `cond` (docs/SYNTAX.md, "Terms").

ghost use Rattle.std.specs.Prelude.{◌≡◌, IfOk};
ghost use Rattle.term_forms.specs.Clauses.{open_clauses, choice, behind_open};
ghost use Rattle.term_forms.specs.Translation.{chosen, limited};
ghost use Rattle.term_forms.specs.view.TranslationView.{SaysOutcome};
ghost use Rattle.term_forms.specs.Words.{folded};

use crate::counted::Counted;
use crate::macros::Known;
use crate::translation::TermError;
use lisp_data::Memory;
use std::alloc::Global;
use std::marker::Model;

/// A clause of `cond`: whether its test is the symbol T, its test and its answer.
pub(crate) struct Clause {
    pub(crate) is_last: bool,
    pub(crate) test: Counted,
    pub(crate) answer: Counted,
}

impl Drop for Clause {
    fn drop(self) {
        let Clause {
            is_last: _,
            test: _,
            answer: _,
        } = self;
    }
}

impl Model for Clause {
    ghost use Rattle.term_forms.specs.Translation as spec;
    ghost use Rattle.term_forms.specs.view.ClauseCode.{clause_code};

    ghost Value = { spec.Clause };

    ghost coded = { clause_code };

    ghost view = { λ a. record { is_last = a.is_last; test = a.test; answer = a.answer } };
}

impl Clause {
    pub(crate) fn new(is_last: bool, test: Counted, answer: Counted) -> Clause
        ensures { result ≡ record { is_last = is_last; test = test; answer = answer } }
    {
        Clause {
            is_last,
            test,
            answer,
        }
    }

    fn is_last(&self) -> bool
        ensures { result ≡ self.now.is_last }
    {
        self.is_last
    }

    fn answer(&self) -> Result<Counted, Memory>
        ensures { IfOk result (λ t. t ≡ self.now.answer) }
    {
        self.answer.share()
    }

    /// The clause before the term of the rest.
    fn choice(&self, alloc: Global, rest: &Counted) -> Result<Counted, TermError>
        ensures { SaysOutcome (limited (choice self.now rest.now)) result }
    {
        Known::If.call3(alloc, &self.test, &self.answer, rest)
    }
}

/// How many clauses stand before the first whose test is T.
#[tactic(auto, using(crate::proofs::ClauseLemmas::opened))]
fn open_clauses(clauses: &[Clause]) -> usize
    ensures { result ≡ open_clauses clauses.now }
{
    for i in 0..clauses.len() {
        if clauses[i].is_last() {
            return i;
        }
    }
    clauses.len()
}

/// What stands after the clauses before the first whose test is T.
fn behind_open(alloc: Global, clauses: &[Clause]) -> Result<Counted, Memory>
    ensures { IfOk result (λ t. t ≡ behind_open clauses.now) }
{
    match clauses {
        [clause, ..] => clause.answer(),
        [] => Known::Nil.quoted(alloc),
    }
}

/// Clauses before the term of the rest. What is too large stays so, whatever comes before it.
#[tactic(auto, using(crate::proofs::ClauseLemmas::steps))]
fn choose_all(alloc: Global, clauses: &[Clause], rest: Counted) -> Result<Counted, TermError>
    ensures { SaysOutcome (limited (folded choice clauses.now rest)) result }
{
    let mut term = rest;
    let mut i = clauses.len();
    'clauses: while i > 0 {
        i -= 1;
        term = clauses[i].choice(alloc, &term)?;
    }
    term.keeps_limits();
    Ok(term)
}

/// The term of the clauses. Those after the first whose test is T are no part of it, also of its size.
#[tactic(auto, using(crate::proofs::ClauseLemmas::up_to_last))]
pub(crate) fn chosen(alloc: Global, clauses: &[Clause]) -> Result<Counted, TermError>
    ensures { SaysOutcome (limited (chosen clauses.now)) result }
{
    let count = open_clauses(clauses);
    let (open, behind): (&[Clause], &[Clause]) = clauses.split_at(count);
    let rest = behind_open(alloc, behind)?;
    choose_all(alloc, open, rest)
}
