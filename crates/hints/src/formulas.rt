//! Rules made of formulas.

ghost use Rattle.std.specs.Prelude.{◌≡◌, ◌++◌, codes, IfOk, OnOk};
ghost use Rattle.std.specs.Option.{option_map, option_copied};
ghost use Rattle.std.specs.List.{list_all};
ghost use Rattle.terms.specs.Worlds.{is_in};
ghost use Rattle.hints.specs.Formulas as spec;

use crate::build::yes;
use lisp_data::{Memory, Seq, Symbols};
use proof_texts::contains;
use reduction::{Rule, Source, is_quoted_nil, of_one, of_three, of_two, quoted_nil};
use std::alloc::Global;
use terms::{Node, Term, Terms, variables};

/// Adds the parts of a hypothesis.
#[tactic(auto, using(crate::proofs::Parts::of_hyps))]
fn push_parts(hyp: &Term, found: &mut Terms) -> Result<(), Memory>
    ensures { OnOk result (found.new ≡ found.old ++ spec.parts hyp.now) }
{
    if let Some((p, q, r)) = of_three(hyp, "IF") {
        if is_quoted_nil(r) {
            push_parts(p, found)?;
            push_parts(q, found)?;
            return Ok(());
        }
    }
    found.push(hyp.share()?)
}

/// What a formula needs, and what remains.
#[tactic(auto, using(crate::proofs::Parts::of_formulas))]
fn read_formula(alloc: Global, formula: &Term) -> Result<(Terms, &Term), Memory>
    ensures needs { IfOk result (λ e. e.0 ≡ spec.needs formula.now) }
    ensures remains { IfOk result (λ e. e.1.now ≡ spec.remains formula.now) }
{
    let mut needs = Seq::new(alloc);
    let mut rest = formula;
    'rest: while let Some((a, b)) = of_two(rest, "IMPLIES") {
        push_parts(a, &mut needs)?;
        rest = b;
    }
    Ok((needs, rest))
}

/// Whether the term is a call of another function than `if`.
fn is_plain_call(term: &Term) -> bool
    ensures { result ≡ spec.is_plain_call term.now }
{
    match term.node() {
        Node::Var(_) => false,
        Node::Quote(_) => false,
        Node::Call(name, _) => name.text() != "IF",
    }
}

/// What remains of a formula, read as an equation.
fn reading(alloc: Global, term: &Term) -> Result<Option<(Term, Term)>, Memory>
    ensures { IfOk result (λ o. o ≡ spec.reading term.now) }
{
    if let Some((left, right)) = of_two(term, "EQUAL") {
        if is_plain_call(left) {
            return Ok(Some((left.share()?, right.share()?)));
        }
    }
    if let Some(negated) = of_one(term, "NOT") {
        return Ok(Some((negated.share()?, quoted_nil(alloc)?)));
    }
    if of_one(term, "CONSP").is_some()
        || of_one(term, "INTEGERP").is_some()
        || of_one(term, "SYMBOLP").is_some()
        || of_two(term, "<").is_some()
    {
        return Ok(Some((term.share()?, yes(alloc)?)));
    }
    Ok(None)
}

/// Whether each name is among the others.
fn are_among(names: &Symbols, others: &Symbols) -> bool
    ensures { result ≡ list_all (is_in others.now) names.now }
{
    for name in names.as_slice() {
        if !contains(others, name) {
            return false;
        }
    }
    true
}

/// Whether each variable of the term is in the left side.
fn covers(alloc: Global, left: &Term, term: &Term) -> Result<bool, Memory>
    ensures { IfOk result (λ b. b ≡ spec.covers left.now term.now) }
{
    let inside = variables(alloc, left)?;
    let all = variables(alloc, term)?;
    Ok(are_among(&all, &inside))
}

/// The rule that a formula makes, if all its variables stand in the rule's left side.
#[tactic(auto, unfolding(crate::specs::Formulas::rule_of))]
pub fn rule_of(alloc: Global, source: Source, formula: &Term) -> Result<Option<Rule>, Memory>
    ensures { IfOk result (λ o. o ≡ spec.rule_of source formula.now) }
{
    let (needs, rest) = read_formula(alloc, formula)?;
    match reading(alloc, rest)? {
        None => Ok(None),
        Some((left, right)) => {
            if !covers(alloc, &left, formula)? {
                return Ok(None);
            }
            Ok(Some(Rule {
                source,
                needs,
                left,
                right,
            }))
        }
    }
}
