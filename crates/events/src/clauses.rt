//! How the conditions of an event are proved.

ghost use Rattle.std.specs.Prelude.{◌≡◌, ◌&&◌, map, IfSome, option_map};
ghost use Rattle.lisp_data.specs.FormView.{form_of, IsProper, AllProper};
ghost use Rattle.event_forms.specs.Clauses.{clause_of, clauses_in, hint_of, hints_in};
ghost use Rattle.event_forms.specs.ShapeView.{if_given};
ghost use Rattle.events.specs.Defthm.{of_goal};
ghost use Rattle.events.specs.Verdicts as spec;
ghost use Rattle.events.specs.view.Halts.{Reads, clauses_seen, AreProper, joined, of_condition, serves_condition, part_under};

use crate::halt::Halt;
use event_forms::{clause, hint_clause};
use hints::{Facts, Hints};
use lisp_data::{Code, Form, Seq, Symbol};
use plans::Condition;
use proof_objects::Proof;
use proof_texts::read_proof;
use std::alloc::Global;
use worlds::World;

/// The texts of proofs and the hint steps of an event's conditions.
#[derive(Clone, Copy)]
pub enum Clauses<'a> {
    NoClauses,
    /// The proof of the one condition and its hint steps, where they are given.
    Goal {
        proof: Option<&'a Form>,
        how: Option<&'a [Form]>,
    },
    /// Clauses of proofs and of hints, each of another condition.
    Each {
        proofs: &'a [Form],
        hows: &'a [Form],
    },
}

/// How a condition is proved.
#[derive(Drop)]
pub enum Way {
    ByProof(Proof),
    ByHints(Hints),
}

/// A list of ways, in order.
pub type Ways = Seq<Way>;

fn is_condition(conditions: &[Condition], name: &str) -> bool
    ensures { result ≡ spec.is_condition conditions.now name.now }
{
    for condition in conditions {
        if condition.name.text() == name {
            return true;
        }
    }
    false
}

/// Whether a clause is of a condition.
fn is_of_condition(conditions: &[Condition], form: &Form) -> bool
    requires { IsProper form.now }
    ensures { result ≡ of_condition conditions.now (clause_of (form_of form.now)) }
{
    match clause(form) {
        Some((name, _)) => is_condition(conditions, name.text()),
        None => true,
    }
}

/// Whether a clause of hints serves a condition.
fn is_served(conditions: &[Condition], form: &Form) -> bool
    requires { IsProper form.now }
    ensures { result ≡ serves_condition conditions.now (hint_of (form_of form.now)) }
{
    match hint_clause(form) {
        Some((name, _)) => name.text() == ":ALL" || is_condition(conditions, name.text()),
        None => true,
    }
}

/// Whether each of the clauses of hints serves a condition.
#[tactic(auto, using(crate::proofs::ClauseLemmas::clauses))]
fn are_served(conditions: &[Condition], clauses: &[Form]) -> bool
    requires { AllProper clauses.now }
    ensures { result ≡ spec.are_served conditions.now (hints_in (map form_of clauses.now)) }
{
    for form in clauses {
        if !is_served(conditions, form) {
            return false;
        }
    }
    true
}

/// Whether each of the clauses is of a condition.
#[tactic(auto, using(crate::proofs::ClauseLemmas::clauses))]
fn are_conditions(conditions: &[Condition], clauses: &[Form]) -> bool
    requires { AllProper clauses.now }
    ensures { result ≡ spec.are_conditions conditions.now (clauses_in (map form_of clauses.now)) }
{
    for form in clauses {
        if !is_of_condition(conditions, form) {
            return false;
        }
    }
    true
}

/// Whether what is given for the one condition has that condition.
#[tactic(auto, using(crate::proofs::ClauseLemmas::goals))]
fn has_goal(conditions: &[Condition], proof: Option<&Form>, how: Option<&[Form]>) -> bool
    ensures { result ≡ (spec.are_conditions conditions.now (of_goal (if_given proof.entry (λ p. form_of p.now))) && spec.are_served conditions.now (of_goal (if_given how.entry (λ steps. map form_of steps.now)))) }
{
    match proof {
        Some(_) => is_condition(conditions, ":GOAL"),
        None => match how {
            Some(_) => is_condition(conditions, ":GOAL"),
            None => true,
        },
    }
}

/// Refuses a clause of no condition.
pub(crate) fn check_clauses(
    alloc: Global,
    conditions: &[Condition],
    clauses: &Clauses<'_>,
) -> Result<(), Halt>
    requires { AreProper clauses.now }
    ensures { Reads (λ x. x) (spec.of_conditions conditions.now (clauses_seen clauses.now)) result }
{
    let are_conditions = match clauses {
        Clauses::NoClauses => true,
        Clauses::Goal { proof, how } => has_goal(conditions, *proof, *how),
        Clauses::Each { proofs, hows } => {
            are_conditions(conditions, proofs) && are_served(conditions, hows)
        }
    };
    if are_conditions {
        Ok(())
    } else {
        Err(Halt::word(alloc, Code::ShapeMismatch, "conditions"))
    }
}

/// The text of a clause, where it is of this condition.
fn text_of<'a>(form: &'a Form, name: &Symbol) -> Option<&'a Form>
    requires { IsProper form.now }
    ensures value { option_map (λ text. form_of text.now) result ≡ part_under (clause_of (form_of form.now)) name.now }
    ensures proper { IfSome result (λ text. IsProper text.now) }
{
    match clause(form) {
        Some((condition, text)) => {
            if name.same(condition) {
                Some(text)
            } else {
                None
            }
        }
        None => None,
    }
}

/// The text of the first clause of this condition.
#[tactic(auto, using(crate::proofs::ClauseLemmas::clauses))]
fn first_text<'a>(clauses: &'a [Form], name: &Symbol) -> Option<&'a Form>
    requires { AllProper clauses.now }
    ensures value { option_map (λ text. form_of text.now) result ≡ spec.clause_of (clauses_in (map form_of clauses.now)) name.now }
    ensures proper { IfSome result (λ text. IsProper text.now) }
{
    for form in clauses {
        if let Some(text) = text_of(form, name) {
            return Some(text);
        }
    }
    None
}

/// The text of the proof of the one condition, where it is given and has this name.
fn text_of_goal<'a>(proof: Option<&'a Form>, name: &str) -> Option<&'a Form>
    requires { IfSome proof (λ text. IsProper text.now) }
    ensures value { option_map (λ text. form_of text.now) result ≡ spec.clause_of (of_goal (if_given proof.entry (λ text. form_of text.now))) name.now }
    ensures proper { IfSome result (λ text. IsProper text.now) }
{
    match proof {
        Some(text) => { if name == ":GOAL" { Some(text) } else { None } }
        None => None,
    }
}

/// The text of a condition's proof, where it is given.
fn proof_of<'a>(clauses: &Clauses<'a>, name: &Symbol) -> Option<&'a Form>
    requires { AreProper clauses.now }
    ensures value { option_map (λ text. form_of text.now) result ≡ spec.clause_of (clauses_seen clauses.now).proofs name.now }
    ensures proper { IfSome result (λ text. IsProper text.now) }
{
    match clauses {
        Clauses::NoClauses => None,
        Clauses::Goal { proof, how: _ } => text_of_goal(*proof, name.text()),
        Clauses::Each { proofs, hows: _ } => first_text(proofs, name),
    }
}

/// The steps of a clause of hints, where it has this name.
fn steps_of<'a>(form: &'a Form, name: &str) -> Option<&'a [Form]>
    requires { IsProper form.now }
    ensures value { option_map (λ steps. map form_of steps.now) result ≡ part_under (hint_of (form_of form.now)) name.now }
    ensures proper { IfSome result (λ steps. AllProper steps.now) }
{
    match hint_clause(form) {
        Some((condition, steps)) => {
            if name == condition.text() {
                Some(steps)
            } else {
                None
            }
        }
        None => None,
    }
}

/// The steps of the first clause of hints with this name.
#[tactic(auto, using(crate::proofs::ClauseLemmas::clauses))]
fn first_steps<'a>(clauses: &'a [Form], name: &str) -> Option<&'a [Form]>
    requires { AllProper clauses.now }
    ensures value { option_map (λ steps. map form_of steps.now) result ≡ spec.clause_of (hints_in (map form_of clauses.now)) name.now }
    ensures proper { IfSome result (λ steps. AllProper steps.now) }
{
    for form in clauses {
        if let Some(steps) = steps_of(form, name) {
            return Some(steps);
        }
    }
    None
}

/// The hint steps of a condition: those of its own clause, else those for all conditions, else none.
fn steps_among<'a>(clauses: &'a [Form], name: &str) -> &'a [Form]
    requires { AllProper clauses.now }
    ensures value { map form_of result.now ≡ spec.steps_for (hints_in (map form_of clauses.now)) name.now }
    ensures proper { AllProper result.now }
{
    if let Some(steps) = first_steps(clauses, name) {
        return steps;
    }
    match first_steps(clauses, ":ALL") {
        Some(steps) => steps,
        None => &[],
    }
}

/// The hint steps of the one condition, where they are given and it has this name.
fn steps_of_goal<'a>(how: Option<&'a [Form]>, name: &str) -> &'a [Form]
    requires { IfSome how (λ steps. AllProper steps.now) }
    ensures value { map form_of result.now ≡ spec.steps_for (of_goal (if_given how.entry (λ steps. map form_of steps.now))) name.now }
    ensures proper { AllProper result.now }
{
    match how {
        Some(steps) => { if name == ":GOAL" { steps } else { &[] } }
        None => &[],
    }
}

/// The hint steps of a condition.
fn steps_for<'a>(clauses: &Clauses<'a>, name: &str) -> &'a [Form]
    requires { AreProper clauses.now }
    ensures value { map form_of result.now ≡ spec.steps_for (clauses_seen clauses.now).hows name.now }
    ensures proper { AllProper result.now }
{
    match clauses {
        Clauses::NoClauses => &[],
        Clauses::Goal { proof: _, how } => steps_of_goal(*how, name),
        Clauses::Each { proofs: _, hows } => steps_among(hows, name),
    }
}

/// How a condition with these universals is proved: by its text, else by its hint steps.
#[tactic(auto, unfolding(crate::specs::Verdicts::way_by))]
fn read_way(
    alloc: Global,
    facts: &Facts<'_>,
    text: Option<&Form>,
    steps: &[Form],
) -> Result<Way, Halt>
    requires text { IfSome text (λ text. IsProper text.now) }
    requires steps { AllProper steps.now }
    ensures { Reads (λ way. way) (spec.way_by facts.now.world.now facts.now.universals.now (option_map (λ text. form_of text.now) text.entry) (map form_of steps.now)) result }
{
    match text {
        Some(text) => {
            let proof = read_proof(alloc, facts.world, text)?;
            Ok(Way::ByProof(proof))
        }
        None => {
            let hints = Hints::of_steps(alloc, facts, steps)?;
            Ok(Way::ByHints(hints))
        }
    }
}

/// How a condition is proved.
fn way_of(
    alloc: Global,
    world: &World,
    clauses: &Clauses<'_>,
    condition: &Condition,
) -> Result<Way, Halt>
    requires { AreProper clauses.now }
    ensures { Reads (λ way. way) (spec.way_of world.now (clauses_seen clauses.now) condition.now) result }
{
    let facts = Facts {
        world,
        universals: &condition.sequent.universals,
    };
    let text = proof_of(clauses, &condition.name);
    let steps = steps_for(clauses, condition.name.text());
    read_way(alloc, &facts, text, steps)
}

/// How the conditions are proved, in order, behind the ways that there are.
pub(crate) fn read_ways(
    alloc: Global,
    world: &World,
    clauses: &Clauses<'_>,
    conditions: &[Condition],
    mut ways: Ways,
) -> Result<Ways, Halt>
    requires { AreProper clauses.now }
    ensures { Reads (λ ways. ways) (joined ways (spec.ways world.now (clauses_seen clauses.now) conditions.now)) result }
{
    let mut rest = conditions;
    while let [condition, more @ ..] = rest {
        let way = way_of(alloc, world, clauses, condition)?;
        ways.push(way)?;
        rest = more;
    }
    Ok(ways)
}
