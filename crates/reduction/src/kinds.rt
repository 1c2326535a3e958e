//! The kinds of steps that look at each part of a term.

ghost use Rattle.std.specs.Prelude.{◌≡◌, IfOk};
ghost use Rattle.reduction.specs.Finds.{finds};
ghost use Rattle.reduction.specs.Hyps.{left};

use crate::finders::{Finding, decide, on_call, test_of};
use crate::hyps::Others;
use crate::openings::definition;
use crate::polynomials::by_polynomials;
use crate::rules::{Rules, by_rules};
use crate::values::ground;
use lisp_data::Symbols;
use std::alloc::Global;
use terms::{Term, Terms};
use worlds::World;

/// What hints name: functions whose calls are opened, calls that are, terms to split on first, and the rules in the
/// order in which they are tried.
#[derive(Drop)]
pub struct How {
    pub opened: Symbols,
    pub expanded: Terms,
    pub cases: Terms,
    pub rules: Rules,
}

/// The world and the hints of a reduction.
#[derive(Clone, Copy)]
pub(crate) struct Setting<'a> {
    pub(crate) world: &'a World,
    pub(crate) how: &'a How,
}

/// A kind of step that looks at each part of a term.
#[derive(Clone, Copy)]
pub(crate) enum Kind {
    /// An `if` becomes the branch that its test decides, and a call that a hypothesis denies `'nil`.
    Decide,
    /// A call on quoted arguments becomes its value.
    Ground,
    /// An instance of a rule's left side becomes its right side.
    Rule,
    /// A call becomes the body of its function.
    Definition,
    /// A call becomes what a hypothesis says that it is equal to.
    OnCall,
    /// An equation of the same polynomial becomes `'t`.
    Polynomials,
    /// The test of an `if` is split on.
    Test,
}

impl Kind {
    /// What the kind finds at a term, by the hypotheses that count; `whole` says that the term is a whole hypothesis.
    pub(crate) fn finds(
        self,
        alloc: Global,
        setting: &Setting<'_>,
        others: &Others<'_>,
        whole: bool,
        term: &Term,
    ) -> Finding
        ensures { IfOk result (λ o. o ≡ finds setting.now.world.now setting.now.how.now self (left others.now) whole term.now) }
    {
        match self {
            Kind::Decide => decide(alloc, others, term),
            Kind::Ground => ground(alloc, setting.world, term),
            Kind::Rule => by_rules(alloc, others, term, setting.how.rules.as_slice()),
            Kind::Definition => definition(alloc, setting, whole, term),
            Kind::OnCall => on_call(others, term),
            Kind::Polynomials => by_polynomials(alloc, others, term),
            Kind::Test => test_of(term),
        }
    }
}
