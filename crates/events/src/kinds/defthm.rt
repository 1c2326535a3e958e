//! `defthm`.

ghost use Rattle.std.specs.Prelude.{◌≡◌, map, IfOk};
ghost use Rattle.lisp_data.specs.FormView.{form_of, IsProper, AllProper};
ghost use Rattle.proof_texts.specs.Items.{symbol_of};
ghost use Rattle.event_forms.specs.ShapeView.{theorem_seen, IsProperTheorem};
ghost use Rattle.events.specs.Defthm as spec;
ghost use Rattle.events.specs.view.Halts.{Reads};

use crate::clauses::Clauses;
use crate::halt::Halt;
use crate::kind::Kind;
use crate::redundancy::{Repeats, Statement};
use crate::translated::read_term;
use event_forms::TheoremParts;
use kernel::Proved;
use lisp_data::{Code, Form, Symbol, Symbols};
use lists::{Memory, Text};
use plans::{Claims, Condition, Entry, Plan};
use proof_texts::symbol;
use sequents::with_term;
use std::alloc::Global;
use term_forms::Scope;
use terms::{Sequent, Term, Terms};
use worlds::World;

/// `(defthm n formula ..)`.
#[derive(Clone, Copy)]
pub struct Defthm<'a> {
    pub theorem: TheoremParts<'a>,
}

/// The matrix of an assumed specification.
fn matrix<'a>(world: &'a World, form: &Form) -> Result<&'a Term, Halt>
    requires { IsProper form.now }
    ensures { Reads (λ t. t.now) (spec.matrix_named world.now (symbol_of (form_of form.now))) result }
{
    let Some(name) = symbol(form) else {
        return Err(Halt::not_an_event());
    };
    match world.find_spec(name) {
        Some(specification) => Ok(&specification.matrix),
        None => Err(Halt::named(Code::NotASpec, name)),
    }
}

/// The matrices of the specifications that a theorem assumes, each once.
#[tactic(auto, using(crate::proofs::Assumptions::assumptions))]
fn universals_of(alloc: Global, world: &World, assumed: &[Form]) -> Result<Terms, Halt>
    requires { AllProper assumed.now }
    ensures { Reads (λ us. us) (spec.universals_of world.now (map form_of assumed.now)) result }
{
    let mut universals = Terms::new(alloc);
    let mut rest = assumed;
    while let [form, more @ ..] = rest {
        let matrix = matrix(world, form)?;
        universals = with_term(universals, matrix)?;
        rest = more;
    }
    Ok(universals)
}

/// What a theorem claims.
fn claim(alloc: Global, universals: &Terms, formula: &Term) -> Result<Sequent, Memory>
    ensures { IfOk result (λ s. s ≡ spec.claim universals.now formula.now) }
{
    Ok(Sequent {
        universals: universals.copy(alloc)?,
        hyps: Terms::new(alloc),
        goal: formula.share()?,
    })
}

/// The condition that a theorem's claim is.
fn goal(alloc: Global, universals: &Terms, formula: &Term) -> Result<Condition, Memory>
    ensures { IfOk result (λ c. c ≡ spec.goal universals.now formula.now) }
{
    let name = Symbol::named(alloc, ":GOAL")?;
    let sequent = claim(alloc, universals, formula)?;
    Ok(Condition { name, sequent })
}

impl Kind for Defthm<'_> {
    ghost frame = { λ e. spec.defthm (theorem_seen e.theorem) };

    ghost proper = { λ e. IsProperTheorem e.theorem };

    fn is_lawful(&self) {
        term_forms::translated_terms_fit();
    }

    fn write_title(&self, out: &mut Text) -> Result<(), Memory> {
        out.extend(b"defthm ")?;
        out.extend(self.theorem.name.text().as_bytes())
    }

    fn shows(&self) -> bool {
        false
    }

    fn names(&self, alloc: Global) -> Result<Symbols, Memory> {
        let mut names = Symbols::new(alloc);
        names.push(self.theorem.name.share()?)?;
        Ok(names)
    }

    fn repeats(&self) -> Repeats<'_> {
        let statement = Statement {
            formula: self.theorem.formula,
            assumed: self.theorem.assumed,
        };
        Repeats::AsTheorem(self.theorem.name, statement)
    }

    fn clauses(&self) -> Clauses<'_> {
        Clauses::Goal {
            proof: self.theorem.proof,
            how: self.theorem.how,
        }
    }

    fn plan(&self, alloc: Global, world: &World) -> Result<Plan, Halt> {
        let universals = universals_of(alloc, world, self.theorem.assumed)?;
        let formula = read_term(alloc, world, self.theorem.formula, &Scope::Any)?;
        let mut plan = Plan::new(alloc);
        let claim = claim(alloc, &universals, &formula)?;
        plan.entries
            .push(Entry::Theorem(self.theorem.name.share()?, claim))?;
        plan.conditions.push(goal(alloc, &universals, &formula)?)?;
        Ok(plan)
    }

    fn finish(
        &self,
        alloc: Global,
        _world: &World,
        _plan: &Plan,
        _proved: &[Proved],
    ) -> Result<Claims, Memory> {
        Ok(Claims::new(alloc))
    }
}
