//! `defun-sk2`.

ghost use Rattle.lisp_data.specs.FormView.{form_of, IsProper};
ghost use Rattle.terms.specs.Worlds.{arity, is_in};
ghost use Rattle.term_forms.specs.Translation.{translate};
ghost use Rattle.event_forms.specs.ShapeView.{specification_seen, IsProperSpecification};
ghost use Rattle.events.specs.DefunSk2 as spec;
ghost use Rattle.events.specs.view.Halts.{Reads};

use crate::clauses::Clauses;
use crate::definitions::read_variables;
use crate::halt::Halt;
use crate::kind::Kind;
use crate::orders::{Order, check_order};
use crate::redundancy::Repeats;
use crate::translated::read_term;
use event_forms::SpecificationParts;
use kernel::Proved;
use lisp_data::{Form, Symbols};
use lists::{Memory, Text};
use plans::{Claims, Entry, Plan};
use sequents::only;
use std::alloc::Global;
use term_forms::Scope;
use terms::{Specification, Term};
use worlds::World;

/// `(defun-sk2 s () (forall (x ..) matrix))`.
#[derive(Clone, Copy)]
pub struct DefunSk2<'a> {
    pub specification: SpecificationParts<'a>,
}

/// The matrix over the variables.
fn read_matrix(alloc: Global, world: &World, variables: &Symbols, form: &Form) -> Result<Term, Halt>
    requires { IsProper form.now }
    ensures { Reads (λ t. t) (translate (arity world.now.functions) (is_in variables.now) (form_of form.now)) result }
{
    read_term(alloc, world, form, &Scope::Only(variables))
}

/// A specification over its variables.
fn read_over(
    alloc: Global,
    world: &World,
    parts: &SpecificationParts<'_>,
    variables: Symbols,
) -> Result<Specification, Halt>
    requires { IsProperSpecification parts.now }
    ensures { Reads (λ s. s) (spec.specification_over world.now (specification_seen parts.now) variables) result }
{
    let matrix = read_matrix(alloc, world, &variables, parts.matrix)?;
    let terms = only(alloc, &matrix)?;
    check_order(alloc, world, Order::Second, &terms)?;
    let name = parts.name.share()?;
    Ok(Specification {
        name,
        variables,
        matrix,
    })
}

/// A specification by its parts.
fn read_specification(
    alloc: Global,
    world: &World,
    parts: &SpecificationParts<'_>,
) -> Result<Specification, Halt>
    requires { IsProperSpecification parts.now }
    ensures { Reads (λ s. s) (spec.specification_of world.now (specification_seen parts.now)) result }
{
    let variables = read_variables(alloc, parts.variables)?;
    read_over(alloc, world, parts, variables)
}

impl Kind for DefunSk2<'_> {
    ghost frame = { λ e. spec.defun_sk2 (specification_seen e.specification) };

    ghost proper = { λ e. IsProperSpecification e.specification };

    fn is_lawful(&self) {
        term_forms::translated_terms_fit();
    }

    fn write_title(&self, out: &mut Text) -> Result<(), Memory> {
        out.extend(b"defun-sk2 ")?;
        out.extend(self.specification.name.text().as_bytes())
    }

    fn shows(&self) -> bool {
        false
    }

    fn names(&self, alloc: Global) -> Result<Symbols, Memory> {
        let mut names = Symbols::new(alloc);
        names.push(self.specification.name.share()?)?;
        Ok(names)
    }

    fn repeats(&self) -> Repeats<'_> {
        Repeats::AsForm
    }

    fn clauses(&self) -> Clauses<'_> {
        Clauses::NoClauses
    }

    fn plan(&self, alloc: Global, world: &World) -> Result<Plan, Halt> {
        let specification = read_specification(alloc, world, &self.specification)?;
        let mut plan = Plan::new(alloc);
        plan.entries.push(Entry::Spec(specification))?;
        Ok(plan)
    }

    fn finish(
        &self,
        alloc: Global,
        _world: &World,
        _plan: &Plan,
        _proved: &[Proved],
    ) -> Result<Claims, Memory> {
        Ok(Claims::new(alloc))
    }
}
