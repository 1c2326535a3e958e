//! `defun` and `defun2`.

ghost use Rattle.std.specs.Prelude.{◌≡◌};
ghost use Rattle.event_forms.specs.ShapeView.{function_seen, IsProperFunction};
ghost use Rattle.events.specs.Defun as spec;

use crate::clauses::Clauses;
use crate::definitions::read_definition;
use crate::halt::Halt;
use crate::kind::Kind;
use crate::orders::Order;
use crate::owed::measure_conditions;
use crate::redundancy::Repeats;
use event_forms::FunctionParts;
use kernel::Proved;
use lisp_data::Symbols;
use lists::{Memory, Text};
use plans::{Claims, Entry, Plan};
use std::alloc::Global;
use worlds::World;

/// `(defun f (x ..) .. body)`, or `defun2`, which is of second order.
#[derive(Clone, Copy)]
pub struct Defun<'a> {
    pub order: Order,
    pub function: FunctionParts<'a>,
}

/// The word of the event, and a blank.
fn word(order: Order) -> &'static str
    ensures { result.now ≡ spec.word order }
{
    match order {
        Order::First => "defun ",
        Order::Second => "defun2 ",
    }
}

impl Kind for Defun<'_> {
    ghost frame = { λ e. spec.defun e.order (function_seen e.function) };

    ghost proper = { λ e. IsProperFunction e.function };

    fn is_lawful(&self) {
        term_forms::translated_terms_fit();
    }

    fn write_title(&self, out: &mut Text) -> Result<(), Memory> {
        out.extend(word(self.order).as_bytes())?;
        out.extend(self.function.name.text().as_bytes())
    }

    fn shows(&self) -> bool {
        false
    }

    fn names(&self, alloc: Global) -> Result<Symbols, Memory> {
        let mut names = Symbols::new(alloc);
        names.push(self.function.name.share()?)?;
        Ok(names)
    }

    fn repeats(&self) -> Repeats<'_> {
        Repeats::AsForm
    }

    fn clauses(&self) -> Clauses<'_> {
        Clauses::Each {
            proofs: self.function.proofs,
            hows: self.function.hows,
        }
    }

    fn plan(&self, alloc: Global, world: &World) -> Result<Plan, Halt> {
        world.soundness();
        term_forms::translated_terms_fit();
        let definition = read_definition(alloc, world, self.order, &self.function)?;
        let mut plan = Plan::new(alloc);
        plan.conditions = measure_conditions(alloc, &definition)?;
        plan.entries.push(Entry::Function(definition))?;
        Ok(plan)
    }

    fn finish(
        &self,
        alloc: Global,
        _world: &World,
        _plan: &Plan,
        _proved: &[Proved],
    ) -> Result<Claims, Memory> {
        Ok(Claims::new(alloc))
    }
}
