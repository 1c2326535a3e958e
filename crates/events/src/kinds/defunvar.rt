//! `defunvar`.

ghost use Rattle.event_forms.specs.ShapeView.{variable_seen};
ghost use Rattle.events.specs.Defunvar as spec;

use crate::clauses::Clauses;
use crate::halt::Halt;
use crate::kind::Kind;
use crate::redundancy::Repeats;
use event_forms::VariableParts;
use kernel::Proved;
use lisp_data::Symbols;
use lists::{Memory, Text};
use plans::{Claims, Entry, Plan};
use std::alloc::Global;
use worlds::World;

/// `(defunvar ?f (* ..) => *)`.
#[derive(Clone, Copy)]
pub struct Defunvar<'a> {
    pub variable: VariableParts<'a>,
}

impl Kind for Defunvar<'_> {
    ghost frame = { λ e. spec.defunvar (variable_seen e.variable) };

    ghost proper = { λ e. Unit {0} };

    fn is_lawful(&self) {}

    fn write_title(&self, out: &mut Text) -> Result<(), Memory> {
        out.extend(b"defunvar ")?;
        out.extend(self.variable.name.text().as_bytes())
    }

    fn shows(&self) -> bool {
        false
    }

    fn names(&self, alloc: Global) -> Result<Symbols, Memory> {
        let mut names = Symbols::new(alloc);
        names.push(self.variable.name.share()?)?;
        Ok(names)
    }

    fn repeats(&self) -> Repeats<'_> {
        Repeats::AsForm
    }

    fn clauses(&self) -> Clauses<'_> {
        Clauses::NoClauses
    }

    fn plan(&self, alloc: Global, _world: &World) -> Result<Plan, Halt> {
        let name = self.variable.name.share()?;
        let mut plan = Plan::new(alloc);
        plan.entries
            .push(Entry::Variable(name, self.variable.arity))?;
        Ok(plan)
    }

    fn finish(
        &self,
        alloc: Global,
        _world: &World,
        _plan: &Plan,
        _proved: &[Proved],
    ) -> Result<Claims, Memory> {
        Ok(Claims::new(alloc))
    }
}
