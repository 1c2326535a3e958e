//! `in-package`.

ghost use Rattle.events.specs.InPackage as spec;

use crate::clauses::Clauses;
use crate::halt::Halt;
use crate::kind::Kind;
use crate::redundancy::Repeats;
use kernel::Proved;
use lisp_data::Symbols;
use lists::{Memory, Text};
use plans::{Claims, Plan};
use std::alloc::Global;
use worlds::World;

/// `(in-package "ACL2")`.
#[derive(Clone, Copy)]
pub struct InPackage;

impl Kind for InPackage {
    ghost frame = { λ e. spec.in_package };

    ghost proper = { λ e. Unit {0} };

    fn is_lawful(&self) {}

    fn write_title(&self, out: &mut Text) -> Result<(), Memory> {
        out.extend(b"in-package ACL2")
    }

    fn shows(&self) -> bool {
        false
    }

    fn names(&self, alloc: Global) -> Result<Symbols, Memory> {
        Ok(Symbols::new(alloc))
    }

    fn repeats(&self) -> Repeats<'_> {
        Repeats::Never
    }

    fn clauses(&self) -> Clauses<'_> {
        Clauses::NoClauses
    }

    fn plan(&self, alloc: Global, _world: &World) -> Result<Plan, Halt> {
        Ok(Plan::new(alloc))
    }

    fn finish(
        &self,
        alloc: Global,
        _world: &World,
        _plan: &Plan,
        _proved: &[Proved],
    ) -> Result<Claims, Memory> {
        Ok(Claims::new(alloc))
    }
}
