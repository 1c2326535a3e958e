//! `include-book`.

ghost use Rattle.events.specs.IncludeBook as spec;

use crate::clauses::Clauses;
use crate::halt::Halt;
use crate::kind::Kind;
use crate::redundancy::Repeats;
use kernel::Proved;
use lisp_data::Symbols;
use lists::{Memory, Text};
use plans::{Claims, Plan};
use std::alloc::Global;
use worlds::World;

/// `(include-book "NAME")`.
#[derive(Clone, Copy)]
pub struct IncludeBook<'a> {
    pub book: &'a [u8],
}

impl Kind for IncludeBook<'_> {
    ghost frame = { λ e. spec.include_book e.book.now };

    ghost proper = { λ e. Unit {0} };

    fn is_lawful(&self) {}

    fn write_title(&self, out: &mut Text) -> Result<(), Memory> {
        out.extend(b"include-book ")?;
        out.extend(self.book)
    }

    fn shows(&self) -> bool {
        false
    }

    fn names(&self, alloc: Global) -> Result<Symbols, Memory> {
        Ok(Symbols::new(alloc))
    }

    fn repeats(&self) -> Repeats<'_> {
        Repeats::Never
    }

    fn clauses(&self) -> Clauses<'_> {
        Clauses::NoClauses
    }

    fn plan(&self, alloc: Global, _world: &World) -> Result<Plan, Halt> {
        Ok(Plan::new(alloc))
    }

    fn finish(
        &self,
        alloc: Global,
        _world: &World,
        _plan: &Plan,
        _proved: &[Proved],
    ) -> Result<Claims, Memory> {
        Ok(Claims::new(alloc))
    }
}
