//! The functions that a new function may call.

use lisp_data::Symbol;
use terms::Signatures;
use worlds::World;

/// The functions of a world, and a new function.
#[derive(Drop)]
pub(crate) struct WithOwn<'a> {
    pub world: &'a World,
    pub name: &'a Symbol,
    pub arity: usize,
}

impl Signatures for WithOwn<'_> {
    ghost use Rattle.terms.specs.Worlds.{arity};
    ghost use Rattle.events.specs.Definitions.{with_own};

    ghost arity_of = { λ s. with_own s.name.now s.arity (arity s.world.now.functions) };

    fn arity(&self, name: &Symbol) -> Option<usize> {
        if self.name.same(name) {
            Some(self.arity)
        } else {
            self.world.arity(name)
        }
    }
}
