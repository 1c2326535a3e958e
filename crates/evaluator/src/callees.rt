//! What names stand for in calls, kept from one call to the next.

ghost use Rattle.std.specs.Prelude.{◌<◌, List, IfOk};
ghost use Rattle.terms.specs.declared.definition.Definition.{Definition};
ghost use Rattle.evaluator.specs.view.Callees.{IsCallee, Knows};

use crate::primitives::{Primitive, find_primitive};
use lisp_data::{Memory, Symbol};
use std::alloc::Global;
use terms::Definition;
use worlds::World;

const SLOTS: usize = 64;

/// What a name stands for in a call.
#[derive(Clone, Copy)]
pub(crate) enum Callee<'a> {
    Primitive(Primitive),
    Defined(&'a Definition),
    /// Neither of these: a function variable.
    Variable,
}

#[derive(Clone, Copy)]
struct Known<'a> {
    name: &'a Symbol,
    callee: Callee<'a>,
}

/// What was found of names, at most one for each slot. So a loop searches its functions once.
#[derive(Drop)]
pub(crate) struct Callees<'a> {
    slots: Vec<Option<Known<'a>>>,
}

/// The slot of a name.
fn slot_of(name: &Symbol) -> usize
    ensures { result < 64 }
{
    let mut sum: u32 = 0;
    for byte in name.text().as_bytes() {
        sum = sum.wrapping_mul(31).wrapping_add(*byte as u32);
    }
    sum as usize % SLOTS
}

/// What a name stands for, by a search.
fn search<'a>(world: &'a World, name: &Symbol) -> Callee<'a>
    ensures { IsCallee world.now.functions.defs name.now result }
{
    if let Some(primitive) = find_primitive(name) {
        return Callee::Primitive(primitive);
    }
    match world.find_definition(name) {
        Some(definition) => Callee::Defined(definition),
        None => Callee::Variable,
    }
}

impl<'a> Callees<'a> {
    /// Nothing is known.
    pub(crate) fn new(alloc: Global) -> Result<Callees<'a>, Memory>
        ensures { IfOk result (λ c. (ds : List Definition) → Knows ds c) }
    {
        let slots = vec![in alloc; None; SLOTS]?;
        Ok(Callees { slots })
    }

    /// What a name stands for.
    pub(crate) fn find(&mut self, world: &'a World, name: &'a Symbol) -> Callee<'a>
        requires { Knows world.now.functions.defs self.old }
        ensures callee { IsCallee world.now.functions.defs name.now result }
        ensures known { Knows world.now.functions.defs self.new }
    {
        let slot = slot_of(name);
        if let Some(known) = &self.slots[slot] {
            if known.name.same(name) {
                return known.callee;
            }
        }
        let callee = search(world, name);
        self.slots[slot] = Some(Known { name, callee });
        callee
    }
}
