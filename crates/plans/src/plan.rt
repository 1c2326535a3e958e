//! What an event adds to a world, and what has to be proved for it.

use lisp_data::{Seq, Symbol};
use std::alloc::Global;
use terms::{Definition, FunPairs, Iso, Link, Sequent, Specification};

/// What an event adds to a world.
pub enum Entry {
    Function(Definition),
    /// A function variable, with the number of its arguments.
    Variable(Symbol, u32),
    /// A sequent that holds, by its name.
    Theorem(Symbol, Sequent),
    Spec(Specification),
    Isomorphism(Iso),
    /// A function's instance for some pairs of a variable and a function.
    Instance(Symbol, FunPairs, Symbol),
    /// What the theorem of this name says.
    Chained(Symbol, Link),
}

impl Drop for Entry {
    fn drop(self) {
        match self {
            Entry::Function(_) => {}
            Entry::Variable(_, _) => {}
            Entry::Theorem(_, _) => {}
            Entry::Spec(_) => {}
            Entry::Isomorphism(_) => {}
            Entry::Instance(_, _, _) => {}
            Entry::Chained(_, _) => {}
        }
    }
}

/// A list of entries, in the order in which they are added.
pub type Entries = Seq<Entry>;

/// What the book has to prove, under its name.
pub struct Condition {
    pub name: Symbol,
    pub sequent: Sequent,
}

impl Drop for Condition {
    fn drop(self) {
        let Condition {
            name: _,
            sequent: _,
        } = self;
    }
}

/// A list of conditions, in order.
pub type Conditions = Seq<Condition>;

/// A list of sequents, in order.
pub type Sequents = Seq<Sequent>;

/// What an event makes, what the book has to prove for it, and what is proved from that: sequents of the world before the event, and of the
/// world with its functions.
pub struct Plan {
    pub entries: Entries,
    pub conditions: Conditions,
    pub before: Sequents,
    pub after: Sequents,
}

impl Drop for Plan {
    fn drop(self) {
        let Plan {
            entries: _,
            conditions: _,
            before: _,
            after: _,
        } = self;
    }
}

impl Plan {
    ghost use Rattle.std.specs.Prelude.{◌≡◌};
    ghost use Rattle.plans.specs.Plans.{no_plan};

    /// Nothing is made, and nothing has to be proved.
    pub fn new(alloc: Global) -> Plan
        ensures { result ≡ no_plan }
    {
        Plan {
            entries: Entries::new(alloc),
            conditions: Conditions::new(alloc),
            before: Sequents::new(alloc),
            after: Sequents::new(alloc),
        }
    }
}
