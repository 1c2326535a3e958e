//! What a world has besides functions and theorems.

ghost use Rattle.std.specs.Prelude.{◌≡◌, IfOk};

use crate::term::Term;
use lisp_data::{Memory, Seq, Share, Symbol, Symbols};
use std::alloc::Global;

/// A specification of a function variable: its matrix, for all values of the variables.
#[derive(Drop)]
pub struct Specification {
    pub name: Symbol,
    pub variables: Symbols,
    pub matrix: Term,
}

impl Specification {
    /// An equal specification, with its matrix shared.
    pub fn copy(&self, alloc: Global) -> Result<Specification, Memory>
        ensures { IfOk result (λ s. s ≡ self.now) }
    {
        Ok(Specification {
            name: self.name.share()?,
            variables: self.variables.copy(alloc)?,
            matrix: self.matrix.share()?,
        })
    }
}

/// Two predicates, and two functions that map them into each other and undo each other.
#[derive(Drop)]
pub struct Iso {
    pub name: Symbol,
    pub oldp: Symbol,
    pub newp: Symbol,
    pub forth: Symbol,
    pub back: Symbol,
}

impl Iso {
    /// An equal isomorphism.
    pub fn copy(&self, _alloc: Global) -> Result<Iso, Memory>
        ensures { IfOk result (λ i. i ≡ self.now) }
    {
        Ok(Iso {
            name: self.name.share()?,
            oldp: self.oldp.share()?,
            newp: self.newp.share()?,
            forth: self.forth.share()?,
            back: self.back.share()?,
        })
    }
}

/// An isomorphism at a position of a function's formals.
#[derive(Drop)]
pub struct IsoUse {
    pub position: u32,
    pub oldp: Symbol,
    pub forth: Symbol,
}

impl IsoUse {
    /// An equal use.
    pub fn copy(&self, _alloc: Global) -> Result<IsoUse, Memory>
        ensures { IfOk result (λ u. u ≡ self.now) }
    {
        self.share()
    }
}

impl Share for IsoUse {
    fn share(&self) -> Result<IsoUse, Memory> {
        Ok(IsoUse {
            position: self.position,
            oldp: self.oldp.share()?,
            forth: self.forth.share()?,
        })
    }
}

/// A list of uses of isomorphisms.
pub type IsoUses = Seq<IsoUse>;

/// A function for a function variable.
#[derive(Drop)]
pub struct FunPair {
    pub variable: Symbol,
    pub function: Symbol,
}

impl FunPair {
    /// An equal pair.
    pub fn copy(&self, _alloc: Global) -> Result<FunPair, Memory>
        ensures { IfOk result (λ p. p ≡ self.now) }
    {
        self.share()
    }
}

impl Share for FunPair {
    fn share(&self) -> Result<FunPair, Memory> {
        Ok(FunPair {
            variable: self.variable.share()?,
            function: self.function.share()?,
        })
    }
}

/// A list of functions for function variables.
pub type FunPairs = Seq<FunPair>;

/// What a transformation's theorem says, for the walk of `conclude`.
#[derive(Drop)]
pub enum Link {
    Schema {
        spec: Symbol,
        variable: Symbol,
        algo: Symbol,
        spec_atom: Symbol,
        spec_cons: Symbol,
    },
    Solution {
        spec: Symbol,
        variable: Symbol,
        function: Symbol,
    },
    Restriction {
        old: Symbol,
        new: Symbol,
        formals: Symbols,
        condition: Term,
    },
    Isomorphism {
        old: Symbol,
        new: Symbol,
        maps: IsoUses,
    },
    TailRecursion {
        old: Symbol,
        wrapper: Symbol,
    },
}

impl Link {
    /// An equal link, with its terms shared.
    pub fn copy(&self, alloc: Global) -> Result<Link, Memory>
        ensures { IfOk result (λ l. l ≡ self.now) }
    {
        match self {
            Link::Schema {
                spec,
                variable,
                algo,
                spec_atom,
                spec_cons,
            } => Ok(Link::Schema {
                spec: spec.share()?,
                variable: variable.share()?,
                algo: algo.share()?,
                spec_atom: spec_atom.share()?,
                spec_cons: spec_cons.share()?,
            }),
            Link::Solution {
                spec,
                variable,
                function,
            } => Ok(Link::Solution {
                spec: spec.share()?,
                variable: variable.share()?,
                function: function.share()?,
            }),
            Link::Restriction {
                old,
                new,
                formals,
                condition,
            } => Ok(Link::Restriction {
                old: old.share()?,
                new: new.share()?,
                formals: formals.copy(alloc)?,
                condition: condition.share()?,
            }),
            Link::Isomorphism { old, new, maps } => Ok(Link::Isomorphism {
                old: old.share()?,
                new: new.share()?,
                maps: maps.copy(alloc)?,
            }),
            Link::TailRecursion { old, wrapper } => Ok(Link::TailRecursion {
                old: old.share()?,
                wrapper: wrapper.share()?,
            }),
        }
    }
}

/// A sequent that holds in a world: a theorem, an obligation of a definition, counted from 0, or a condition of an isomorphism, counted from 1.
#[derive(Drop)]
pub enum FactName {
    Theorem(Symbol),
    Measure(Symbol, u32),
    Isomorphism(Symbol, u32),
}

impl FactName {
    /// An equal name.
    pub fn copy(&self, _alloc: Global) -> Result<FactName, Memory>
        ensures { IfOk result (λ n. n ≡ self.now) }
    {
        match self {
            FactName::Theorem(name) => Ok(FactName::Theorem(name.share()?)),
            FactName::Measure(name, number) => Ok(FactName::Measure(name.share()?, *number)),
            FactName::Isomorphism(name, number) => {
                Ok(FactName::Isomorphism(name.share()?, *number))
            }
        }
    }
}
