//! Functions whose names rules need again and again, and these names, each made once.
#![tactic(auto, unfolding(lisp_data::specs::SymbolText::is_symbol_text, lisp_data::specs::Atoms::leaf, lisp_data::specs::Atoms::in_atom, lisp_data::specs::Atoms::is_delimiter, lisp_data::specs::Atoms::is_sign))]

ghost use Rattle.std.specs.Prelude.{◌≡◌, IfOk};
ghost use Rattle.worlds.specs.Connectives.{name_of, AreNames};

use lisp_data::{Memory, Symbol};
use std::alloc::Global;

/// A function whose name rules need again and again.
#[derive(Clone, Copy, Debug, PartialEq, Eq)]
pub enum Connective {
    Equal,
    Implies,
    Not,
    If,
    Natp,
    Less,
}

/// Their names. All worlds of a run share them.
#[derive(Drop)]
pub(crate) struct Connectives {
    equal: Symbol,
    implies: Symbol,
    not: Symbol,
    conditional: Symbol,
    natp: Symbol,
    less: Symbol,
}

impl Connectives {
    pub(crate) fn new(alloc: Global) -> Result<Connectives, Memory>
        ensures { IfOk result AreNames }
    {
        Ok(Connectives {
            equal: Symbol::named(alloc, "EQUAL")?,
            implies: Symbol::named(alloc, "IMPLIES")?,
            not: Symbol::named(alloc, "NOT")?,
            conditional: Symbol::named(alloc, "IF")?,
            natp: Symbol::named(alloc, "NATP")?,
            less: Symbol::named(alloc, "<")?,
        })
    }

    /// The name of the function.
    pub(crate) fn name(&self, connective: Connective) -> &Symbol
        requires { AreNames self.now }
        ensures { result.now ≡ name_of connective }
    {
        match connective {
            Connective::Equal => &self.equal,
            Connective::Implies => &self.implies,
            Connective::Not => &self.not,
            Connective::If => &self.conditional,
            Connective::Natp => &self.natp,
            Connective::Less => &self.less,
        }
    }
}
