//! Worlds with indexes of all that they hold.

ghost use Rattle.std.specs.Prelude.{◌≡◌, IfOk, IfSome};
ghost use Rattle.std.specs.Option.{option_copied, option_map};
ghost use Rattle.lisp_data.specs.FormView.{form_of, IsProper};
ghost use Rattle.terms.specs.Primitives.{primitive, operands, lookup};
ghost use Rattle.terms.specs.Worlds.{is_in};
ghost use Rattle.terms.specs.Sound.{initial_world};
ghost use Rattle.worlds.specs.view.EntryLists.{grown};
ghost use Rattle.worlds.specs.Events.{has_event, find_defthm};
ghost use Rattle.terms.specs.Records.{find_instance};
ghost use Rattle.worlds.specs.Named.{Tells};
ghost use Rattle.worlds.specs.Names.{reserved};
ghost use Rattle.worlds.specs.Connectives.{name_of};

use crate::block::Block;
use crate::built_in::with_definitions;
use crate::built_in_theorems::with_theorems;
use crate::connectives::{Connective, Connectives};
use crate::entries::Entries;
use crate::named::Named;
use crate::names::Words;
use lisp_data::{Form, Memory, Symbol};
use std::alloc::Global;
use std::marker::Model;
use std::rc::Rc;
use terms::{FunPairs, Link};

/// A world of two blocks, a large one of older entries and a small one of those since, each with an index. Sealing more
/// entries copies the small index alone, until the small block has grown enough to join the large one. Contracts see it as
/// a world.
#[derive(Drop)]
pub(crate) struct Sealed {
    words: Rc<Words>,
    connectives: Rc<Connectives>,
    older: Rc<Block>,
    newer: Block,
    /// How many more times entries are sealed until the small block joins the large one.
    until_joined: usize,
}

impl Model for Sealed {
    ghost use Rattle.terms.specs.Worlds.{World as WorldData};
    ghost use Rattle.worlds.specs.view.Codes.{world_code};

    ghost Value = { WorldData };

    ghost coded = { world_code };

    ghost use Rattle.worlds.specs.view.EntryLists.{grown, empty_world};
    ghost use Rattle.worlds.specs.Words.{Knows};
    ghost use Rattle.worlds.specs.Connectives.{AreNames};

    ghost view = { λ s. grown s.newer (grown s.older.value empty_world) };

    ghost invariant = { λ s. Knows s.words.value × AreNames s.connectives.value };
}

/// How many entries a world seals at a time.
pub(crate) const STEP: usize = 64;

/// How many times a world with so many names seals more entries until they join the large block. The small block may
/// grow with the names, so that both are copied seldom; it has at most 4,096 entries, which bounds the recursions over them.
fn turns(names: usize) -> usize {
    (names / 4).max(1024).min(4096) / STEP
}

impl Sealed {
    /// The world that each book begins with.
    pub(crate) fn initial(alloc: Global) -> Result<Sealed, Memory>
        ensures { IfOk result (λ w. w ≡ initial_world) }
    {
        let entries = with_theorems(alloc, Entries::new())?;
        let entries = with_definitions(alloc, entries)?;
        let newer = Block::new(alloc)?;
        let older = newer.with(alloc, &entries)?;
        let until_joined = turns(older.len());
        Ok(Sealed {
            words: Rc::new(alloc, Words::new(alloc)?)?,
            connectives: Rc::new(alloc, Connectives::new(alloc)?)?,
            older: Rc::new(alloc, older)?,
            newer,
            until_joined,
        })
    }

    /// The world with more entries, the newest of them first.
    pub(crate) fn with(&self, alloc: Global, recent: &Entries) -> Result<Sealed, Memory>
        ensures { IfOk result (λ w. w ≡ grown recent.now self.now) }
    {
        let words = self.words.clone()?;
        let connectives = self.connectives.clone()?;
        let newer = self.newer.with(alloc, recent)?;
        if self.until_joined > 1 {
            return Ok(Sealed {
                words,
                connectives,
                older: self.older.clone()?,
                newer,
                until_joined: self.until_joined - 1,
            });
        }
        let older = self.older.with(alloc, newer.entries())?;
        let until_joined = turns(older.len());
        Ok(Sealed {
            words,
            connectives,
            older: Rc::new(alloc, older)?,
            newer: Block::new(alloc)?,
            until_joined,
        })
    }

    /// The number of arguments of the primitive of this name.
    pub(crate) fn operands(&self, name: &Symbol) -> Option<u32>
        ensures { result ≡ option_map operands (primitive name.now) }
    {
        self.words.operands(name)
    }

    /// Whether the name is reserved (docs/SYNTAX.md, "Names").
    pub(crate) fn is_reserved(&self, name: &Symbol) -> bool
        ensures { result ≡ is_in reserved name.now }
    {
        self.words.is_reserved(name)
    }

    /// The name of the function.
    pub(crate) fn connective(&self, connective: Connective) -> &Symbol
        ensures { result.now ≡ name_of connective }
    {
        self.connectives.name(connective)
    }

    /// What the name stands for, where it is no primitive's.
    pub(crate) fn named(&self, name: &Symbol) -> Option<Named<'_>>
        ensures { Tells self.now name.now result }
    {
        match self.newer.named(name) {
            Some(named) => Some(named),
            None => self.older.named(name),
        }
    }

    #[tactic(auto, using(crate::proofs::Lookups::joined))]
    pub(crate) fn link(&self, theorem: &Symbol) -> Option<&Link>
        ensures { option_copied result ≡ lookup self.now.links theorem.now }
    {
        match self.newer.link(theorem) {
            Some(link) => Some(link),
            None => self.older.link(theorem),
        }
    }

    #[tactic(auto, using(crate::proofs::Lookups::joined))]
    pub(crate) fn instance(&self, of: &Symbol, pairs: &FunPairs) -> Option<&Symbol>
        ensures { option_copied result ≡ find_instance self.now.instances of.now pairs.now }
    {
        match self.older.instance(of, pairs) {
            Some(instance) => Some(instance),
            None => self.newer.instance(of, pairs),
        }
    }

    #[tactic(auto, using(crate::proofs::Lookups::joined))]
    pub(crate) fn has_event(&self, form: &Form) -> bool
        requires { IsProper form.now }
        ensures { result ≡ has_event self.now.events (form_of form.now) }
    {
        self.newer.has_event(form) || self.older.has_event(form)
    }

    #[tactic(auto, using(crate::proofs::Lookups::joined))]
    pub(crate) fn defthm(&self, name: &Symbol) -> Option<&Form>
        ensures value { option_map form_of (option_copied result) ≡ find_defthm self.now.events name.now }
        ensures proper { IfSome result (λ f. IsProper f.now) }
    {
        match self.older.defthm(name) {
            Some(form) => Some(form),
            None => self.newer.defthm(name),
        }
    }
}
