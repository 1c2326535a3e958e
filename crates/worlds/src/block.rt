//! Lists of entries with an index of all of them.

ghost use Rattle.std.specs.Prelude.{◌≡◌, [], ◌++◌, IfOk, IfSome};
ghost use Rattle.std.specs.Option.{option_copied, option_map};
ghost use Rattle.lisp_data.specs.FormView.{form_of, IsProper};
ghost use Rattle.worlds.specs.view.EntryLists.{first, last, any};
ghost use Rattle.worlds.specs.Entries.{instance_in, link_of, is_event, defthm_of};
ghost use Rattle.worlds.specs.Named.{Gives};

use crate::entries::Entries;
use crate::entry::event_key;
use crate::index::Index;
use crate::named::Named;
use lisp_data::{Form, Memory, Symbol};
use std::alloc::Global;
use std::marker::Model;
use terms::{FunPairs, Link};

/// Entries, the newest first, with an index of all of them. Contracts see it as the list.
#[derive(Drop)]
pub(crate) struct Block {
    entries: Entries,
    index: Index,
}

impl Model for Block {
    ghost use Rattle.std.specs.Prelude.{List};
    ghost use Rattle.worlds.specs.declared.entry.Entry.{Entry as EntryData};

    ghost Value = { List EntryData };

    ghost use Rattle.std.specs.Coded.{coded_list};
    ghost use Rattle.worlds.specs.contracts.entry.Entry as entry;

    ghost coded = { coded_list entry.the_row.coded };

    ghost use Rattle.worlds.specs.view.EntryLists.{grown, empty_world};
    ghost use Rattle.worlds.specs.view.Indexes.{Answers};

    ghost view = { λ b. b.entries };

    ghost invariant = { λ b. Answers b.index (grown b.entries empty_world) };
}

impl Block {
    /// A block of no entries.
    pub(crate) fn new(alloc: Global) -> Result<Block, Memory>
        ensures { IfOk result (λ b. b ≡ []) }
    {
        Ok(Block {
            entries: Entries::new(),
            index: Index::new(alloc)?,
        })
    }

    /// A block with more entries, the newest of them first.
    pub(crate) fn with(&self, alloc: Global, newer: &Entries) -> Result<Block, Memory>
        ensures { IfOk result (λ b. b ≡ newer.now ++ self.now) }
    {
        let entries = self.entries.with_all(alloc, newer)?;
        let mut index = self.index.copy()?;
        index.add_all(alloc, newer)?;
        Ok(Block { entries, index })
    }

    /// The entries alone.
    pub(crate) fn entries(&self) -> &Entries
        ensures { result.now ≡ self.now }
    {
        &self.entries
    }

    /// How many names it has.
    pub(crate) fn len(&self) -> usize {
        self.index.len()
    }

    /// What the newest entry that gives the name away gives it to.
    pub(crate) fn named(&self, name: &Symbol) -> Option<Named<'_>>
        ensures { Gives name.now self.now result }
    {
        self.index.at(name).named(name)
    }

    /// The newest link of the name.
    pub(crate) fn link(&self, name: &Symbol) -> Option<&Link>
        ensures { option_copied result ≡ first (λ e. link_of e name.now) self.now }
    {
        self.index.at(name).link(name)
    }

    /// Whether one of them is an event of this form.
    #[tactic(auto, using(crate::proofs::Lookups::alone))]
    pub(crate) fn has_event(&self, form: &Form) -> bool
        requires { IsProper form.now }
        ensures { result ≡ any (λ e. is_event e (form_of form.now)) self.now }
    {
        let name = event_key(form, &self.index.none);
        self.index.at(name).has_event(form)
    }

    /// The earliest instance of the function for these pairs.
    pub(crate) fn instance(&self, of: &Symbol, pairs: &FunPairs) -> Option<&Symbol>
        ensures { option_copied result ≡ last (λ e. instance_in e of.now pairs.now) self.now }
    {
        self.index.at(of).instance(of, pairs)
    }

    /// The earliest event `(defthm NAME ..)`.
    pub(crate) fn defthm(&self, name: &Symbol) -> Option<&Form>
        ensures value { option_map form_of (option_copied result) ≡ last (λ e. defthm_of e name.now) self.now }
        ensures proper { IfSome result (λ f. IsProper f.now) }
    {
        self.index.at(name).defthm(name)
    }
}
