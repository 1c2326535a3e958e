//! Lists of entries, the newest first, that share their tails.

ghost use Rattle.std.specs.Prelude.{◌≡◌, [], ◌∷◌, ◌++◌, IfOk, IfSome, IfNone};
ghost use Rattle.std.specs.Option.{option_copied, option_map};
ghost use Rattle.lisp_data.specs.FormView.{form_of, IsProper};
ghost use Rattle.worlds.specs.view.EntryLists.{first, last, any};
ghost use Rattle.worlds.specs.Entries.{IsProperEntry, instance_in, link_of, is_event, defthm_of};
ghost use Rattle.worlds.specs.Named.{Gives};
ghost use Rattle.worlds.specs.declared.entry.Entry.TheVariants.{Function as FunctionEntry, Theorem as TheoremEntry};

use crate::entry::Entry;
use crate::named::Named;
use lisp_data::{Form, Memory, Symbol};
use std::alloc::{AllocError, Global};
use std::marker::Model;
use std::rc::Rc;
use terms::{Definition, FunPairs, Link, Sequent};

/// Entries, the newest first. A list never changes; a longer one shares all of it.
#[cycle(entries)]
pub(crate) struct Entries {
    top: Top,
}

// As a loop, since a derived one would call itself once for each entry.
impl Drop for Entries {
    fn drop(mut self) {
        loop {
            let Entries { top } = self;
            let Top::More(layer) = top else {
                return;
            };
            let Some(layer) = Rc::into_inner(layer) else {
                return;
            };
            let Layer { entry: _, rest } = layer;
            self = rest;
        }
    }
}

#[cycle(entries)]
#[derive(Drop)]
enum Top {
    Empty,
    More(Rc<Layer>),
}

#[cycle(entries)]
#[derive(Drop)]
struct Layer {
    entry: Rc<Entry>,
    rest: Entries,
}

impl Model for Entries {
    ghost use Rattle.std.specs.Prelude.{List, length};
    ghost use Rattle.worlds.specs.declared.entry.Entry.{Entry as EntryData};

    ghost Value = { List EntryData };

    ghost use Rattle.std.specs.Coded.{coded_list};
    ghost use Rattle.worlds.specs.contracts.entry.Entry as entry;

    ghost coded = { coded_list entry.the_row.coded };

    ghost use Rattle.worlds.specs.view.EntryLists.{entries_of, IsProperNewest};

    ghost view = { λ es. entries_of es.top };

    ghost invariant = { λ es. IsProperNewest es.top };

    ghost size = { length };

    ghost use Rattle.std.proofs.Common.{arith, length-append};

    ghost size_decreases = { λ a h. Prim.grind (arith, length-append) };
}

impl Clone for Entries {
    ghost is_clone = { λ entries copy. copy ≡ entries };

    fn clone(&self) -> Result<Entries, AllocError> {
        let top = match &self.top {
            Top::Empty => Top::Empty,
            Top::More(layer) => Top::More(layer.clone()?),
        };
        Ok(Entries { top })
    }
}

impl Entries {
    pub(crate) fn new() -> Entries
        ensures { result ≡ [] }
    {
        Entries { top: Top::Empty }
    }

    /// With one more entry.
    pub(crate) fn with(&self, alloc: Global, entry: Rc<Entry>) -> Result<Entries, Memory>
        requires { IsProperEntry entry.value }
        ensures { IfOk result (λ es. es ≡ entry.value ∷ self.now) }
    {
        let rest = self.clone()?;
        let layer = Rc::new(alloc, Layer { entry, rest })?;
        Ok(Entries {
            top: Top::More(layer),
        })
    }

    /// With one more function.
    pub(crate) fn with_function(
        &self,
        alloc: Global,
        definition: Definition,
    ) -> Result<Entries, Memory>
        ensures { IfOk result (λ es. es ≡ FunctionEntry definition ∷ self.now) }
    {
        let entry = Rc::new(alloc, Entry::Function(definition))?;
        self.with(alloc, entry)
    }

    /// With one more theorem.
    pub(crate) fn with_theorem(
        &self,
        alloc: Global,
        name: Symbol,
        sequent: Sequent,
    ) -> Result<Entries, Memory>
        ensures { IfOk result (λ es. es ≡ TheoremEntry name sequent ∷ self.now) }
    {
        let entry = Rc::new(alloc, Entry::Theorem(name, sequent))?;
        self.with(alloc, entry)
    }

    /// With these entries on top, the newest of them first.
    pub(crate) fn with_all(&self, alloc: Global, newer: &Entries) -> Result<Entries, Memory>
        ensures { IfOk result (λ es. es ≡ newer.now ++ self.now) }
    {
        match &newer.top {
            Top::Empty => Ok(self.clone()?),
            Top::More(layer) => {
                let older = self.with_all(alloc, &layer.rest)?;
                older.with(alloc, layer.entry.clone()?)
            }
        }
    }

    /// The newest entry, and the others.
    pub(crate) fn newest(&self) -> Option<(&Rc<Entry>, &Entries)>
        ensures none { IfNone result (self.now ≡ []) }
        ensures some { IfSome result (λ p. self.now ≡ p.0.now.value ∷ p.1.now) }
        ensures proper { IfSome result (λ p. IsProperEntry p.0.now.value) }
    {
        match &self.top {
            Top::Empty => None,
            Top::More(layer) => Some((&layer.entry, &layer.rest)),
        }
    }

    /// What the newest entry that gives the name away gives it to.
    pub(crate) fn named<'a>(&'a self, name: &Symbol) -> Option<Named<'a>>
        ensures { Gives name.now self.now result }
    {
        let mut entries = self;
        while let Top::More(layer) = &entries.top {
            if let Some(named) = layer.entry.named(name) {
                return Some(named);
            }
            entries = &layer.rest;
        }
        None
    }

    /// The newest link of the name.
    pub(crate) fn link<'a>(&'a self, name: &Symbol) -> Option<&'a Link>
        ensures { option_copied result ≡ first (λ e. link_of e name.now) self.now }
    {
        let mut entries = self;
        while let Top::More(layer) = &entries.top {
            if let Some(found) = layer.entry.link(name) {
                return Some(found);
            }
            entries = &layer.rest;
        }
        None
    }

    /// Whether one of them is an event of this form.
    pub(crate) fn has_event(&self, form: &Form) -> bool
        requires { IsProper form.now }
        ensures { result ≡ any (λ e. is_event e (form_of form.now)) self.now }
    {
        let mut entries = self;
        while let Top::More(layer) = &entries.top {
            if layer.entry.is_event(form) {
                return true;
            }
            entries = &layer.rest;
        }
        false
    }

    /// The earliest instance of the function for these pairs.
    #[tactic(auto, using(crate::proofs::Lookups::later))]
    pub(crate) fn instance<'a>(&'a self, of: &Symbol, pairs: &FunPairs) -> Option<&'a Symbol>
        ensures { option_copied result ≡ last (λ e. instance_in e of.now pairs.now) self.now }
    {
        let mut found = None;
        let mut entries = self;
        while let Top::More(layer) = &entries.top {
            found = layer.entry.instance(of, pairs).or(found);
            entries = &layer.rest;
        }
        found
    }

    /// The earliest event `(defthm NAME ..)`.
    #[tactic(auto, using(crate::proofs::Lookups::later))]
    pub(crate) fn defthm<'a>(&'a self, name: &Symbol) -> Option<&'a Form>
        ensures value { option_map form_of (option_copied result) ≡ last (λ e. defthm_of e name.now) self.now }
        ensures proper { IfSome result (λ f. IsProper f.now) }
    {
        let mut found = None;
        let mut entries = self;
        while let Top::More(layer) = &entries.top {
            found = layer.entry.defthm(name).or(found);
            entries = &layer.rest;
        }
        found
    }
}
