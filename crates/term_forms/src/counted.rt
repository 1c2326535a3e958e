//! Terms within the limits of a translation.

ghost use Rattle.std.specs.Prelude.{◌≡◌, IfOk};
ghost use Rattle.lisp_data.specs.ValueView.{val_of};
ghost use Rattle.terms.specs.Terms.{Var, Quote, Call, tms};
ghost use Rattle.term_forms.specs.Translation.{limited, is_limited};
ghost use Rattle.term_forms.specs.view.TranslationView.{SaysOutcome};

use crate::limits::{MAX_LEVELS, MAX_NODES};
use crate::translation::TermError;
use lisp_data::{Code, Detail, Memory, Symbol, Value};
use std::alloc::Global;
use std::marker::Model;
use terms::{Term, Terms};

/// A term within the limits, with its nodes and its levels of calls. Contracts see the term.
pub(crate) struct Counted {
    term: Term,
    nodes: u64,
    levels: u64,
}

impl Drop for Counted {
    fn drop(self) {
        let Counted {
            term: _,
            nodes: _,
            levels: _,
        } = self;
    }
}

impl Model for Counted {
    ghost use Rattle.terms.specs.Terms.{Tm, tm_code};

    ghost Value = { Tm };

    ghost coded = { tm_code };

    ghost view = { λ a. a.term };

    ghost use Rattle.term_forms.specs.view.CountedView.{IsCounted};

    ghost invariant = { IsCounted };
}

impl Counted {
    pub(crate) fn var(alloc: Global, name: Symbol) -> Result<Counted, Memory>
        ensures { IfOk result (λ t. t ≡ Var name) }
    {
        let term = Term::var(alloc, name)?;
        Ok(Counted {
            term,
            nodes: 1,
            levels: 0,
        })
    }

    pub(crate) fn quote(alloc: Global, value: Value) -> Result<Counted, Memory>
        ensures { IfOk result (λ t. t ≡ Quote (val_of value)) }
    {
        let term = Term::quote(alloc, value)?;
        Ok(Counted {
            term,
            nodes: 1,
            levels: 0,
        })
    }

    /// A call of a name on these parts, where it is within the limits.
    #[tactic(auto, using(crate::proofs::Sizes::limits, terms::proofs::Args::args))]
    pub(crate) fn call(alloc: Global, name: Symbol, parts: &[Counted]) -> Result<Counted, TermError>
        ensures { SaysOutcome (limited (Call name (tms parts.now))) result }
    {
        let mut args = Terms::new(alloc);
        let mut nodes: u64 = 1;
        let mut levels: u64 = 0;
        for part in parts {
            args.push(part.term.share()?)?;
            nodes = nodes.saturating_add(part.nodes);
            levels = levels.max(part.levels);
        }
        if nodes > MAX_NODES || levels >= MAX_LEVELS {
            return Err(TermError::Refused {
                code: Code::TermTooLarge,
                detail: Detail::Absent,
            });
        }
        let term = Term::call(alloc, name, args)?;
        Ok(Counted {
            term,
            nodes,
            levels: levels + 1,
        })
    }

    pub(crate) fn term(&self) -> &Term
        ensures { result.now ≡ self.now }
    {
        &self.term
    }

    /// The same term, with one more owner.
    pub(crate) fn share(&self) -> Result<Counted, Memory>
        ensures { IfOk result (λ t. t ≡ self.now) }
    {
        Ok(Counted {
            term: self.term.share()?,
            nodes: self.nodes,
            levels: self.levels,
        })
    }

    /// What each one keeps: the limits.
    #[tactic(auto, using(crate::proofs::Sizes::limits))]
    pub(crate) fn keeps_limits(&self)
        ensures { limited self.now ≡ Ok self.now }
    {
        let _nodes = self.nodes;
    }
}
