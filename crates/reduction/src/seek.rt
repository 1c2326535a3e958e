//! The first part of a term at which a kind of step finds something.

ghost use Rattle.std.specs.Prelude.{◌≡◌, IfOk};
ghost use Rattle.std.specs.Option.{option_map};
ghost use Rattle.terms.specs.Terms.{tms};
ghost use Rattle.reduction.specs.Seek as spec;
ghost use Rattle.reduction.specs.Finds.{finds};
ghost use Rattle.reduction.specs.Hyps.{left};
ghost use Rattle.reduction.specs.Seek.{turned, placed};

use crate::found::At;
use crate::hyps::Others;
use crate::kinds::{Kind, Setting};
use crate::paths::{placed, reversed};
use lisp_data::{Memory, Seq};
use std::alloc::Global;
use terms::{Node, Term};

/// The arguments before their call. The path is the one from the part up.
#[cycle(seek)]
#[tactic(auto, using(crate::proofs::Seeking::seeking))]
fn seek_up(
    alloc: Global,
    setting: &Setting<'_>,
    kind: Kind,
    others: &Others<'_>,
    whole: bool,
    term: &Term,
) -> Result<Option<At>, Memory>
    ensures { IfOk result (λ o. option_map turned o ≡ spec.seek (finds setting.now.world.now setting.now.how.now kind (left others.now)) whole term.now) }
{
    if let Node::Call(_, args) = term.node() {
        let inside = seek_up_in(alloc, setting, kind, others, args.as_slice())?;
        if let Some(at) = inside {
            return Ok(Some(at));
        }
    }
    match kind.finds(alloc, setting, others, whole, term)? {
        None => Ok(None),
        Some(found) => Ok(Some(At {
            path: Seq::new(alloc),
            part: term.share()?,
            found,
        })),
    }
}

#[cycle(seek)]
#[tactic(auto, using(crate::proofs::Seeking::seeking))]
fn seek_up_in(
    alloc: Global,
    setting: &Setting<'_>,
    kind: Kind,
    others: &Others<'_>,
    args: &[Term],
) -> Result<Option<At>, Memory>
    ensures { IfOk result (λ o. option_map turned o ≡ option_map placed (spec.seek_in (finds setting.now.world.now setting.now.how.now kind (left others.now)) (tms args.now))) }
{
    for i in 0..args.len() {
        if let Some(at) = seek_up(alloc, setting, kind, others, false, &args[i])? {
            let at = placed(at, i)?;
            return Ok(Some(at));
        }
    }
    Ok(None)
}

/// The first part of the term at which the kind finds something, by these hypotheses; arguments stand before their call.
pub(crate) fn seek(
    alloc: Global,
    setting: &Setting<'_>,
    kind: Kind,
    others: &Others<'_>,
    whole: bool,
    term: &Term,
) -> Result<Option<At>, Memory>
    ensures { IfOk result (λ o. o ≡ spec.seek (finds setting.now.world.now setting.now.how.now kind (left others.now)) whole term.now) }
{
    match seek_up(alloc, setting, kind, others, whole, term)? {
        None => Ok(None),
        Some(at) => {
            let path = reversed(alloc, &at.path)?;
            let At {
                path: _,
                part,
                found,
            } = at;
            Ok(Some(At { path, part, found }))
        }
    }
}
