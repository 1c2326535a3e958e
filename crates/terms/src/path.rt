//! Parts of a term, by paths.

ghost use Rattle.std.specs.Prelude.{◌≡◌, IfOk};
ghost use Rattle.std.specs.Option.{option_copied};
ghost use Rattle.terms.specs.Paths.{argument_of, with_argument, part_at, put_part};

use crate::term::{Node, Term};
use lisp_data::{Memory, Seq};
use std::alloc::Global;

/// Argument numbers from 1, from the top down.
pub type Path = Seq<u32>;

/// The argument of a number, from 1.
#[tactic(auto, using(crate::proofs::Places::places))]
fn argument<'a>(term: &'a Term, number: u32) -> Option<&'a Term>
    ensures { option_copied result ≡ argument_of number term.now }
{
    match term.node() {
        Node::Var(_) => None,
        Node::Quote(_) => None,
        Node::Call(_, args) => {
            if number == 0 {
                None
            } else {
                args.get(number as usize - 1)
            }
        }
    }
}

/// The term with another argument of a number, where it has one.
#[tactic(auto, using(crate::proofs::Places::places))]
fn replaced(alloc: Global, term: &Term, number: u32, part: Term) -> Result<Term, Memory>
    ensures { IfOk result (λ t. t ≡ with_argument number part term.now) }
{
    match term.node() {
        Node::Var(_) => term.share(),
        Node::Quote(_) => term.share(),
        Node::Call(name, args) => {
            let mut args = args.copy(alloc)?;
            if number == 0 || args.len() < number as usize {
                return term.share();
            }
            args.set(number as usize - 1, part);
            Term::call(alloc, name.share()?, args)
        }
    }
}

/// The part of the term at a path, which lists argument numbers from 1.
#[tactic(auto, using(std::proofs::lemmas::List::drop_all))]
pub fn at_path<'a>(term: &'a Term, path: &Path) -> Option<&'a Term>
    ensures { option_copied result ≡ part_at path.now term.now }
{
    let mut part = term;
    for number in path.as_slice() {
        match argument(part, *number) {
            Some(next) => part = next,
            None => return None,
        }
    }
    Some(part)
}

fn put_from(alloc: Global, term: &Term, path: &[u32], part: &Term) -> Result<Option<Term>, Memory>
    ensures { IfOk result (λ t. t ≡ put_part path.now part.now term.now) }
{
    match path {
        [] => {
            let part = part.share()?;
            Ok(Some(part))
        }
        [number, rest @ ..] => match argument(term, *number) {
            None => Ok(None),
            Some(next) => match put_from(alloc, next, rest, part)? {
                None => Ok(None),
                Some(changed) => {
                    let term = replaced(alloc, term, *number, changed)?;
                    Ok(Some(term))
                }
            },
        },
    }
}

/// The term with `part` at a path, or nothing where the path leaves the term.
pub fn put_at(alloc: Global, term: &Term, path: &Path, part: &Term) -> Result<Option<Term>, Memory>
    ensures { IfOk result (λ t. t ≡ put_part path.now part.now term.now) }
{
    put_from(alloc, term, path.as_slice(), part)
}
