//! Calls of functions that become their bodies.

ghost use Rattle.std.specs.Prelude.{◌≡◌, ◌==◌, length, map, IfOk, IsTrue};
ghost use Rattle.terms.specs.Terms.{tms, count};
ghost use Rattle.terms.specs.Worlds.{is_in, Distinct};
ghost use Rattle.reduction.specs.Finders as spec;
ghost use Rattle.reduction.specs.Finders.{opens, body_of};

use crate::finders::Finding;
use crate::found::{Found, Reason};
use crate::hyps::has;
use crate::kinds::{How, Setting};
use lisp_data::{Memory, Symbol, Symbols};
use std::alloc::Global;
use terms::{Definition, Node, Subst, Term, Terms, substitute};

/// Functions whose calls are opened without a hint.
const PLAIN: [&str; 13] = [
    "IMPLIES",
    "IFF",
    "ATOM",
    "ENDP",
    "NULL",
    "BOOLEANP",
    "ACL2-NUMBERP",
    "ZP",
    "NATP",
    "POSP",
    "NFIX",
    "IFIX",
    "FIX",
];

fn is_among(words: &[&str], name: &Symbol) -> bool
    ensures { result ≡ is_in (map (λ w. w.now) words.now) name.now }
{
    for word in words {
        if *word == name.text() {
            return true;
        }
    }
    false
}

fn is_plain(name: &Symbol) -> bool
    ensures { result ≡ is_in spec.plain_names name.now }
{
    is_among(&PLAIN, name)
}

fn is_named(names: &Symbols, name: &Symbol) -> bool
    ensures { result ≡ is_in names.now name.now }
{
    for other in names.as_slice() {
        if other.same(name) {
            return true;
        }
    }
    false
}

/// Whether a call of the function may be opened.
fn opens(how: &How, whole: bool, name: &Symbol, call: &Term) -> bool
    ensures { result ≡ opens how.now whole name.now call.now }
{
    is_plain(name)
        || is_named(&how.opened, name)
        || has(how.expanded.as_slice(), call)
        || (name.text() == "NOT" && !whole)
}

/// The body of a function at arguments, as many as it takes.
fn body_of(alloc: Global, definition: &Definition, args: &Terms) -> Result<Term, Memory>
    requires distinct { Distinct definition.now.formals }
    requires lengths { length definition.now.formals ≡ length args.now }
    ensures { IfOk result (λ t. t ≡ body_of (tms args.now) definition.now) }
{
    let s = Subst::of_arguments(alloc, &definition.formals, args)?;
    substitute(alloc, &definition.body, &s)
}

/// Whether the function takes so many arguments.
#[tactic(auto, using(crate::proofs::Bodies::bodies))]
fn takes(definition: &Definition, args: &Terms) -> bool
    ensures value { result ≡ (length definition.now.formals == count (tms args.now)) }
    ensures same { IsTrue result → length definition.now.formals ≡ length args.now }
{
    definition.formals.len() == args.len()
}

/// The body of the function of a call that may be opened.
#[tactic(auto, using(crate::proofs::Bodies::bodies))]
pub(crate) fn definition(alloc: Global, setting: &Setting<'_>, whole: bool, term: &Term) -> Finding
    ensures { IfOk result (λ o. o ≡ spec.definition setting.now.world.now setting.now.how.now whole term.now) }
{
    match term.node() {
        Node::Var(_) => Ok(None),
        Node::Quote(_) => Ok(None),
        Node::Call(name, args) => {
            if !opens(setting.how, whole, name, term) {
                return Ok(None);
            }
            match setting.world.find_definition(name) {
                None => Ok(None),
                Some(definition) => {
                    if !takes(definition, args) {
                        return Ok(None);
                    }
                    setting.world.soundness();
                    let term = body_of(alloc, definition, args)?;
                    Ok(Some(Found {
                        term,
                        reason: Reason::Opened,
                    }))
                }
            }
        }
    }
}
