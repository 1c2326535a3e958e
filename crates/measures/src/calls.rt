//! The recursive calls of a term, with the tests on the way to each.

ghost use Rattle.std.specs.Prelude.{◌≡◌, [], ◌∷◌, ◌++◌, cond, map, IfOk, OnOk};
ghost use Rattle.terms.specs.Terms.{tms};
ghost use Rattle.terms.specs.Measures as spec;
ghost use Rattle.measures.specs.view.Calls.{call_of, place_of};
ghost use Rattle.measures.specs.Outcomes.{Says, calls_or_cause};

use crate::errors::MeasureError;
use crate::shapes::{is_nested, mentions, not};
use lisp_data::{Memory, Seq, Symbol};
use std::alloc::Global;
use terms::{Node, Term, Terms};

/// A recursive call: the tests that rule it, and its arguments (docs/MODEL.md, "Recursive calls and obligations").
#[derive(Drop)]
pub struct RecursiveCall {
    pub tests: Terms,
    pub args: Terms,
}

/// Recursive calls, in the order in which they begin in the text of the term.
pub type RecursiveCalls = Seq<RecursiveCall>;

/// The tests, with one more.
fn with_test(alloc: Global, tests: &Terms, test: Term) -> Result<Terms, Memory>
    ensures { IfOk result (λ ts. ts ≡ tests.now ++ test ∷ []) }
{
    let mut all = tests.copy(alloc)?;
    all.push(test)?;
    Ok(all)
}

/// Where an argument stands: under no test of its call, or as the test or a branch of an `if`.
#[derive(Clone, Copy)]
pub enum Position<'a> {
    Plain,
    Test(&'a Term),
    Then(&'a Term),
    Else(&'a Term),
}

impl<'a> Position<'a> {
    /// Where the first argument of a call stands, for a function of this name. A test that calls the function rules
    /// nothing.
    pub fn first(name: &Symbol, called: &Symbol, args: &'a [Term]) -> Position<'a>
        ensures { place_of result ≡ spec.first_place name.now called.now (tms args.now) }
    {
        match args {
            [] => Position::Plain,
            [test, ..] => {
                if "IF" == called.text() && !mentions(name, test) {
                    Position::Test(test)
                } else {
                    Position::Plain
                }
            }
        }
    }

    /// Where the next argument stands.
    pub fn next(self) -> Position<'a>
        ensures { place_of result ≡ spec.next (place_of self.entry) }
    {
        match self {
            Position::Plain => Position::Plain,
            Position::Test(test) => Position::Then(test),
            Position::Then(test) => Position::Else(test),
            Position::Else(_) => Position::Plain,
        }
    }

    /// The tests that rule what stands there, where these rule the call.
    pub fn tests_at(self, alloc: Global, tests: &Terms) -> Result<Terms, Memory>
        ensures { IfOk result (λ ts. ts ≡ spec.tests_at (place_of self.entry) tests.now) }
    {
        match self {
            Position::Plain => tests.copy(alloc),
            Position::Test(_) => tests.copy(alloc),
            Position::Then(test) => with_test(alloc, tests, test.share()?),
            Position::Else(test) => with_test(alloc, tests, not(alloc, test.share()?)?),
        }
    }
}

/// Adds the call, where it is one of the function.
#[tactic(auto, using(crate::proofs::Calling::calls))]
fn push_where(
    alloc: Global,
    is_recursive: bool,
    tests: &Terms,
    args: &Terms,
    found: &mut RecursiveCalls,
) -> Result<(), Memory>
    ensures { OnOk result (map call_of found.new ≡ map call_of found.old ++ cond is_recursive (record { tests = tests.now; args = tms args.now } ∷ []) []) }
{
    if is_recursive {
        let tests = tests.copy(alloc)?;
        let args = args.copy(alloc)?;
        found.push(RecursiveCall { tests, args })?;
    }
    Ok(())
}

/// Adds the calls in a term that stands under these tests.
#[cycle(collect)]
#[tactic(auto, using(crate::proofs::Calling::calls))]
fn collect(
    alloc: Global,
    name: &Symbol,
    tests: &Terms,
    term: &Term,
    found: &mut RecursiveCalls,
) -> Result<(), Memory>
    ensures { OnOk result (map call_of found.new ≡ map call_of found.old ++ spec.recursive_calls name.now tests.now term.now) }
{
    match term.node() {
        Node::Var(_) => Ok(()),
        Node::Quote(_) => Ok(()),
        Node::Call(called, args) => {
            push_where(alloc, name.same(called), tests, args, found)?;
            collect_in(alloc, name, called, tests, args.as_slice(), found)?;
            Ok(())
        }
    }
}

/// Adds the calls in an argument.
#[cycle(collect)]
#[tactic(auto, using(crate::proofs::Calling::calls))]
fn collect_at(
    alloc: Global,
    name: &Symbol,
    position: Position<'_>,
    tests: &Terms,
    term: &Term,
    found: &mut RecursiveCalls,
) -> Result<(), Memory>
    ensures { OnOk result (map call_of found.new ≡ map call_of found.old ++ spec.recursive_calls name.now (spec.tests_at (place_of position.entry) tests.now) term.now) }
{
    match position {
        Position::Plain => collect(alloc, name, tests, term, found),
        Position::Test(_) => collect(alloc, name, tests, term, found),
        Position::Then(_) => {
            let tests = position.tests_at(alloc, tests)?;
            collect(alloc, name, &tests, term, found)
        }
        Position::Else(_) => {
            let tests = position.tests_at(alloc, tests)?;
            collect(alloc, name, &tests, term, found)
        }
    }
}

/// Adds the calls in the arguments of a call.
#[cycle(collect)]
#[tactic(auto, using(crate::proofs::Calling::calls))]
fn collect_in(
    alloc: Global,
    name: &Symbol,
    called: &Symbol,
    tests: &Terms,
    args: &[Term],
    found: &mut RecursiveCalls,
) -> Result<(), Memory>
    ensures { OnOk result (map call_of found.new ≡ map call_of found.old ++ spec.recursive_calls_in name.now (spec.first_place name.now called.now (tms args.now)) tests.now (tms args.now)) }
{
    let mut position = Position::first(name, called, args);
    for arg in args {
        collect_at(alloc, name, position, tests, arg, found)?;
        position = position.next();
    }
    Ok(())
}

/// The recursive calls of a function of this name with this body, or that one of them calls the function in an argument
/// (docs/MODEL.md, "Recursive calls and obligations").
pub fn recursive_calls(
    alloc: Global,
    name: &Symbol,
    body: &Term,
) -> Result<RecursiveCalls, MeasureError>
    ensures { Says (map call_of) (calls_or_cause name.now body.now) result }
{
    if is_nested(name, body) {
        return Err(MeasureError::Nested);
    }
    let mut found = Seq::new(alloc);
    let tests = Seq::new(alloc);
    collect(alloc, name, &tests, body, &mut found)?;
    Ok(found)
}
