//! Formulas and lists of terms.

ghost use Rattle.std.specs.Prelude.{◌≡◌, ◌++◌, IfOk};
ghost use Rattle.terms.specs.Links.{alone as Alone, at_variables as AtVariables};

use lisp_data::{Memory, Symbol, Symbols};
use std::alloc::Global;
use terms::{Sequent, Term, Terms};

/// A goal without universals and hypotheses.
pub fn alone(alloc: Global, goal: Term) -> Sequent
    ensures { result ≡ Alone goal }
{
    Sequent {
        universals: Terms::new(alloc),
        hyps: Terms::new(alloc),
        goal,
    }
}

/// The terms, and then more.
pub fn followed(mut terms: Terms, more: &Terms) -> Result<Terms, Memory>
    ensures { IfOk result (λ all. all ≡ terms ++ more.now) }
{
    for term in more.as_slice() {
        terms.push(term.share()?)?;
    }
    Ok(terms)
}

/// A function at variables.
pub fn at_variables(alloc: Global, function: &Symbol, variables: &Symbols) -> Result<Term, Memory>
    ensures { IfOk result (λ t. t ≡ AtVariables function.now variables.now) }
{
    let mut args = Terms::new(alloc);
    for variable in variables.as_slice() {
        args.push(Term::var(alloc, variable.share()?)?)?;
    }
    Term::call(alloc, function.share()?, args)
}
