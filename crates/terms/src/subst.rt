//! Substitution.

ghost use Rattle.std.specs.Prelude.{◌≡◌, [], ◌∷◌, ◌++◌, IfOk, OnOk, OnErr, None, bytes_eq, length, slice_get};
ghost use Rattle.std.specs.List.{list_any, zip};
ghost use Rattle.std.specs.Option.{option_copied};
ghost use Rattle.terms.specs.Primitives.{lookup};
ghost use Rattle.terms.specs.Substitution.{by_pairs};
ghost use Rattle.terms.specs.Terms.{tms, by_args, substitute as substituted, substitute_all as all_substituted};
ghost use Rattle.terms.specs.Worlds.{Distinct};
ghost use Rattle.terms.specs.Variables.{variables_of, with_variables, with_variables_in};

use crate::term::{Node, Term, Terms};
use lisp_data::{Memory, Seq, Symbol, Symbols};
use std::alloc::Global;
use std::marker::Model;

/// Terms for variables, each variable once.
pub struct Subst {
    pairs: Seq<(Symbol, Term)>,
}

impl Drop for Subst {
    fn drop(self) {
        let Subst { pairs: _ } = self;
    }
}

impl Model for Subst {
    ghost use Rattle.terms.specs.Substitution.{Pairs, pairs_code, HasDistinctKeys};

    ghost Value = { Pairs };

    ghost coded = { pairs_code };

    ghost view = { λ s. s.pairs };

    ghost invariant = { λ s. HasDistinctKeys s.pairs };
}

impl Subst {
    pub fn new(alloc: Global) -> Subst
        ensures { result ≡ [] }
    {
        Subst {
            pairs: Seq::new(alloc),
        }
    }

    /// The arguments of a call, for the formals of its function.
    #[tactic(auto, using(crate::proofs::Formals::formals))]
    pub fn of_arguments(alloc: Global, formals: &Symbols, args: &Terms) -> Result<Subst, Memory>
        requires distinct { Distinct formals.now }
        requires lengths { length formals.now ≡ length args.now }
        ensures pairs { IfOk result (λ s. s ≡ zip formals.now args.now) }
        ensures replaces { IfOk result (λ s. by_pairs s ≡ by_args formals.now (tms args.now)) }
    {
        let formals = formals.as_slice();
        let args = args.as_slice();
        let mut s = Subst::new(alloc);
        for i in 0..formals.len() {
            s.push(formals[i].share()?, args[i].share()?)?;
        }
        Ok(s)
    }

    pub fn len(&self) -> usize
        ensures { result ≡ length self.now }
    {
        self.pairs.len()
    }

    /// An equal substitution, with its terms shared.
    #[tactic(auto, using(crate::proofs::Args::args))]
    pub fn copy(&self, alloc: Global) -> Result<Subst, Memory>
        ensures { IfOk result (λ s. s ≡ self.now) }
    {
        let mut pairs = Seq::new(alloc);
        for pair in self.pairs.as_slice() {
            pairs.push((pair.0.share()?, pair.1.share()?))?;
        }
        Ok(Subst { pairs })
    }

    /// The pair at a place, counted from 0.
    pub fn get(&self, place: usize) -> Option<&(Symbol, Term)>
        ensures { option_copied result ≡ slice_get self.now place }
    {
        self.pairs.get(place)
    }

    pub fn as_slice(&self) -> &[(Symbol, Term)]
        ensures { result.now ≡ self.now }
    {
        self.pairs.as_slice()
    }

    /// Adds a pair of a new variable at the end. Where there is no memory the list is as before.
    #[tactic(auto, using(crate::proofs::Keys::keys))]
    pub fn push(&mut self, name: Symbol, term: Term) -> Result<(), Memory>
        requires { lookup self.old name ≡ None }
        ensures ok { OnOk result (self.new ≡ self.old ++ (name, term) ∷ []) }
        ensures err { OnErr result (self.new ≡ self.old) }
    {
        self.pairs.push((name, term))
    }

    /// The term of a variable, if it has one.
    pub fn find(&self, name: &Symbol) -> Option<&Term>
        ensures { option_copied result ≡ lookup self.now name.now }
    {
        for pair in self.pairs.as_slice() {
            if pair.0.same(name) {
                return Some(&pair.1);
            }
        }
        None
    }
}

#[cycle(substitute)]
#[tactic(auto, using(crate::proofs::Args::args))]
fn substitute_all(alloc: Global, terms: &[Term], s: &Subst) -> Result<Terms, Memory>
    ensures { IfOk result (λ ts. tms ts ≡ all_substituted (by_pairs s.now) (tms terms.now)) }
{
    let mut images = Seq::new(alloc);
    for term in terms {
        images.push(substitute(alloc, term, s)?)?;
    }
    Ok(images)
}

/// The term with the variables of `s` replaced, all at once.
#[cycle(substitute)]
#[tactic(auto, using(crate::proofs::Args::args))]
pub fn substitute(alloc: Global, term: &Term, s: &Subst) -> Result<Term, Memory>
    ensures { IfOk result (λ t. t ≡ substituted (by_pairs s.now) term.now) }
{
    match term.node() {
        Node::Var(name) => match s.find(name) {
            Some(image) => image.share(),
            None => term.share(),
        },
        Node::Quote(_) => term.share(),
        Node::Call(name, args) => {
            let images = substitute_all(alloc, args.as_slice(), s)?;
            Term::call(alloc, name.share()?, images)
        }
    }
}

fn has(found: &Symbols, name: &Symbol) -> bool
    ensures { result ≡ list_any (bytes_eq name.now) found.now }
{
    found.as_slice().iter().any(|x| name.same(x))
}

#[cycle(variables)]
#[tactic(auto, using(crate::proofs::Args::args))]
fn collect_all(terms: &[Term], found: &mut Symbols) -> Result<(), Memory>
    ensures { OnOk result (found.new ≡ with_variables_in (tms terms.now) found.old) }
{
    for term in terms {
        collect(term, found)?;
    }
    Ok(())
}

#[cycle(variables)]
#[tactic(auto, using(crate::proofs::Args::args))]
fn collect(term: &Term, found: &mut Symbols) -> Result<(), Memory>
    ensures { OnOk result (found.new ≡ with_variables term.now found.old) }
{
    match term.node() {
        Node::Var(name) => {
            if has(found, name) {
                Ok(())
            } else {
                found.push(name.share()?)
            }
        }
        Node::Quote(_) => Ok(()),
        Node::Call(_, args) => collect_all(args.as_slice(), found),
    }
}

/// The variables of the term, each once, in the order in which they first stand.
pub fn variables(alloc: Global, term: &Term) -> Result<Symbols, Memory>
    ensures { IfOk result (λ xs. xs ≡ variables_of term.now) }
{
    let mut found = Seq::new(alloc);
    collect(term, &mut found)?;
    Ok(found)
}
