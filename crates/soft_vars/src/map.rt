//! Maps of names, and terms under a map.

ghost use Rattle.std.specs.Prelude.{◌≡◌, [], ◌∷◌, ◌++◌, None, length, slice_get, IfOk, OnOk, OnErr};
ghost use Rattle.std.specs.Option.{option_copied};
ghost use Rattle.terms.specs.Primitives.{lookup};
ghost use Rattle.terms.specs.Terms.{tms};
ghost use Rattle.terms.specs.Maps.{image, rename, rename_all};

use lisp_data::{Memory, Seq, Symbol};
use std::alloc::Global;
use std::marker::Model;
use terms::{Node, Term, Terms};

/// Functions for functions and function variables, no name twice. Contracts see it as the list of its pairs.
#[derive(Drop)]
pub struct NameMap {
    pairs: Seq<(Symbol, Symbol)>,
}

impl Model for NameMap {
    ghost use Rattle.terms.specs.Maps.{NamePairs, name_pairs_code, HasDistinctNames};

    ghost Value = { NamePairs };

    ghost coded = { name_pairs_code };

    ghost view = { λ m. m.pairs };

    ghost invariant = { λ m. HasDistinctNames m.pairs };
}

impl NameMap {
    /// The map that leaves each name as it is.
    pub fn new(alloc: Global) -> NameMap
        ensures { result ≡ [] }
    {
        NameMap {
            pairs: Seq::new(alloc),
        }
    }

    pub fn len(&self) -> usize
        ensures { result ≡ length self.now }
    {
        self.pairs.len()
    }

    /// The pair at a place, counted from 0.
    pub fn get(&self, place: usize) -> Option<&(Symbol, Symbol)>
        ensures { option_copied result ≡ slice_get self.now place }
    {
        self.pairs.get(place)
    }

    /// An equal map.
    #[tactic(auto, using(crate::proofs::Keys::keys))]
    pub fn copy(&self, alloc: Global) -> Result<NameMap, Memory>
        ensures { IfOk result (λ m. m ≡ self.now) }
    {
        let mut pairs = Seq::new(alloc);
        for pair in self.pairs.as_slice() {
            pairs.push((pair.0.share()?, pair.1.share()?))?;
        }
        Ok(NameMap { pairs })
    }

    /// Adds a pair of a new name at the end. Where there is no memory the map is as before.
    #[tactic(auto, using(crate::proofs::Keys::keys))]
    pub fn push(&mut self, name: Symbol, image: Symbol) -> Result<(), Memory>
        requires { lookup self.old name ≡ None }
        ensures ok { OnOk result (self.new ≡ self.old ++ (name, image) ∷ []) }
        ensures err { OnErr result (self.new ≡ self.old) }
    {
        self.pairs.push((name, image))
    }

    /// What stands for the name, if the map has it.
    pub fn find(&self, name: &Symbol) -> Option<&Symbol>
        ensures { option_copied result ≡ lookup self.now name.now }
    {
        for pair in self.pairs.as_slice() {
            if pair.0.same(name) {
                return Some(&pair.1);
            }
        }
        None
    }

    /// What the name becomes: one that the map doesn't have stays.
    fn image(&self, name: &Symbol) -> Result<Symbol, Memory>
        ensures { IfOk result (λ s. s ≡ image self.now name.now) }
    {
        match self.find(name) {
            Some(image) => image.share(),
            None => name.share(),
        }
    }
}

#[cycle(rename)]
#[tactic(auto, using(crate::proofs::Renaming::renaming))]
fn instantiate_terms(alloc: Global, terms: &[Term], map: &NameMap) -> Result<Terms, Memory>
    ensures { IfOk result (λ ts. tms ts ≡ rename_all map.now (tms terms.now)) }
{
    let mut images = Seq::new(alloc);
    for term in terms {
        images.push(instantiate_term(alloc, term, map)?)?;
    }
    Ok(images)
}

/// The term under the map: all names of its functions are replaced at once (docs/MODEL.md, "Function variables and
/// instances").
#[cycle(rename)]
#[tactic(auto, using(crate::proofs::Renaming::renaming))]
pub fn instantiate_term(alloc: Global, term: &Term, map: &NameMap) -> Result<Term, Memory>
    ensures { IfOk result (λ t. t ≡ rename map.now term.now) }
{
    match term.node() {
        Node::Var(_) => term.share(),
        Node::Quote(_) => term.share(),
        Node::Call(name, args) => {
            let images = instantiate_terms(alloc, args.as_slice(), map)?;
            Term::call(alloc, map.image(name)?, images)
        }
    }
}
