//! The atoms of terms, and their numbers.

ghost use Rattle.std.specs.Prelude.{◌≡◌, [], ◌∷◌, IfOk, OnOk};
ghost use Rattle.ring_laws.specs.Expressions.{expression};
ghost use Rattle.ring_laws.specs.view.Held.{number_of, numbers, together, with_atom, with_atoms};

use crate::atom::Atom;
use crate::shape::{Reading, read};
use indexmap::IndexSet;
use lists::Memory;
use std::alloc::Global;
use terms::Term;

/// Atoms, each once. The number of an atom is its place among them.
pub(crate) type Atoms = IndexSet<Atom>;

fn collect_atom(atom: &Term, found: &mut Atoms) -> Result<(), Memory>
    ensures { OnOk result (found.new.keys ≡ with_atom atom.now found.old.keys) }
{
    let _added = found.insert(Atom::of(atom)?)?;
    Ok(())
}

/// Adds the atoms of a term that are new.
pub(crate) fn collect(term: &Term, found: &mut Atoms) -> Result<(), Memory>
    ensures { OnOk result (found.new.keys ≡ with_atoms (expression term.now) found.old.keys) }
{
    match read(term) {
        Reading::Literal(_) => Ok(()),
        Reading::Atom => collect_atom(term, found),
        Reading::Sum(a, b) => {
            collect(a, found)?;
            collect(b, found)
        }
        Reading::Product(a, b) => {
            collect(a, found)?;
            collect(b, found)
        }
        Reading::Negation(a) => collect(a, found),
    }
}

fn number_of(atom: &Term, atoms: &Atoms) -> Result<usize, Memory>
    ensures { IfOk result (λ n. n ≡ number_of atoms.now.keys atom.now) }
{
    let atom = Atom::of(atom)?;
    let number = atoms.get_index_of(&atom).unwrap_or(atoms.len());
    Ok(number)
}

/// The numbers of an atom.
pub(crate) fn numbers_of(alloc: Global, atom: &Term, atoms: &Atoms) -> Result<Vec<usize>, Memory>
    ensures { IfOk result (λ v. v.items ≡ numbers atoms.now.keys (atom.now ∷ [])) }
{
    let mut numbers = Vec::new(alloc);
    numbers.push(number_of(atom, atoms)?)?;
    Ok(numbers)
}

/// The numbers of a product, from those of its factors.
pub(crate) fn together(alloc: Global, a: &[usize], b: &[usize]) -> Result<Vec<usize>, Memory>
    ensures { IfOk result (λ v. v.items ≡ together a.now b.now) }
{
    let mut numbers = Vec::new(alloc);
    let mut a = a;
    let mut b = b;
    'both: while let ([x, more_a @ ..], [y, more_b @ ..]) = (a, b) {
        if x <= y {
            numbers.push(*x)?;
            a = more_a;
        } else {
            numbers.push(*y)?;
            b = more_b;
        }
    }
    numbers.extend_from_slice(a)?;
    numbers.extend_from_slice(b)?;
    Ok(numbers)
}
