//! Proofs from their texts.

ghost use Rattle.std.specs.Prelude.{◌≡◌, length, map, IfOk};
ghost use Rattle.lisp_data.specs.Datum.{chain, nil_form};
ghost use Rattle.lisp_data.specs.FormView.{form_of, IsProper, AllProper};
ghost use Rattle.proof_texts.specs.ProofTexts as spec;
ghost use Rattle.proof_texts.specs.ProofTexts.{read_of};
ghost use Rattle.proof_texts.specs.Words.{kinds_of};
ghost use Rattle.proof_texts.specs.Refused.{Says};

use crate::errors::ProofError;
use crate::forms::{items, symbol};
use crate::parts::{
    read_fact, read_function, read_functions, read_isomorphism, read_number, read_path,
    read_substitution, read_term, read_terms, read_theorem,
};
use crate::steps::{Part, step_of};
use crate::words::{Kind, Word};
use lisp_data::{Form, Memory, Seq};
use proof_objects::{InductionCase, InductionCases, Proof};
use std::alloc::Global;
use worlds::World;

/// What was read of a text, from left to right: the parts that are no proofs, and the subproofs.
#[derive(Drop)]
struct Read {
    parts: Vec<Part>,
    subproofs: Seq<Proof>,
}

impl Read {
    fn new(alloc: Global) -> Read
        ensures { read_of result ≡ spec.nothing }
    {
        Read {
            parts: Vec::new(alloc),
            subproofs: Seq::new(alloc),
        }
    }

    fn with(mut self, part: Part) -> Result<Read, Memory>
        ensures { IfOk result (λ r. read_of r ≡ spec.with_part (read_of self) part) }
    {
        self.parts.push(part)?;
        Ok(self)
    }

    fn with_proof(mut self, proof: Proof) -> Result<Read, Memory>
        ensures { IfOk result (λ r. read_of r ≡ spec.with_proof (read_of self) proof) }
    {
        self.subproofs.push(proof)?;
        Ok(self)
    }
}

/// What was read of an induction's cases: the cases, and the subproofs up to theirs.
#[derive(Drop)]
struct CasesRead {
    cases: InductionCases,
    subproofs: Seq<Proof>,
}

/// The word of a text that has so many parts after it.
fn read_word(alloc: Global, head: &Form, count: usize) -> Result<Word, ProofError>
    requires { IsProper head.now }
    ensures word { Says (λ word. word) (spec.word_at (form_of head.now) count) result }
    ensures parts { IfOk result (λ word. length (kinds_of word) ≡ count) }
{
    let Some(name) = symbol(head) else {
        return Err(ProofError::bad_proof(alloc));
    };
    match Word::of(name.text()) {
        Some(word) if word.kinds().len() == count => Ok(word),
        _ => Err(ProofError::bad_proof(alloc)),
    }
}

/// The proof whose text a form is, or the first refusal (docs/SYNTAX.md, "Texts of proofs").
#[cycle(proof)]
#[tactic(auto, using(crate::proofs::ReadLemmas::trees_read))]
pub fn read_proof(alloc: Global, world: &World, form: &Form) -> Result<Proof, ProofError>
    requires { IsProper form.now }
    ensures { Says (λ p. p) (spec.proof_of world.now (form_of form.now)) result }
{
    match items(form) {
        Some(items) => read_items(alloc, world, items),
        None => Err(ProofError::bad_proof(alloc)),
    }
}

/// The proof of a list of a word and the parts after it.
#[cycle(proof)]
#[tactic(auto, using(crate::proofs::ReadLemmas::trees_read))]
fn read_items(alloc: Global, world: &World, items: &[Form]) -> Result<Proof, ProofError>
    requires { AllProper items.now }
    ensures { Says (λ p. p) (spec.tree_of_list world.now (map form_of items.now)) result }
{
    let [head, forms @ ..] = items else {
        return Err(ProofError::bad_proof(alloc));
    };
    let word = read_word(alloc, head, forms.len())?;
    let Read { parts, subproofs } = read_parts(alloc, world, word.kinds(), forms)?;
    match step_of(word, parts) {
        Some(step) => {
            let proof = Proof::new(alloc, step, subproofs)?;
            Ok(proof)
        }
        None => Err(ProofError::bad_proof(alloc)),
    }
}

/// The parts of these kinds, in order.
#[cycle(proof)]
#[tactic(auto, using(crate::proofs::ReadLemmas::parts_read))]
fn read_parts(
    alloc: Global,
    world: &World,
    kinds: &[Kind],
    forms: &[Form],
) -> Result<Read, ProofError>
    requires proper { AllProper forms.now }
    requires lengths { length kinds.now ≡ length forms.now }
    ensures { Says read_of (spec.parts_from world.now spec.nothing kinds.now (chain (map form_of forms.now) nil_form)) result }
{
    let mut read = Read::new(alloc);
    for i in 0..kinds.len() {
        read = read_part(alloc, world, read, kinds[i], &forms[i])?;
    }
    Ok(read)
}

/// What was read, and a part of this kind.
#[cycle(proof)]
fn read_part(
    alloc: Global,
    world: &World,
    read: Read,
    kind: Kind,
    form: &Form,
) -> Result<Read, ProofError>
    requires { IsProper form.now }
    ensures { Says read_of (spec.part_at world.now (read_of read) kind (form_of form.now)) result }
{
    let read = match kind {
        Kind::Proof => read.with_proof(read_proof(alloc, world, form)?)?,
        Kind::Term => read.with(Part::Term(read_term(alloc, world, form)?))?,
        Kind::Terms => read.with(Part::Terms(read_terms(alloc, world, form)?))?,
        Kind::Path => read.with(Part::Path(read_path(alloc, form)?))?,
        Kind::Number => read.with(Part::Number(read_number(alloc, form)?))?,
        Kind::Substitution => {
            read.with(Part::Substitution(read_substitution(alloc, world, form)?))?
        }
        Kind::Theorem => read.with(Part::Name(read_theorem(alloc, world, form)?))?,
        Kind::Function => read.with(Part::Name(read_function(alloc, world, form)?))?,
        Kind::Isomorphism => read.with(Part::Name(read_isomorphism(alloc, world, form)?))?,
        Kind::Fact => read.with(Part::Fact(read_fact(alloc, world, form)?))?,
        Kind::Functions => read.with(Part::Functions(read_functions(alloc, world, form)?))?,
        Kind::Cases => {
            let Read { parts, subproofs } = read;
            let CasesRead { cases, subproofs } = read_cases(alloc, world, subproofs, form)?;
            Read { parts, subproofs }.with(Part::Cases(cases))?
        }
    };
    Ok(read)
}

/// The cases of an induction, and the subproofs up to theirs.
#[cycle(proof)]
#[tactic(auto, using(crate::proofs::ReadLemmas::cases_read))]
fn read_cases(
    alloc: Global,
    world: &World,
    subproofs: Seq<Proof>,
    form: &Form,
) -> Result<CasesRead, ProofError>
    requires { IsProper form.now }
    ensures { Says (λ c. c) (spec.cases_at world.now subproofs (form_of form.now)) result }
{
    match items(form) {
        Some(forms) => each_case(alloc, world, subproofs, forms),
        None => Err(ProofError::bad_proof(alloc)),
    }
}

#[cycle(proof)]
#[tactic(auto, using(crate::proofs::ReadLemmas::cases_read))]
fn each_case(
    alloc: Global,
    world: &World,
    subproofs: Seq<Proof>,
    forms: &[Form],
) -> Result<CasesRead, ProofError>
    requires { AllProper forms.now }
    ensures { Says (λ c. c) (spec.cases_from world.now (spec.no_cases subproofs) (chain (map form_of forms.now) nil_form)) result }
{
    let mut read = CasesRead {
        cases: Seq::new(alloc),
        subproofs,
    };
    for form in forms {
        read = read_case(alloc, world, read, form)?;
    }
    Ok(read)
}

/// The cases that were read, and one more: `(q s Q)`.
#[cycle(proof)]
#[tactic(auto, using(crate::proofs::ReadLemmas::cases_read))]
fn read_case(
    alloc: Global,
    world: &World,
    read: CasesRead,
    form: &Form,
) -> Result<CasesRead, ProofError>
    requires { IsProper form.now }
    ensures { Says (λ c. c) (spec.case_at world.now read (form_of form.now)) result }
{
    match items(form) {
        Some(items) => case_of_items(alloc, world, read, items),
        None => Err(ProofError::bad_proof(alloc)),
    }
}

#[cycle(proof)]
#[tactic(auto, using(crate::proofs::ReadLemmas::cases_read))]
fn case_of_items(
    alloc: Global,
    world: &World,
    read: CasesRead,
    items: &[Form],
) -> Result<CasesRead, ProofError>
    requires { AllProper items.now }
    ensures { Says (λ c. c) (spec.case_of_list world.now read (map form_of items.now)) result }
{
    match items {
        [test, substitution, proof] => case_of(alloc, world, read, test, substitution, proof),
        _ => Err(ProofError::bad_proof(alloc)),
    }
}

/// The cases that were read, and one more, from its test, its substitution and its proof.
#[cycle(proof)]
fn case_of(
    alloc: Global,
    world: &World,
    read: CasesRead,
    test: &Form,
    substitution: &Form,
    proof: &Form,
) -> Result<CasesRead, ProofError>
    requires test { IsProper test.now }
    requires substitution { IsProper substitution.now }
    requires proof { IsProper proof.now }
    ensures { Says (λ c. c) (spec.case_of world.now read (form_of test.now) (form_of substitution.now) (spec.proof_of world.now (form_of proof.now))) result }
{
    let test = read_term(alloc, world, test)?;
    let subst = read_substitution(alloc, world, substitution)?;
    let proof = read_proof(alloc, world, proof)?;
    let CasesRead {
        mut cases,
        mut subproofs,
    } = read;
    cases.push(InductionCase { test, subst })?;
    subproofs.push(proof)?;
    Ok(CasesRead { cases, subproofs })
}
