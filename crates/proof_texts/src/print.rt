//! The texts of proofs.

ghost use Rattle.std.specs.Prelude.{◌≡◌, ◌++◌, ◌∷◌, [], true, map, IfOk, OnOk, OnErr, pos};
ghost use Rattle.lisp_data.specs.Datum.{IntForm, SymForm, PairForm};
ghost use Rattle.lisp_data.specs.FormView.{form_of, forms_of};
ghost use Rattle.lisp_data.specs.SymbolText.{is_symbol_text};
ghost use Rattle.lisp_data.specs.ValueView.{val_of};
ghost use Rattle.lisp_reader.specs.Printed.{datum_of, IsReadAgain};
ghost use Rattle.term_forms.specs.Printing.{form_of_term, form_of_arguments};
ghost use Rattle.terms.specs.Terms.{tms};
ghost use Rattle.proof_objects.specs.ProofTrees.{trees};
ghost use Rattle.proof_texts.specs.Given.{seen};
ghost use Rattle.proof_texts.specs.Printing as spec;

use crate::given::{Given, parts_of, word_for};
use crate::words::Word;
use lisp_data::{Form, Forms, Memory, Symbol, Text, Value};
use lisp_reader::print_form;
use proof_objects::{InductionCase, Proof};
use std::alloc::Global;
use terms::{FactName, FunPair, Node, Subst, Term};

#[tactic(auto, using(crate::proofs::PrintLemmas::leaves))]
fn word_form(alloc: Global, text: &str) -> Result<Form, Memory>
    requires { is_symbol_text text.now ≡ true }
    ensures { IfOk result (λ f. form_of f ≡ SymForm text.now) }
{
    let symbol = Symbol::named(alloc, text)?;
    Ok(Form::Sym(symbol))
}

#[tactic(auto, using(crate::proofs::PrintLemmas::leaves))]
fn name_form(name: &Symbol) -> Result<Form, Memory>
    ensures { IfOk result (λ f. form_of f ≡ SymForm name.now) }
{
    let name = name.share()?;
    Ok(Form::Sym(name))
}

#[tactic(auto, using(crate::proofs::PrintLemmas::leaves))]
fn number_form(number: u32) -> Form
    ensures { form_of result ≡ IntForm (pos number) }
{
    Form::Int(number as i128)
}

/// A pair with a point between its forms, or a list where the second is one.
fn pair(alloc: Global, first: Form, second: Form) -> Result<Form, Memory>
    ensures { IfOk result (λ f. form_of f ≡ PairForm (form_of first) (form_of second)) }
{
    let mut items = Forms::new(alloc);
    items.push(first)?;
    let form = Form::dotted(alloc, items, second)?;
    Ok(form)
}

/// A list of two forms.
fn two(alloc: Global, first: Form, second: Form) -> Result<Form, Memory>
    ensures { IfOk result (λ f. form_of f ≡ spec.list_form (form_of first ∷ form_of second ∷ [])) }
{
    let mut items = Forms::new(alloc);
    items.push(first)?;
    items.push(second)?;
    Ok(Form::list(items))
}

/// A list of three forms.
fn three(alloc: Global, first: Form, second: Form, third: Form) -> Result<Form, Memory>
    ensures { IfOk result (λ f. form_of f ≡ spec.list_form (form_of first ∷ form_of second ∷ form_of third ∷ [])) }
{
    let mut items = Forms::new(alloc);
    items.push(first)?;
    items.push(second)?;
    items.push(third)?;
    Ok(Form::list(items))
}

#[cycle(values)]
#[tactic(auto, using(crate::proofs::PrintLemmas::leaves))]
fn value_form(alloc: Global, value: &Value) -> Result<Form, Memory>
    ensures { IfOk result (λ f. form_of f ≡ datum_of (val_of value.now)) }
{
    match value {
        Value::Int(number) => Ok(Form::Int(*number)),
        Value::Sym(name) => name_form(name),
        Value::Pair(parts) => {
            let car = value_form(alloc, parts.car())?;
            let cdr = value_form(alloc, parts.cdr())?;
            pair(alloc, car, cdr)
        }
    }
}

/// The items, and the forms of terms after them.
#[cycle(terms)]
#[tactic(auto, using(crate::proofs::PrintLemmas::terms))]
fn with_terms(alloc: Global, mut items: Forms, terms: &[Term]) -> Result<Forms, Memory>
    ensures { IfOk result (λ fs. forms_of fs ≡ forms_of items ++ map form_of_term terms.now) }
{
    for term in terms {
        items.push(term_form(alloc, term)?)?;
    }
    Ok(items)
}

#[cycle(terms)]
#[tactic(auto, using(crate::proofs::PrintLemmas::terms))]
fn term_form(alloc: Global, term: &Term) -> Result<Form, Memory>
    ensures { IfOk result (λ f. form_of f ≡ form_of_term term.now) }
{
    match term.node() {
        Node::Var(name) => name_form(name),
        Node::Quote(value) => {
            let word = word_form(alloc, "QUOTE")?;
            let value = value_form(alloc, value)?;
            two(alloc, word, value)
        }
        Node::Call(name, args) => {
            let mut items = Forms::new(alloc);
            items.push(name_form(name)?)?;
            let items = with_terms(alloc, items, args.as_slice())?;
            Ok(Form::list(items))
        }
    }
}

#[tactic(auto, using(crate::proofs::PrintLemmas::lists))]
fn path_form(alloc: Global, path: &[u32]) -> Result<Form, Memory>
    ensures { IfOk result (λ f. form_of f ≡ spec.list_form (map spec.number_form path.now)) }
{
    let mut items = Forms::new(alloc);
    for number in path {
        items.push(number_form(*number))?;
    }
    Ok(Form::list(items))
}

#[tactic(auto, using(crate::proofs::PrintLemmas::images))]
fn substitution_form(alloc: Global, s: &Subst) -> Result<Form, Memory>
    ensures { IfOk result (λ f. form_of f ≡ spec.substitution_form s.now) }
{
    let mut items = Forms::new(alloc);
    for i in 0..s.len() {
        if let Some((name, term)) = s.get(i) {
            let name = name_form(name)?;
            let term = term_form(alloc, term)?;
            items.push(two(alloc, name, term)?)?;
        }
    }
    Ok(Form::list(items))
}

#[tactic(auto, using(crate::proofs::PrintLemmas::words))]
fn word_of(alloc: Global, word: Word) -> Result<Form, Memory>
    ensures { IfOk result (λ f. form_of f ≡ spec.word_form word) }
{
    word_form(alloc, word.text())
}

fn numbered_form(alloc: Global, word: Word, name: &Symbol, number: u32) -> Result<Form, Memory>
    ensures { IfOk result (λ f. form_of f ≡ spec.numbered_form word name.now number) }
{
    let word = word_of(alloc, word)?;
    let name = name_form(name)?;
    three(alloc, word, name, number_form(number))
}

fn fact_form(alloc: Global, fact: &FactName) -> Result<Form, Memory>
    ensures { IfOk result (λ f. form_of f ≡ spec.fact_form fact.now) }
{
    match fact {
        FactName::Theorem(name) => name_form(name),
        FactName::Measure(name, number) => numbered_form(alloc, Word::Measure, name, *number),
        FactName::Isomorphism(name, number) => {
            numbered_form(alloc, Word::Isomorphism, name, *number)
        }
    }
}

#[tactic(auto, using(crate::proofs::PrintLemmas::lists))]
fn functions_form(alloc: Global, pairs: &[FunPair]) -> Result<Form, Memory>
    ensures { IfOk result (λ f. form_of f ≡ spec.list_form (map spec.pair_form pairs.now)) }
{
    let mut items = Forms::new(alloc);
    for functions in pairs {
        let variable = name_form(&functions.variable)?;
        let function = name_form(&functions.function)?;
        items.push(pair(alloc, variable, function)?)?;
    }
    Ok(Form::list(items))
}

/// A case of an induction, before its proof.
fn case_form(alloc: Global, case: &InductionCase, proof: Form) -> Result<Form, Memory>
    ensures { IfOk result (λ f. form_of f ≡ spec.case_form case.now (form_of proof)) }
{
    let test = term_form(alloc, &case.test)?;
    let s = substitution_form(alloc, &case.subst)?;
    three(alloc, test, s, proof)
}

/// Cases of an induction, each with its proof.
#[cycle(proofs)]
#[tactic(auto, using(crate::proofs::PrintLemmas::cases))]
fn cases_forms(alloc: Global, cases: &[InductionCase], proofs: &[Proof]) -> Result<Forms, Memory>
    ensures { IfOk result (λ fs. forms_of fs ≡ spec.cases_forms cases.now (map spec.form_of_proof proofs.now)) }
{
    let mut items = Forms::new(alloc);
    for i in 0..cases.len().min(proofs.len()) {
        let proof = proof_form(alloc, &proofs[i])?;
        items.push(case_form(alloc, &cases[i], proof)?)?;
    }
    Ok(items)
}

/// A part that is no proof; the cases of an induction with the proofs that are left.
#[cycle(proofs)]
#[tactic(auto, using(crate::proofs::PrintLemmas::proofs))]
fn part_form(alloc: Global, given: Given<'_>, proofs: &[Proof]) -> Result<Form, Memory>
    ensures { IfOk result (λ f. form_of f ≡ spec.part_form (map spec.form_of_proof proofs.now) (seen given.entry)) }
{
    match given {
        Given::Term(term) => term_form(alloc, term),
        Given::Terms(terms) => {
            let items = with_terms(alloc, Forms::new(alloc), terms.as_slice())?;
            Ok(Form::list(items))
        }
        Given::Path(path) => path_form(alloc, path.as_slice()),
        Given::Number(number) => Ok(number_form(number)),
        Given::Substitution(s) => substitution_form(alloc, s),
        Given::Name(name) => name_form(name),
        Given::Fact(fact) => fact_form(alloc, fact),
        Given::Functions(pairs) => functions_form(alloc, pairs.as_slice()),
        Given::Cases(cases) => {
            let items = cases_forms(alloc, cases.as_slice(), proofs)?;
            Ok(Form::list(items))
        }
    }
}

/// A word, and the parts after it in their places.
#[cycle(proofs)]
#[tactic(auto, using(crate::proofs::PrintLemmas::proofs))]
fn laid(
    alloc: Global,
    word: Word,
    mut given: &[Given<'_>],
    mut proofs: &[Proof],
) -> Result<Forms, Memory>
    ensures { IfOk result (λ fs. forms_of fs ≡ spec.word_form word ∷ spec.laid (spec.kinds_of word) (map seen given.now) (map spec.form_of_proof proofs.now)) }
{
    let mut items = Forms::new(alloc);
    items.push(word_of(alloc, word)?)?;
    for kind in word.kinds() {
        if kind.is_proof() {
            if let [first, rest @ ..] = proofs {
                items.push(proof_form(alloc, first)?)?;
                proofs = rest;
            }
        } else if let [first, rest @ ..] = given {
            items.push(part_form(alloc, *first, proofs)?)?;
            given = rest;
        }
    }
    Ok(items)
}

/// A proof, as the form whose text is printed.
#[cycle(proofs)]
#[tactic(auto, using(crate::proofs::PrintLemmas::proofs))]
fn proof_form(alloc: Global, proof: &Proof) -> Result<Form, Memory>
    ensures { IfOk result (λ f. form_of f ≡ spec.form_of_proof proof.now) }
{
    let node = proof.node();
    let word = word_for(&node.step);
    let given = parts_of(alloc, &node.step)?;
    let items = laid(alloc, word, given.as_slice(), node.subproofs.as_slice())?;
    Ok(Form::list(items))
}

/// Writes the text of a proof at the end of a text (docs/SYNTAX.md, "Texts of proofs"). Where there is no memory the text is as before.
pub fn print_proof(alloc: Global, proof: &Proof, out: &mut Text) -> Result<(), Memory>
    ensures ok { OnOk result (out.new ≡ out.old ++ spec.proof_text proof.now) }
    ensures again { OnOk result (IsReadAgain (spec.form_of_proof proof.now)) }
    ensures err { OnErr result (out.new ≡ out.old) }
{
    let form = proof_form(alloc, proof)?;
    print_form(&form, out)
}
