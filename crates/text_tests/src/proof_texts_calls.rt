//! Tests of texts of proofs.

ghost use Rattle.std.specs.Prelude.{IfOk};
ghost use Rattle.lisp_data.specs.FormView.{IsProper};

use lisp_data::{Code, Form, Forms, Memory, Seq, Symbol, Text};
use proof_objects::{Proof, Rule, Step};
use proof_texts::{ProofError, items, print_proof, read_proof};
use std::alloc::Global;
use std::process::Abort;
use std::test::Fail;
use terms::{Path, Term, Terms};
use worlds::World;

/// `(dup x)`
fn call(alloc: Global) -> Result<Term, Fail> {
    let mut args = Terms::new(alloc);
    args.push(Term::var(alloc, Symbol::new(alloc, "X")?)?)?;
    Ok(Term::call(alloc, Symbol::new(alloc, "DUP")?, args)?)
}

/// The proof of the first book.
fn proof(alloc: Global) -> Result<Proof, Fail> {
    let mut args = Terms::new(alloc);
    args.push(call(alloc)?)?;
    let car = Term::call(alloc, Symbol::new(alloc, "CAR")?, args)?;
    let mut subproofs = Seq::new(alloc);
    subproofs.push(Proof::new(alloc, Step::Unfold(call(alloc)?), Seq::new(alloc))?)?;
    subproofs.push(Proof::new(alloc, Step::Refl(car), Seq::new(alloc))?)?;
    let step = Step::Replace(Path::from_slice(alloc, &[2, 1])?);
    Ok(Proof::new(alloc, step, subproofs)?)
}

#[test]
fn prints_the_proof_of_the_first_book(rt: HostRuntime) -> Result<(), Fail> {
    let mut out = Text::new(rt.alloc());
    print_proof(rt.alloc(), &proof(rt.alloc())?, &mut out)?;
    assert_eq!(rt;
        out.as_slice(),
        b"(:REPLACE (:UNFOLD (DUP X)) (:REFL (CAR (DUP X))) (2 1))".as_slice()
    );
    Ok(())
}

#[tactic(auto, using(lisp_data::proofs::Proper::leaves))]
fn symbol_form(alloc: Global, text: &str) -> Result<Form, Fail>
    ensures { IfOk result IsProper }
{
    Ok(Form::Sym(Symbol::new(alloc, text)?))
}

/// A list of a word and the variable x.
fn text_of_one(alloc: Global, word: &str) -> Result<Form, Fail>
    ensures { IfOk result IsProper }
{
    let mut items = Forms::new(alloc);
    items.push(symbol_form(alloc, word)?)?;
    items.push(symbol_form(alloc, "x")?)?;
    Ok(Form::list(items))
}

/// `(:instance equal-same nil)`
fn instance(alloc: Global) -> Result<Form, Fail>
    ensures { IfOk result IsProper }
{
    let mut items = Forms::new(alloc);
    items.push(symbol_form(alloc, ":instance")?)?;
    items.push(symbol_form(alloc, "equal-same")?)?;
    items.push(symbol_form(alloc, "nil")?)?;
    Ok(Form::list(items))
}

#[test]
fn reads_a_proof(rt: HostRuntime) -> Result<(), Fail> {
    let world = World::initial(rt.alloc())?;
    for (word, rule) in [(":refl", Rule::Refl), (":eval", Rule::Eval)] {
        let form = text_of_one(rt.alloc(), word)?;
        match read_proof(rt.alloc(), &world, &form) {
            Ok(proof) => assert_eq!(rt; proof.node().step.rule(), rule),
            Err(_) => assert!(rt; false),
        }
    }
    Ok(())
}

fn assert_refused(rt: &impl Abort, error: &ProofError, code: Code) {
    match error {
        ProofError::Refused { code: given, .. } => assert_eq!(rt; *given, code),
        ProofError::Memory => assert!(rt; false),
    }
}

#[test]
fn reads_an_instance(rt: HostRuntime) -> Result<(), Fail> {
    let world = World::initial(rt.alloc())?;
    match read_proof(rt.alloc(), &world, &instance(rt.alloc())?) {
        Ok(proof) => assert_eq!(rt; proof.node().step.rule(), Rule::Instance),
        Err(_) => assert!(rt; false),
    }
    Ok(())
}

#[test]
fn says_why_a_text_is_no_proof(rt: HostRuntime) -> Result<(), Fail> {
    let world = World::initial(rt.alloc())?;
    let short = text_of_one(rt.alloc(), ":replace")?;
    match read_proof(rt.alloc(), &world, &short) {
        Ok(_) => assert!(rt; false),
        Err(error) => assert_refused(&rt, &error, Code::BadForm),
    }
    Ok(())
}
