//! The translation of forms to terms (docs/SYNTAX.md, "Terms").

ghost use Rattle.std.specs.Prelude.{◌≡◌, ◌<◌, length, map, Ok};
ghost use Rattle.lisp_data.specs.Datum.{chain, nil_form, PairForm, SymForm};
ghost use Rattle.lisp_data.specs.FormView.{form_of, IsProper, AllProper};
ghost use Rattle.term_forms.specs.Bindings.{stands, AreAllProper};
ghost use Rattle.term_forms.specs.Lets.{let_outcome, in_turn_outcome, after_bindings};
ghost use Rattle.term_forms.specs.Heads.{IsWord, head_of};
ghost use Rattle.term_forms.specs.Outcomes.{each};
ghost use Rattle.term_forms.specs.Translation as spec;
ghost use Rattle.term_forms.specs.Translation.{and_then, map_outcome, limited};
ghost use Rattle.term_forms.specs.view.TranslationView.{allowed, SaysOutcome};

use crate::bindings::{
    Binding, Variables, check_distinct, read_bindings, replace_at_once, replace_in_turn,
};
use crate::clauses::{Clause, chosen};
use crate::counted::Counted;
use crate::macros::Macro;
use crate::naming::{is_function_name, is_variable_name};
use crate::scope::Scope;
use crate::shapes::{is_t, two_items};
use lisp_data::{Code, Detail, Form, Memory, Seq, Symbol, Text, Value, ValueError};
use lisp_reader::value_of;
use std::alloc::Global;
use terms::{Signatures, Term};

/// Why a form is no term.
#[derive(Drop)]
pub enum TermError {
    /// The form, or a part of it, is refused (docs/SYNTAX.md, "Terms").
    Refused { code: Code, detail: Detail },
    Memory,
}

impl From<Memory> for TermError {
    ghost use Rattle.std.specs.Prelude.{◌≡◌};
    ghost use Rattle.term_forms.specs.declared.translation.TermError.TheVariants.{Memory as OutOfMemory};

    ghost from_gives = { λ _ e. e ≡ OutOfMemory };

    fn from(_error: Memory) -> TermError {
        TermError::Memory
    }
}

/// What the head of a list stands for.
#[derive(Clone, Copy)]
enum Word {
    Quote,
    Let,
    LetInTurn,
    Cond,
    Macro(Macro),
    Call,
}

/// A form of another shape than a term's.
pub(crate) fn bad_form<T>(alloc: Global) -> Result<T, TermError>
    ensures { SaysOutcome spec.bad_form result }
{
    let word = Text::from_slice(alloc, b"term")?;
    Err(TermError::Refused {
        code: Code::BadForm,
        detail: Detail::Word(word),
    })
}

fn atom(alloc: Global, symbol: &Symbol, scope: &Variables<'_>) -> Result<Counted, TermError>
    ensures { SaysOutcome (spec.atom (stands scope.now) symbol.now) result }
{
    if !is_function_name(symbol) {
        let constant = Counted::quote(alloc, Value::Sym(symbol.share()?))?;
        Ok(constant)
    } else if !is_variable_name(symbol) {
        bad_form(alloc)
    } else if scope.allows(symbol) {
        let variable = Counted::var(alloc, symbol.share()?)?;
        Ok(variable)
    } else {
        Err(TermError::Refused {
            code: Code::UnboundVariable,
            detail: Detail::Name(symbol.share()?),
        })
    }
}

#[tactic(auto, using(crate::proofs::Quoted::quoted))]
fn quoted(alloc: Global, form: &Form) -> Result<Counted, TermError>
    ensures { SaysOutcome (spec.quoted (form_of form.now)) result }
{
    match value_of(alloc, form) {
        Ok(value) => {
            let quoted = Counted::quote(alloc, value)?;
            Ok(quoted)
        }
        Err(error) => match error {
            ValueError::NotAValue => bad_form(alloc),
            ValueError::TooLarge => Err(TermError::Refused {
                code: Code::TermTooLarge,
                detail: Detail::Absent,
            }),
            ValueError::Memory => Err(TermError::Memory),
        },
    }
}

impl Word {
    #[tactic(auto, using(crate::proofs::Heads::words))]
    fn of(name: &Symbol) -> Word
        ensures { IsWord name.now result }
    {
        match name.text() {
            "QUOTE" => Word::Quote,
            "LET" => Word::Let,
            "LET*" => Word::LetInTurn,
            "COND" => Word::Cond,
            _ => match Macro::of(name) {
                Some(word) => Word::Macro(word),
                None => Word::Call,
            },
        }
    }

    /// Whether it may stand before so many parts.
    fn check<S: Signatures>(
        self,
        alloc: Global,
        name: &Symbol,
        count: usize,
        sigs: &S,
    ) -> Result<(), TermError>
        ensures { SaysOutcome (head_of self (S.arity_of sigs.now) name.now count) result }
    {
        match self {
            Word::Quote => parts_if(alloc, count == 1),
            Word::Let | Word::LetInTurn => parts_if(alloc, count == 2),
            Word::Cond => Ok(()),
            Word::Macro(word) => parts_if(alloc, word.takes(count)),
            Word::Call => check_call(name, count, sigs),
        }
    }
}

fn parts_if(alloc: Global, right: bool) -> Result<(), TermError>
    ensures { SaysOutcome (spec.parts_if right) result }
{
    if right { Ok(()) } else { bad_form(alloc) }
}

fn check_call<S: Signatures>(name: &Symbol, count: usize, sigs: &S) -> Result<(), TermError>
    ensures { SaysOutcome (spec.call_head name.now (S.arity_of sigs.now name.now) count) result }
{
    match sigs.arity(name) {
        None => Err(TermError::Refused {
            code: Code::UnknownName,
            detail: Detail::Name(name.share()?),
        }),
        Some(arity) => {
            if arity == count {
                Ok(())
            } else {
                Err(TermError::Refused {
                    code: Code::WrongArity,
                    detail: Detail::Name(name.share()?),
                })
            }
        }
    }
}

/// The term of a form, with its size.
#[cycle(translate)]
#[tactic(auto, using(crate::proofs::Translated::forms))]
fn form_term<S: Signatures>(
    alloc: Global,
    form: &Form,
    sigs: &S,
    scope: &Variables<'_>,
) -> Result<Counted, TermError>
    requires { IsProper form.now }
    ensures { SaysOutcome (spec.translate (S.arity_of sigs.now) (stands scope.now) (form_of form.now)) result }
{
    match form {
        Form::Int(number) => {
            let literal = Counted::quote(alloc, Value::Int(*number))?;
            Ok(literal)
        }
        Form::Sym(symbol) => atom(alloc, symbol, scope),
        Form::Text(_) => bad_form(alloc),
        Form::List(items, tail) => match tail {
            None => list_term(alloc, items.as_slice(), sigs, scope),
            Some(_) => bad_form(alloc),
        },
    }
}

/// The term of a list of these items.
#[cycle(translate)]
#[tactic(auto, using(crate::proofs::Translated::lists))]
fn list_term<S: Signatures>(
    alloc: Global,
    items: &[Form],
    sigs: &S,
    scope: &Variables<'_>,
) -> Result<Counted, TermError>
    requires some { 0 < length items.now }
    requires proper { AllProper items.now }
    ensures { SaysOutcome (spec.translate (S.arity_of sigs.now) (stands scope.now) (chain (map form_of items.now) nil_form)) result }
{
    match items {
        [head, parts @ ..] => match head {
            Form::Sym(name) => named_term(alloc, name, parts, sigs, scope),
            Form::Int(_) | Form::Text(_) | Form::List(_, _) => bad_form(alloc),
        },
        [] => unreachable!(),
    }
}

/// The term of a name before its parts.
#[cycle(translate)]
#[tactic(auto, using(crate::proofs::Translated::heads))]
fn named_term<S: Signatures>(
    alloc: Global,
    name: &Symbol,
    parts: &[Form],
    sigs: &S,
    scope: &Variables<'_>,
) -> Result<Counted, TermError>
    requires { AllProper parts.now }
    ensures { SaysOutcome (spec.translate (S.arity_of sigs.now) (stands scope.now) (PairForm (SymForm name.now) (chain (map form_of parts.now) nil_form))) result }
{
    let word = Word::of(name);
    word.check(alloc, name, parts.len(), sigs)?;
    word_term(alloc, word, name, parts, sigs, scope)
}

/// The term of a word before as many parts as it takes.
#[cycle(translate)]
#[tactic(auto, using(crate::proofs::Translated::words))]
fn word_term<S: Signatures>(
    alloc: Global,
    word: Word,
    name: &Symbol,
    parts: &[Form],
    sigs: &S,
    scope: &Variables<'_>,
) -> Result<Counted, TermError>
    requires word { IsWord name.now word }
    requires head { head_of word (S.arity_of sigs.now) name.now (length parts.now) ≡ Ok tt }
    requires proper { AllProper parts.now }
    ensures { SaysOutcome (and_then (spec.by_word (S.arity_of sigs.now) (stands scope.now) name.now (chain (map form_of parts.now) nil_form)) limited) result }
{
    match word {
        Word::Quote => quoted(alloc, &parts[0]),
        Word::Let => let_term(alloc, &parts[0], &parts[1], sigs, scope),
        Word::LetInTurn => let_in_turn_term(alloc, &parts[0], &parts[1], sigs, scope),
        Word::Cond => cond_term(alloc, parts, sigs, scope),
        Word::Macro(word) => {
            let terms = part_terms(alloc, parts, sigs, scope)?;
            word.term(alloc, parts, terms.as_slice())
        }
        Word::Call => {
            let terms = part_terms(alloc, parts, sigs, scope)?;
            Counted::call(alloc, name.share()?, terms.as_slice())
        }
    }
}

/// The terms of parts.
#[cycle(translate)]
#[tactic(auto, using(crate::proofs::Translated::parts))]
fn part_terms<S: Signatures>(
    alloc: Global,
    parts: &[Form],
    sigs: &S,
    scope: &Variables<'_>,
) -> Result<Seq<Counted>, TermError>
    requires { AllProper parts.now }
    ensures { SaysOutcome (each (λ f. spec.translate (S.arity_of sigs.now) (stands scope.now) (form_of f)) parts.now) result }
{
    let mut terms = Seq::new(alloc);
    for part in parts {
        let term = form_term(alloc, part, sigs, scope)?;
        terms.push(term)?;
    }
    Ok(terms)
}

/// The term of `cond` before these clauses.
#[cycle(translate)]
#[tactic(auto, using(crate::proofs::Translated::parts, crate::proofs::Chosen::conditions))]
fn cond_term<S: Signatures>(
    alloc: Global,
    clauses: &[Form],
    sigs: &S,
    scope: &Variables<'_>,
) -> Result<Counted, TermError>
    requires { AllProper clauses.now }
    ensures { SaysOutcome (and_then (map_outcome spec.chosen (each (λ f. spec.clause (S.arity_of sigs.now) (stands scope.now) (form_of f)) clauses.now)) limited) result }
{
    let mut found = Seq::new(alloc);
    for clause in clauses {
        let clause = clause_of(alloc, clause, sigs, scope)?;
        found.push(clause)?;
    }
    chosen(alloc, found.as_slice())
}

/// The terms of a clause of `cond`.
#[cycle(translate)]
#[tactic(auto, using(crate::proofs::Chosen::clauses))]
fn clause_of<S: Signatures>(
    alloc: Global,
    clause: &Form,
    sigs: &S,
    scope: &Variables<'_>,
) -> Result<Clause, TermError>
    requires { IsProper clause.now }
    ensures { SaysOutcome (spec.clause (S.arity_of sigs.now) (stands scope.now) (form_of clause.now)) result }
{
    match two_items(clause) {
        None => bad_form(alloc),
        Some((test, answer)) => {
            let is_last = is_t(test);
            let test = form_term(alloc, test, sigs, scope)?;
            let answer = form_term(alloc, answer, sigs, scope)?;
            Ok(Clause::new(is_last, test, answer))
        }
    }
}

/// The term of `let`: the variables of the body are replaced all at once.
#[cycle(translate)]
#[tactic(auto, using(crate::proofs::Lets::lets))]
fn let_term<S: Signatures>(
    alloc: Global,
    bindings: &Form,
    body: &Form,
    sigs: &S,
    scope: &Variables<'_>,
) -> Result<Counted, TermError>
    requires bindings { IsProper bindings.now }
    requires body { IsProper body.now }
    ensures { SaysOutcome (let_outcome (S.arity_of sigs.now) (stands scope.now) (form_of bindings.now) (form_of body.now)) result }
{
    let read = read_bindings(alloc, bindings)?;
    let bindings = read.as_slice();
    check_distinct(bindings)?;
    let terms = bound_terms(alloc, bindings, sigs, scope)?;
    let inner = scope.with(alloc, bindings)?;
    let body = form_term(alloc, body, sigs, &inner)?;
    replace_at_once(alloc, bindings, terms.as_slice(), body)
}

/// The terms of the variables of bindings.
#[cycle(translate)]
#[tactic(auto, using(crate::proofs::Lets::terms))]
fn bound_terms<S: Signatures>(
    alloc: Global,
    bindings: &[Binding<'_>],
    sigs: &S,
    scope: &Variables<'_>,
) -> Result<Seq<Counted>, TermError>
    requires { AreAllProper bindings.now }
    ensures { SaysOutcome (each (λ b. spec.translate (S.arity_of sigs.now) (stands scope.now) (form_of b.form.now)) bindings.now) result }
{
    let mut terms = Seq::new(alloc);
    for binding in bindings {
        let term = form_term(alloc, binding.form, sigs, scope)?;
        terms.push(term)?;
    }
    Ok(terms)
}

/// The term of `let*`: the variables of the body are replaced one after the other.
#[cycle(translate)]
#[tactic(auto, using(crate::proofs::Lets::lists_in_turn))]
fn let_in_turn_term<S: Signatures>(
    alloc: Global,
    bindings: &Form,
    body: &Form,
    sigs: &S,
    scope: &Variables<'_>,
) -> Result<Counted, TermError>
    requires bindings { IsProper bindings.now }
    requires body { IsProper body.now }
    ensures { SaysOutcome (in_turn_outcome (S.arity_of sigs.now) (stands scope.now) (form_of bindings.now) (form_of body.now)) result }
{
    let bindings = read_bindings(alloc, bindings)?;
    in_turn_term(alloc, bindings.as_slice(), body, sigs, scope)
}

/// The term of a body after bindings, each of which also sees those before it.
#[cycle(translate)]
#[tactic(auto, using(crate::proofs::Lets::turns))]
fn in_turn_term<S: Signatures>(
    alloc: Global,
    bindings: &[Binding<'_>],
    body: &Form,
    sigs: &S,
    scope: &Variables<'_>,
) -> Result<Counted, TermError>
    requires bindings { AreAllProper bindings.now }
    requires body { IsProper body.now }
    ensures { SaysOutcome (and_then (after_bindings (S.arity_of sigs.now) (stands scope.now) bindings.now (form_of body.now)) limited) result }
{
    let mut inner = scope.with(alloc, &[])?;
    let mut images = Seq::new(alloc);
    for binding in bindings {
        let term = form_term(alloc, binding.form, sigs, &inner)?;
        images.push((binding.name.share()?, term))?;
        inner.push(binding.name.share()?)?;
    }
    let body = form_term(alloc, body, sigs, &inner)?;
    replace_in_turn(alloc, images.as_slice(), body)
}

/// The term of a form, where these functions may be called and variables of the scope may stand, or the first refusal: a form is
/// looked at from its head to its parts, these from left to right, and then at the size of its term.
pub fn translate<S: Signatures>(
    alloc: Global,
    form: &Form,
    sigs: &S,
    scope: &Scope<'_>,
) -> Result<Term, TermError>
    requires { IsProper form.now }
    ensures { SaysOutcome (spec.translate (S.arity_of sigs.now) (allowed scope.now) (form_of form.now)) result }
{
    let variables = Variables::of(alloc, scope);
    let counted = form_term(alloc, form, sigs, &variables)?;
    let term = counted.term().share()?;
    Ok(term)
}
