//! Terms for the variables that a form binds.

ghost use Rattle.std.specs.Prelude.{◌≡◌, [], ◌∷◌, length, map, IfOk, OnOk};
ghost use Rattle.std.specs.Option.{option_copied};
ghost use Rattle.term_forms.specs.Outcomes.{each};
ghost use Rattle.terms.specs.Primitives.{lookup};
ghost use Rattle.terms.specs.Substitution.{by_pairs};
ghost use Rattle.terms.specs.Terms.{Call, tms, substitute};
ghost use Rattle.term_forms.specs.Translation.{limited, with_names};
ghost use Rattle.term_forms.specs.Words.{folded};
ghost use Rattle.terms.specs.Worlds.{is_in};
ghost use Rattle.term_forms.specs.Bindings.{stands, names_of, variable_of, replaced_by, AreAllProper, SaysBinding, SaysBindings};
ghost use Rattle.term_forms.specs.Translation as spec;
ghost use Rattle.lisp_data.specs.Datum.{chain, nil_form};
ghost use Rattle.lisp_data.specs.FormView.{form_of, IsProper, AllProper};
ghost use Rattle.std.specs.List.{zip};
ghost use Rattle.term_forms.specs.view.TranslationView.{allowed, SaysOutcome};

use crate::counted::Counted;
use crate::naming::is_variable_name;
use crate::scope::Scope;
use crate::shapes::{list_items, two_items};
use crate::translation::{TermError, bad_form};
use lisp_data::{Code, Detail, Form, Memory, Seq, Symbol, Symbols};
use std::alloc::Global;
use terms::{Node, Term};

/// The variables that may stand: those that forms around bind, and those of the scope outside.
pub(crate) struct Variables<'a> {
    bound: Symbols,
    outer: &'a Scope<'a>,
}

impl Drop for Variables<'_> {
    fn drop(self) {
        let Variables { bound: _, outer: _ } = self;
    }
}

fn is_among(names: &Symbols, name: &Symbol) -> bool
    ensures { result ≡ is_in names.now name.now }
{
    for other in names.as_slice() {
        if other.same(name) {
            return true;
        }
    }
    false
}

impl<'a> Variables<'a> {
    pub(crate) fn of(alloc: Global, outer: &'a Scope<'a>) -> Variables<'a>
        ensures { stands result ≡ allowed outer.now }
    {
        Variables {
            bound: Symbols::new(alloc),
            outer,
        }
    }

    pub(crate) fn allows(&self, name: &Symbol) -> bool
        ensures { result ≡ stands self.now name.now }
    {
        if is_among(&self.bound, name) {
            return true;
        }
        match self.outer {
            Scope::Any => true,
            Scope::Only(names) => is_among(names, name),
        }
    }

    /// One more name.
    pub(crate) fn push(&mut self, name: Symbol) -> Result<(), Memory>
        ensures { OnOk result (stands self.new ≡ with_names (name ∷ []) (stands self.old)) }
    {
        self.bound.push(name)?;
        Ok(())
    }

    /// The variables of these bindings besides.
    #[tactic(auto, using(crate::proofs::Bound::grown))]
    pub(crate) fn with(
        &self,
        alloc: Global,
        bindings: &[Binding<'_>],
    ) -> Result<Variables<'a>, Memory>
        ensures { IfOk result (λ v. stands v ≡ with_names (names_of bindings.now) (stands self.now)) }
    {
        let mut bound = self.bound.copy(alloc)?;
        for binding in bindings {
            bound.push(binding.name.share()?)?;
        }
        Ok(Variables {
            bound,
            outer: self.outer,
        })
    }
}

/// A variable that a form binds, and the form of its term.
pub(crate) struct Binding<'a> {
    pub(crate) name: Symbol,
    pub(crate) form: &'a Form,
}

impl Drop for Binding<'_> {
    fn drop(self) {
        let Binding { name: _, form: _ } = self;
    }
}

#[tactic(auto, using(crate::proofs::Bound::variables))]
fn variable(alloc: Global, form: &Form) -> Result<Symbol, TermError>
    requires { IsProper form.now }
    ensures { SaysOutcome (variable_of (form_of form.now)) result }
{
    match form {
        Form::Sym(name) => {
            if is_variable_name(name) {
                Ok(name.share()?)
            } else {
                bad_form(alloc)
            }
        }
        Form::Int(_) | Form::Text(_) | Form::List(_, _) => bad_form(alloc),
    }
}

impl<'a> Binding<'a> {
    #[tactic(auto, using(crate::proofs::Bound::pairs))]
    fn of(alloc: Global, form: &'a Form) -> Result<Binding<'a>, TermError>
        requires { IsProper form.now }
        ensures says { SaysBinding (form_of form.now) result }
        ensures proper { IfOk result (λ b. IsProper b.form.now) }
    {
        match two_items(form) {
            None => bad_form(alloc),
            Some((name, form)) => {
                let name = variable(alloc, name)?;
                Ok(Binding { name, form })
            }
        }
    }
}

#[tactic(auto, using(crate::proofs::Bound::lists))]
fn bindings_of<'a>(alloc: Global, items: &'a [Form]) -> Result<Seq<Binding<'a>>, TermError>
    requires { AllProper items.now }
    ensures says { SaysBindings (chain (map form_of items.now) nil_form) result }
    ensures proper { IfOk result AreAllProper }
{
    let mut bindings = Seq::new(alloc);
    for item in items {
        let binding = Binding::of(alloc, item)?;
        bindings.push(binding)?;
    }
    Ok(bindings)
}

/// The bindings of a list of them.
#[tactic(auto, using(crate::proofs::Bound::shapes))]
pub(crate) fn read_bindings<'a>(
    alloc: Global,
    form: &'a Form,
) -> Result<Seq<Binding<'a>>, TermError>
    requires { IsProper form.now }
    ensures says { SaysBindings (form_of form.now) result }
    ensures proper { IfOk result AreAllProper }
{
    match list_items(form) {
        None => bad_form(alloc),
        Some(items) => bindings_of(alloc, items),
    }
}

fn binds(bindings: &[Binding<'_>], name: &Symbol) -> bool
    ensures { result ≡ is_in (names_of bindings.now) name.now }
{
    for binding in bindings {
        if binding.name.same(name) {
            return true;
        }
    }
    false
}

/// No variable stands twice.
#[tactic(auto, using(crate::proofs::Bound::repeats))]
pub(crate) fn check_distinct(bindings: &[Binding<'_>]) -> Result<(), TermError>
    ensures { SaysOutcome (spec.distinct_after [] (names_of bindings.now)) result }
{
    for i in 0..bindings.len() {
        let name = &bindings[i].name;
        if binds(&bindings[..i], name) {
            return Err(TermError::Refused {
                code: Code::RepeatedFormal,
                detail: Detail::Name(name.share()?),
            });
        }
    }
    Ok(())
}

/// The terms of the bindings' variables.
#[tactic(auto, using(crate::proofs::Bound::images))]
fn images(
    alloc: Global,
    bindings: &[Binding<'_>],
    terms: &[Counted],
) -> Result<Seq<(Symbol, Counted)>, Memory>
    requires { length terms.now ≡ length bindings.now }
    ensures { IfOk result (λ s. s ≡ zip (names_of bindings.now) terms.now) }
{
    let mut images = Seq::new(alloc);
    for i in 0..bindings.len() {
        images.push((bindings[i].name.share()?, terms[i].share()?))?;
    }
    Ok(images)
}

fn image<'a>(images: &'a [(Symbol, Counted)], name: &Symbol) -> Option<&'a Counted>
    ensures { option_copied result ≡ lookup images.now name.now }
{
    for pair in images {
        if pair.0.same(name) {
            return Some(&pair.1);
        }
    }
    None
}

#[cycle(replace)]
#[tactic(auto, using(crate::proofs::Replaced::replaced))]
fn replace_all(
    alloc: Global,
    terms: &[Term],
    images: &[(Symbol, Counted)],
) -> Result<Seq<Counted>, TermError>
    ensures { SaysOutcome (each (λ t. limited (substitute (by_pairs images.now) t)) terms.now) result }
{
    let mut parts = Seq::new(alloc);
    for term in terms {
        let part = replace(alloc, term, images)?;
        parts.push(part)?;
    }
    Ok(parts)
}

#[cycle(replace)]
#[tactic(auto, using(crate::proofs::Replaced::replaced))]
fn replace_call(
    alloc: Global,
    name: &Symbol,
    args: &[Term],
    images: &[(Symbol, Counted)],
) -> Result<Counted, TermError>
    ensures { SaysOutcome (limited (substitute (by_pairs images.now) (Call name.now (tms args.now)))) result }
{
    let parts = replace_all(alloc, args, images)?;
    Counted::call(alloc, name.share()?, parts.as_slice())
}

/// The term with these variables replaced, all at once, where it is within the limits.
#[cycle(replace)]
#[tactic(auto, using(crate::proofs::Replaced::replaced))]
pub(crate) fn replace(
    alloc: Global,
    term: &Term,
    images: &[(Symbol, Counted)],
) -> Result<Counted, TermError>
    ensures { SaysOutcome (limited (substitute (by_pairs images.now) term.now)) result }
{
    match term.node() {
        Node::Var(name) => match image(images, name) {
            Some(image) => {
                image.keeps_limits();
                Ok(image.share()?)
            }
            None => Ok(Counted::var(alloc, name.share()?)?),
        },
        Node::Quote(value) => Ok(Counted::quote(alloc, value.share()?)?),
        Node::Call(name, args) => replace_call(alloc, name, args.as_slice(), images),
    }
}

/// The term with the variables of bindings replaced by these terms, all at once.
pub(crate) fn replace_at_once(
    alloc: Global,
    bindings: &[Binding<'_>],
    terms: &[Counted],
    body: Counted,
) -> Result<Counted, TermError>
    requires { length terms.now ≡ length bindings.now }
    ensures { SaysOutcome (limited (substitute (by_pairs (zip (names_of bindings.now) terms.now)) body)) result }
{
    let images = images(alloc, bindings, terms)?;
    replace(alloc, body.term(), images.as_slice())
}

/// The term with these variables replaced one after the other, the last one first. What is too large stays so.
#[tactic(auto, using(crate::proofs::InTurn::steps))]
pub(crate) fn replace_in_turn(
    alloc: Global,
    images: &[(Symbol, Counted)],
    term: Counted,
) -> Result<Counted, TermError>
    ensures { SaysOutcome (limited (folded replaced_by images.now term)) result }
{
    let mut replaced = term;
    let mut i = images.len();
    'images: while i > 0 {
        i -= 1;
        replaced = replace(alloc, replaced.term(), &images[i..i + 1])?;
    }
    replaced.keeps_limits();
    Ok(replaced)
}
