//! Forms.

ghost use Rattle.std.specs.Prelude.{◌≡◌, [], ◌∷◌, ◌++◌, ◌<◌, length, map, slice_get, IfOk, IfSome, IfNone, OnOk, OnErr, OnSome, IsTrue};
ghost use Rattle.std.specs.Option.{option_map, option_copied};
ghost use Rattle.lisp_data.specs.Datum.{IntForm, SymForm, TextForm, PairForm, nil_form, chain};
ghost use Rattle.lisp_data.specs.view.FormView.{form_of, forms_of, items_of, end_of, IsEnd, IsProper, AllProper, AreProper, EndIsProper};

use crate::symbol::Symbol;
use lists::{Bytes, Memory};
use std::alloc::Global;
use std::rc::Rc;

/// An integer, a symbol, a text, or a list of at least one form, with a form after its point or none.
#[cycle(form)]
#[derive(Drop)]
pub enum Form {
    Int(i128),
    Sym(Symbol),
    Text(Bytes),
    List(Forms, Option<Rc<Form>>),
}

/// A list of forms.
#[cycle(form)]
#[derive(Drop)]
pub struct Forms {
    items: Vec<Form>,
}

impl Forms {
    pub fn new(alloc: Global) -> Forms
        ensures forms { forms_of result ≡ [] }
        ensures proper { AreProper result }
    {
        Forms {
            items: Vec::new(alloc),
        }
    }

    pub fn len(&self) -> usize
        ensures { result ≡ length (forms_of self.now) }
    {
        self.items.len()
    }

    pub fn as_slice(&self) -> &[Form]
        ensures forms { map form_of result.now ≡ forms_of self.now }
        ensures items { result.now ≡ items_of self.now }
    {
        self.items.as_slice()
    }

    pub fn get(&self, place: usize) -> Option<&Form>
        ensures form { option_map form_of (option_copied result) ≡ slice_get (forms_of self.now) place }
        ensures proper { IfSome result (λ f. AreProper self.now → IsProper f.now) }
    {
        self.items.get(place)
    }

    /// Adds a form at the end. Where there is no memory the list is as before.
    #[tactic(auto, using(crate::proofs::Proper::proper))]
    pub fn push(&mut self, item: Form) -> Result<(), Memory>
        ensures ok { OnOk result (forms_of self.new ≡ forms_of self.old ++ form_of item ∷ []) }
        ensures err { OnErr result (forms_of self.new ≡ forms_of self.old) }
        ensures proper { OnOk result (AreProper self.old → IsProper item → AreProper self.new) }
        ensures kept { OnErr result (AreProper self.old → AreProper self.new) }
    {
        match self.items.push(item) {
            Ok(()) => Ok(()),
            Err(_) => Err(Memory),
        }
    }

    /// Adds the forms of another list at the end. Where there is no memory the list is as before.
    #[tactic(auto, using(crate::proofs::Proper::proper))]
    pub fn append(&mut self, mut rest: Forms) -> Result<(), Memory>
        ensures ok { OnOk result (forms_of self.new ≡ forms_of self.old ++ forms_of rest) }
        ensures err { OnErr result (forms_of self.new ≡ forms_of self.old) }
        ensures proper { OnOk result (AreProper self.old → AreProper rest → AreProper self.new) }
        ensures kept { OnErr result (AreProper self.old → AreProper self.new) }
    {
        match self.items.append(&mut rest.items) {
            Ok(()) => Ok(()),
            Err(_) => Err(Memory),
        }
    }
}

impl Form {
    /// Items alone.
    #[tactic(auto, using(crate::proofs::Proper::proper))]
    pub fn list(items: Forms) -> Form
        ensures form { form_of result ≡ chain (forms_of items) nil_form }
        ensures proper { AreProper items → 0 < length (forms_of items) → IsProper result }
    {
        Form::List(items, None)
    }

    /// Items, and an end that is neither a list nor NIL.
    #[tactic(auto, using(crate::proofs::Proper::proper))]
    fn ended(alloc: Global, items: Forms, end: Form) -> Result<Form, Memory>
        ensures form { IfOk result (λ f. form_of f ≡ chain (forms_of items) (form_of end)) }
        ensures proper { IfOk result (λ f. AreProper items → 0 < length (forms_of items) → IsProper end → IsEnd end → IsProper f) }
    {
        match Rc::new(alloc, end) {
            Ok(end) => Ok(Form::List(items, Some(end))),
            Err(_) => Err(Memory),
        }
    }

    /// Items, and the form after the point. A list there, or NIL, is joined to the items.
    #[tactic(auto, using(crate::proofs::Proper::proper))]
    pub fn dotted(alloc: Global, mut items: Forms, tail: Form) -> Result<Form, Memory>
        ensures form { IfOk result (λ f. form_of f ≡ chain (forms_of items) (form_of tail)) }
        ensures proper { IfOk result (λ f. AreProper items → 0 < length (forms_of items) → IsProper tail → IsProper f) }
    {
        match tail {
            Form::List(rest, end) => {
                items.append(rest)?;
                Ok(Form::List(items, end))
            }
            Form::Sym(name) => {
                if name.is_nil() {
                    Ok(Form::List(items, None))
                } else {
                    Form::ended(alloc, items, Form::Sym(name))
                }
            }
            Form::Int(_) | Form::Text(_) => Form::ended(alloc, items, tail),
        }
    }

    /// Whether it is the same form.
    #[cycle(same)]
    #[tactic(auto, using(crate::proofs::Same::same))]
    pub fn same(&self, other: &Form) -> bool
        ensures found { IsTrue result → form_of self.now ≡ form_of other.now }
        ensures only { IsProper self.now → IsProper other.now → form_of self.now ≡ form_of other.now → IsTrue result }
    {
        match self {
            Form::Int(a) => match other {
                Form::Int(b) => a == b,
                Form::Sym(_) | Form::Text(_) | Form::List(_, _) => false,
            },
            Form::Sym(a) => match other {
                Form::Sym(b) => a.same(b),
                Form::Int(_) | Form::Text(_) | Form::List(_, _) => false,
            },
            Form::Text(a) => match other {
                Form::Text(b) => a.as_slice() == b.as_slice(),
                Form::Int(_) | Form::Sym(_) | Form::List(_, _) => false,
            },
            Form::List(xs, tail) => match other {
                Form::List(ys, end) => same_all(xs.as_slice(), ys.as_slice())
                    && same_end(tail, end),
                Form::Int(_) | Form::Sym(_) | Form::Text(_) => false,
            },
        }
    }

    /// An equal form.
    #[cycle(copy)]
    #[tactic(auto, using(crate::proofs::Proper::copies))]
    pub fn copy(&self, alloc: Global) -> Result<Form, Memory>
        ensures form { IfOk result (λ f. form_of f ≡ form_of self.now) }
        ensures proper { IfOk result (λ f. IsProper self.now → IsProper f) }
    {
        match self {
            Form::Int(number) => Ok(Form::Int(*number)),
            Form::Sym(symbol) => Ok(Form::Sym(symbol.share()?)),
            Form::Text(text) => Ok(Form::Text(text.copy(alloc)?)),
            Form::List(items, tail) => {
                let items = items.copy(alloc)?;
                match tail {
                    None => Ok(Form::list(items)),
                    Some(tail) => {
                        let tail = tail.copy(alloc)?;
                        let form = Form::dotted(alloc, items, tail)?;
                        Ok(form)
                    }
                }
            }
        }
    }
}

impl Forms {
    /// An equal list.
    #[cycle(copy)]
    #[tactic(auto, using(crate::proofs::Proper::copies))]
    pub fn copy(&self, alloc: Global) -> Result<Forms, Memory>
        ensures forms { IfOk result (λ fs. forms_of fs ≡ forms_of self.now) }
        ensures proper { IfOk result (λ fs. AreProper self.now → AreProper fs) }
    {
        let mut copy = Forms::new(alloc);
        for item in &self.items {
            copy.push(item.copy(alloc)?)?;
        }
        Ok(copy)
    }
}

#[cycle(same)]
#[tactic(auto, using(crate::proofs::Chains::lists))]
fn same_all(xs: &[Form], ys: &[Form]) -> bool
    ensures found { IsTrue result → map form_of xs.now ≡ map form_of ys.now }
    ensures only { AllProper xs.now → AllProper ys.now → map form_of xs.now ≡ map form_of ys.now → IsTrue result }
{
    if xs.len() != ys.len() {
        return false;
    }
    for i in 0..xs.len() {
        if !xs[i].same(&ys[i]) {
            return false;
        }
    }
    true
}

/// Whether two lists have the same form after their point, or none.
#[cycle(same)]
#[tactic(auto, using(crate::proofs::Same::same))]
fn same_end(tail: &Option<Rc<Form>>, end: &Option<Rc<Form>>) -> bool
    ensures found { IsTrue result → end_of tail.now ≡ end_of end.now }
    ensures only { EndIsProper tail.now → EndIsProper end.now → end_of tail.now ≡ end_of end.now → IsTrue result }
{
    match tail {
        None => end.is_none(),
        Some(a) => match end {
            None => false,
            Some(b) => a.same(b),
        },
    }
}
