//! The shapes of the parts of forms.

ghost use Rattle.std.specs.Prelude.{◌≡◌, false, map, IfSome, IfNone};
ghost use Rattle.std.specs.Option.{option_map};
ghost use Rattle.lisp_data.specs.Datum.{chain, nil_form};
ghost use Rattle.lisp_data.specs.FormView.{form_of, IsProper, AllProper};
ghost use Rattle.term_forms.specs.Shapes.{pair_of};
ghost use Rattle.term_forms.specs.Translation as spec;

use lisp_data::Form;

/// The items of a list without a point.
#[tactic(auto, using(crate::proofs::ShapeLemmas::lists))]
pub(crate) fn list_items(form: &Form) -> Option<&[Form]>
    requires { IsProper form.now }
    ensures some { IfSome result (λ xs. form_of form.now ≡ chain (map form_of xs.now) nil_form) }
    ensures none { IfNone result (spec.is_list (form_of form.now) ≡ false) }
    ensures proper { IfSome result (λ xs. AllProper xs.now) }
{
    match form {
        Form::Int(_) | Form::Text(_) => None,
        Form::Sym(name) => { if name.is_nil() { Some(&[]) } else { None } }
        Form::List(items, tail) => match tail {
            None => Some(items.as_slice()),
            Some(_) => None,
        },
    }
}

/// The items of a list of two.
#[tactic(auto, using(crate::proofs::ShapeLemmas::pairs))]
pub(crate) fn two_items(form: &Form) -> Option<(&Form, &Form)>
    requires { IsProper form.now }
    ensures items { option_map (λ p. (form_of p.0.now, form_of p.1.now)) result ≡ pair_of (form_of form.now) }
    ensures proper { IfSome result (λ p. IsProper p.0.now × IsProper p.1.now) }
{
    match list_items(form) {
        None => None,
        Some(items) => match items {
            [first, second] => Some((first, second)),
            _ => None,
        },
    }
}

/// The symbol T.
#[tactic(auto, using(crate::proofs::ShapeLemmas::symbols))]
pub(crate) fn is_t(form: &Form) -> bool
    requires { IsProper form.now }
    ensures { result ≡ spec.is_t (form_of form.now) }
{
    match form {
        Form::Sym(name) => name.text() == "T",
        Form::Int(_) | Form::Text(_) | Form::List(_, _) => false,
    }
}
