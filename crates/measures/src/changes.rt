//! Which formals recursive calls change.

ghost use Rattle.std.specs.Prelude.{◌≡◌, map};
ghost use Rattle.std.specs.List.{list_all};
ghost use Rattle.std.specs.Option.{option_copied};
ghost use Rattle.terms.specs.Substitution.{or_var};
ghost use Rattle.terms.specs.Terms.{by_args, tms};
ghost use Rattle.measures.specs.view.Calls.{call_of};
ghost use Rattle.measures.specs.DefaultMeasure as spec;

use crate::calls::RecursiveCall;
use crate::shapes::is_variable;
use lisp_data::Symbol;
use terms::Term;

/// The argument that stands for a formal.
fn argument<'a>(formals: &[Symbol], args: &'a [Term], formal: &Symbol) -> Option<&'a Term>
    ensures { or_var formal.now (option_copied result) ≡ by_args formals.now (tms args.now) formal.now }
{
    for i in 0..formals.len() {
        if formals[i].same(formal) {
            return args.get(i);
        }
    }
    None
}

/// Whether the call changes the formal: its argument for it is another term.
fn changes(formals: &[Symbol], formal: &Symbol, call: &RecursiveCall) -> bool
    ensures { result ≡ spec.changes formals.now formal.now (call_of call.now) }
{
    match argument(formals, call.args.as_slice(), formal) {
        Some(argument) => !is_variable(argument, formal),
        None => false,
    }
}

/// Whether each of the calls changes the formal.
pub(crate) fn all_change(formals: &[Symbol], formal: &Symbol, calls: &[RecursiveCall]) -> bool
    ensures { result ≡ list_all (spec.changes formals.now formal.now) (map call_of calls.now) }
{
    for call in calls {
        if !changes(formals, formal, call) {
            return false;
        }
    }
    true
}
