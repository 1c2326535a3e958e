//! The texts of terms.

ghost use Rattle.std.specs.Prelude.{◌≡◌, ◌++◌, OnOk, OnErr};
ghost use Rattle.lisp_reader.specs.Printed.{IsPrintable};
ghost use Rattle.lisp_reader.specs.Writes.{Extends};
ghost use Rattle.term_forms.specs.Printing.{term_text, arguments_text, form_of_arguments, IsPrintableTerm, IsTermAgain};
ghost use Rattle.terms.specs.Terms.{tms};

use lisp_data::{Memory, Text};
use lisp_reader::print_value;
use terms::{Node, Term};

/// A term, or as much of it as there is memory for.
#[cycle(terms)]
#[tactic(auto, using(crate::proofs::Prints::prints))]
fn write_term(term: &Term, out: &mut Text) -> Result<(), Memory>
    ensures ok { OnOk result (out.new ≡ out.old ++ term_text term.now) }
    ensures printable { OnOk result (IsPrintableTerm term.now) }
    ensures err { OnErr result (Extends out.old out.new) }
{
    match term.node() {
        Node::Var(name) => out.extend(name.text().as_bytes()),
        Node::Quote(value) => {
            out.push(b'\'')?;
            print_value(value, out)
        }
        Node::Call(name, args) => {
            out.push(b'(')?;
            out.extend(name.text().as_bytes())?;
            write_arguments(args.as_slice(), out)
        }
    }
}

/// What follows the name of a call.
#[cycle(terms)]
#[tactic(auto, using(crate::proofs::Prints::prints))]
fn write_arguments(terms: &[Term], out: &mut Text) -> Result<(), Memory>
    ensures ok { OnOk result (out.new ≡ out.old ++ arguments_text (tms terms.now)) }
    ensures printable { OnOk result (IsPrintable (form_of_arguments (tms terms.now))) }
    ensures err { OnErr result (Extends out.old out.new) }
{
    for term in terms {
        out.push(b' ')?;
        write_term(term, out)?;
    }
    out.push(b')')
}

/// Writes a term at the end of a text: a variable as it is, a quoted value after a quote, a call as a list of its name and its
/// arguments. Where there is no memory the text is as before.
#[tactic(auto, using(lisp_reader::proofs::Prints::cuts, crate::proofs::Prints::again))]
pub fn print_term(term: &Term, out: &mut Text) -> Result<(), Memory>
    ensures ok { OnOk result (out.new ≡ out.old ++ term_text term.now) }
    ensures printable { OnOk result (IsPrintableTerm term.now) }
    ensures again { OnOk result (IsTermAgain term.now) }
    ensures err { OnErr result (out.new ≡ out.old) }
{
    let len = out.len();
    let written = write_term(term, out);
    if written.is_err() {
        out.truncate(len);
    }
    written
}
