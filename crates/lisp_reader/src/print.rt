//! The texts of forms and values.

ghost use Rattle.std.specs.Prelude.{◌≡◌, ◌++◌, ◌∷◌, [], if◌then◌else◌, map, OnOk, OnErr};
ghost use Rattle.std.specs.Fmt.{signed_decimal};
ghost use Rattle.lisp_data.specs.Datum.{SymForm};
ghost use Rattle.lisp_data.specs.FormView.{form_of, end_of};
ghost use Rattle.lisp_data.specs.SymbolText.{IsSymbolText};
ghost use Rattle.lisp_data.specs.ValueView.{val_of};
ghost use Rattle.lisp_reader.specs.Printed as spec;
ghost use Rattle.lisp_reader.specs.Printed.{form_text, rest_text, items_text, value_text, datum_of, IsPrintable, ArePrintable, IsReadAgain, IsValueAgain};
ghost use Rattle.lisp_reader.specs.Writes.{Extends};

use itoa::Buffer;
use lisp_data::{Form, Memory, Symbol, Text, Value};
use std::rc::Rc;

fn write_integer(number: i128, out: &mut Text) -> Result<(), Memory>
    ensures ok { OnOk result (out.new ≡ out.old ++ signed_decimal number) }
    ensures err { OnErr result (Extends out.old out.new) }
{
    let mut buffer = Buffer::new();
    out.extend(buffer.format(number).as_bytes())
}

/// What stands between the quotes of a string.
#[tactic(auto, using(crate::proofs::Prints::strings))]
fn write_escaped(text: &[u8], out: &mut Text) -> Result<(), Memory>
    ensures ok { OnOk result (out.new ≡ out.old ++ spec.escaped text.now) }
    ensures err { OnErr result (Extends out.old out.new) }
{
    for b in text {
        if *b == b'"' || *b == b'\\' {
            out.push(b'\\')?;
        }
        out.push(*b)?;
    }
    Ok(())
}

/// A string, with its quotes.
#[tactic(auto, using(crate::proofs::Prints::writes))]
fn write_string(text: &[u8], out: &mut Text) -> Result<(), Memory>
    ensures ok { OnOk result (out.new ≡ out.old ++ 34 ∷ spec.escaped text.now ++ 34 ∷ []) }
    ensures err { OnErr result (Extends out.old out.new) }
{
    out.push(b'"')?;
    write_escaped(text, out)?;
    out.push(b'"')
}

/// A symbol that ends a list: NIL is not written.
#[tactic(auto, using(crate::proofs::Prints::writes))]
fn write_last_symbol(name: &Symbol, out: &mut Text) -> Result<(), Memory>
    ensures ok { OnOk result (out.new ≡ out.old ++ rest_text (SymForm name.now)) }
    ensures symbol { IsSymbolText name.now }
    ensures err { OnErr result (Extends out.old out.new) }
{
    let text = name.text();
    if name.is_nil() {
        return out.push(b')');
    }
    out.extend(b" . ")?;
    out.extend(text.as_bytes())?;
    out.push(b')')
}

/// A blank, where it is asked for.
fn write_blank(some: bool, out: &mut Text) -> Result<(), Memory>
    ensures ok { OnOk result (out.new ≡ out.old ++ (if some then 32 ∷ [] else [])) }
    ensures err { OnErr result (out.new ≡ out.old) }
{
    if some { out.push(b' ') } else { Ok(()) }
}

/// A form, or as much of it as there is memory for.
#[cycle(forms)]
#[tactic(auto, using(crate::proofs::Prints::forms))]
fn write_form(form: &Form, out: &mut Text) -> Result<(), Memory>
    ensures ok { OnOk result (out.new ≡ out.old ++ form_text (form_of form.now)) }
    ensures printable { OnOk result (IsPrintable (form_of form.now)) }
    ensures err { OnErr result (Extends out.old out.new) }
{
    match form {
        Form::Int(number) => write_integer(*number, out),
        Form::Sym(name) => out.extend(name.text().as_bytes()),
        Form::Text(text) => write_string(text.as_slice(), out),
        Form::List(items, tail) => {
            if items.len() == 0 {
                return match tail {
                    None => out.extend(b"NIL"),
                    Some(tail) => write_form(tail, out),
                };
            }
            out.push(b'(')?;
            write_items(items.as_slice(), out)?;
            write_end(tail, out)
        }
    }
}

/// Items, with a blank between two.
#[cycle(forms)]
#[tactic(auto, using(crate::proofs::Prints::items))]
fn write_items(items: &[Form], out: &mut Text) -> Result<(), Memory>
    ensures ok { OnOk result (out.new ≡ out.old ++ items_text (map form_of items.now)) }
    ensures printable { OnOk result (ArePrintable (map form_of items.now)) }
    ensures err { OnErr result (Extends out.old out.new) }
{
    for (i, item) in items.iter().enumerate() {
        write_blank(i > 0, out)?;
        write_form(item, out)?;
    }
    Ok(())
}

/// The end of a list, after its items.
#[cycle(forms)]
#[tactic(auto, using(crate::proofs::Prints::forms))]
fn write_end(tail: &Option<Rc<Form>>, out: &mut Text) -> Result<(), Memory>
    ensures ok { OnOk result (out.new ≡ out.old ++ rest_text (end_of tail.now)) }
    ensures printable { OnOk result (IsPrintable (end_of tail.now)) }
    ensures err { OnErr result (Extends out.old out.new) }
{
    match tail {
        None => out.push(b')'),
        Some(tail) => write_rest(tail, out),
    }
}

/// What follows the items of a list: more of them, or a point and the last form.
#[cycle(forms)]
#[tactic(auto, using(crate::proofs::Prints::forms))]
fn write_rest(form: &Form, out: &mut Text) -> Result<(), Memory>
    ensures ok { OnOk result (out.new ≡ out.old ++ rest_text (form_of form.now)) }
    ensures printable { OnOk result (IsPrintable (form_of form.now)) }
    ensures err { OnErr result (Extends out.old out.new) }
{
    match form {
        Form::Int(number) => {
            out.extend(b" . ")?;
            write_integer(*number, out)?;
            out.push(b')')
        }
        Form::Sym(name) => write_last_symbol(name, out),
        Form::Text(text) => {
            out.extend(b" . ")?;
            write_string(text.as_slice(), out)?;
            out.push(b')')
        }
        Form::List(items, tail) => {
            write_blank(items.len() > 0, out)?;
            write_items(items.as_slice(), out)?;
            write_end(tail, out)
        }
    }
}

/// A value, or as much of it as there is memory for.
#[cycle(values)]
#[tactic(auto, using(crate::proofs::Prints::values))]
fn write_value(value: &Value, out: &mut Text) -> Result<(), Memory>
    ensures ok { OnOk result (out.new ≡ out.old ++ value_text (val_of value.now)) }
    ensures printable { OnOk result (IsPrintable (datum_of (val_of value.now))) }
    ensures err { OnErr result (Extends out.old out.new) }
{
    match value {
        Value::Int(number) => write_integer(*number, out),
        Value::Sym(name) => out.extend(name.text().as_bytes()),
        Value::Pair(pair) => {
            out.push(b'(')?;
            write_value(pair.car(), out)?;
            write_cdr(pair.cdr(), out)
        }
    }
}

/// What follows the first items of a list.
#[cycle(values)]
#[tactic(auto, using(crate::proofs::Prints::values))]
fn write_cdr(value: &Value, out: &mut Text) -> Result<(), Memory>
    ensures ok { OnOk result (out.new ≡ out.old ++ rest_text (datum_of (val_of value.now))) }
    ensures printable { OnOk result (IsPrintable (datum_of (val_of value.now))) }
    ensures err { OnErr result (Extends out.old out.new) }
{
    match value {
        Value::Int(number) => {
            out.extend(b" . ")?;
            write_integer(*number, out)?;
            out.push(b')')
        }
        Value::Sym(name) => write_last_symbol(name, out),
        Value::Pair(pair) => {
            out.push(b' ')?;
            write_value(pair.car(), out)?;
            write_cdr(pair.cdr(), out)
        }
    }
}

/// Writes a form at the end of a text: a list as its items in parentheses, a string with a backslash before each quote
/// and backslash. Where there is no memory the text is as before.
#[tactic(auto, using(crate::proofs::Prints::cuts, crate::proofs::Again::prints))]
pub fn print_form(form: &Form, out: &mut Text) -> Result<(), Memory>
    ensures ok { OnOk result (out.new ≡ out.old ++ form_text (form_of form.now)) }
    ensures again { OnOk result (IsReadAgain (form_of form.now)) }
    ensures err { OnErr result (out.new ≡ out.old) }
{
    let len = out.len();
    let written = write_form(form, out);
    if written.is_err() {
        out.truncate(len);
    }
    written
}

/// Writes a value at the end of a text, as the form that it is the value of. Where there is no memory the text is as before.
#[tactic(auto, using(crate::proofs::Prints::cuts, crate::proofs::Again::prints))]
pub fn print_value(value: &Value, out: &mut Text) -> Result<(), Memory>
    ensures ok { OnOk result (out.new ≡ out.old ++ value_text (val_of value.now)) }
    ensures printable { OnOk result (IsPrintable (datum_of (val_of value.now))) }
    ensures again { OnOk result (IsValueAgain (val_of value.now)) }
    ensures err { OnErr result (out.new ≡ out.old) }
{
    let len = out.len();
    let written = write_value(value, out);
    if written.is_err() {
        out.truncate(len);
    }
    written
}
