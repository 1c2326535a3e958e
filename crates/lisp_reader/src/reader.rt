//! The reader of books.

ghost use Rattle.std.specs.Prelude.{◌≡◌, ◌≤◌, length, drop, IfOk};
ghost use Rattle.lisp_data.specs.FormView.{form_of, IsProper};
ghost use Rattle.lisp_reader.specs.Answers.{SaysNext};
ghost use Rattle.lisp_reader.specs.view.BookSteps.{SaysStep, GoesOnWithin, StepIsProper};
ghost use Rattle.lisp_reader.specs.Answers.{FindsProper};
ghost use Rattle.lisp_reader.specs.Grammar as spec;
ghost use Rattle.lisp_reader.specs.Grammar.{parse, book};
ghost use Rattle.lisp_reader.specs.Spans as spans;
ghost use Rattle.lisp_reader.specs.view.TokenView.{seen};
ghost use Rattle.lisp_reader.specs.declared.limits.TheConstants.{MAX_FORMS};

use crate::limits::MAX_FORMS;
use crate::read::{Input, ReadError, refused};
use crate::token::{Token, next_token};
use lisp_data::{Code, Form, Memory};
use std::alloc::Global;
use std::marker::Model;

/// A form and the place of its first byte.
pub struct Located {
    pub form: Form,
    pub place: u64,
}

impl Drop for Located {
    fn drop(self) {
        let Located { form: _, place: _ } = self;
    }
}

impl Located {
    /// An equal form, at the same place.
    pub fn copy(&self, alloc: Global) -> Result<Located, Memory>
        ensures form { IfOk result (λ l. form_of l.form ≡ form_of self.now.form) }
        ensures place { IfOk result (λ l. l.place ≡ self.now.place) }
        ensures proper { IfOk result (λ l. IsProper self.now.form → IsProper l.form) }
    {
        let form = self.form.copy(alloc)?;
        Ok(Located {
            form,
            place: self.place,
        })
    }
}

/// Reads the forms of a book, one by one. Contracts see it as what it has yet to answer: the forms with their places, and the first fault or none.
#[derive(Drop)]
pub struct FormReader<'a> {
    input: Input<'a>,
    at: usize,
    left: usize,
}

impl<'a> Model for FormReader<'a> {
    ghost use Rattle.std.specs.Prelude.{List, ℕ, Option, ◌≤◌, length, drop};
    ghost use Rattle.lisp_data.specs.Datum.{Datum};
    ghost use Rattle.lisp_data.specs.declared.code.Code.{Code};
    ghost use Rattle.lisp_reader.specs.Answers.{answers_code};
    ghost use Rattle.lisp_reader.specs.Grammar.{book};

    ghost Value = { List (Datum × ℕ) × Option (Code × ℕ) };

    ghost coded = { answers_code };

    ghost view = { λ r. book r.input.more r.left r.at 0 (drop r.at r.input.bytes.now) };

    ghost invariant = { λ r. r.at ≤ length r.input.bytes.now };
}

/// A form begins with the token.
fn begins(token: Token) -> bool
    ensures { result ≡ spans.begins (seen token) }
{
    matches!(
        token,
        Token::Open | Token::Quote | Token::Text(_) | Token::EndlessText | Token::Atom(_)
    )
}

/// A number sign alone.
fn is_sharp(text: &[u8]) -> bool
    ensures { result ≡ spans.is_sharp text.now }
{
    matches!(text, [b'#'])
}

/// A form begins with the token at a place. A number sign alone, after which the book goes on, may yet begin a comment.
#[tactic(auto, unfolding(crate::specs::Grammar::begins_form))]
fn begins_form(input: &Input, token: Token, place: usize) -> bool
    requires inside { place ≤ length input.now.bytes.now }
    requires token { seen token ≡ spans.front (drop place input.now.bytes.now) }
    ensures { result ≡ spec.begins_form input.now.more (drop place input.now.bytes.now) }
{
    begins(token) && !(input.more && is_sharp(&input.bytes[place..]))
}

/// The form at a place of a book that may have so many more, and where to go on.
#[tactic(auto, using(crate::proofs::Book::books))]
fn step(
    alloc: Global,
    input: &Input,
    at: usize,
    left: usize,
) -> Result<Option<(Located, usize)>, ReadError>
    requires { at ≤ length input.now.bytes.now }
    ensures says { SaysStep input.now.more left input.now.bytes.now (book input.now.more left at 0 (drop at input.now.bytes.now)) result }
    ensures proper { StepIsProper result }
    ensures within { GoesOnWithin (length input.now.bytes.now) result }
{
    let (token, place) = next_token(input.bytes, at);
    if let Token::Nothing = token {
        return if input.more {
            Err(refused(Code::BookTooLong, place))
        } else {
            Ok(None)
        };
    }
    if left == 0 && begins_form(input, token, place) {
        return Err(refused(Code::BookTooLong, place));
    }
    let (form, last) = input.token_form(alloc, token, place, 0)?;
    let place = place as u64;
    Ok(Some((Located { form, place }, last + 1)))
}

impl<'a> FormReader<'a> {
    /// `more`: the book goes on past the bytes, of which there are then as many as a book may have.
    #[tactic(auto, using(crate::proofs::Ends::few))]
    pub fn new(bytes: &'a [u8], more: bool) -> FormReader<'a>
        ensures parsed { result ≡ parse more bytes.now }
        ensures few { length result.0 ≤ MAX_FORMS }
    {
        FormReader {
            input: Input { bytes, more },
            at: 0,
            left: MAX_FORMS,
        }
    }

    /// The next form, `None` at the end of the book, or its first fault (docs/SYNTAX.md, "Faults"), which every later call answers again.
    pub fn next(&mut self, alloc: Global) -> Result<Option<Located>, ReadError>
        ensures next { SaysNext self.old result self.new }
        ensures proper { FindsProper result }
    {
        match step(alloc, &self.input, self.at, self.left) {
            Ok(Some((located, next))) => {
                self.at = next;
                self.left = self.left.saturating_sub(1);
                Ok(Some(located))
            }
            Ok(None) => Ok(None),
            Err(error) => Err(error),
        }
    }
}
