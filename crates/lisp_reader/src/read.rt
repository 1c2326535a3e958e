//! Reading forms.

ghost use Rattle.std.specs.Prelude.{◌≡◌, ◌↔◌, IsTrue, ◌+◌, ◌-◌, ◌≤◌, ◌<◌, ◌&&◌, true, false, nat_eq, nat_lt, if◌then◌else◌, length, map, take, drop, codes, IfOk, Ok, Err};
ghost use Rattle.std.specs.List.{list_all};
ghost use Rattle.std.specs.Char.{to_ascii_uppercase};
ghost use Rattle.lisp_data.specs.Datum.{IntForm, SymForm, TextForm, nil_form, chain};
ghost use Rattle.lisp_data.specs.FormView.{form_of, forms_of, IsProper, AreProper};
ghost use Rattle.lisp_data.specs.Atoms as atoms;
ghost use Rattle.lisp_data.specs.view.AtomView.{leaf_of, IsNear};
ghost use Rattle.lisp_data.specs.SymbolText.{NamesSymbol};
ghost use Rattle.lisp_reader.specs.view.Says.{is_point, SaysRead, SaysPlace};
ghost use Rattle.lisp_reader.specs.Spans as spans;
ghost use Rattle.lisp_reader.specs.Grammar as spec;
ghost use Rattle.lisp_reader.specs.view.Closes.{closed, tail_at};
ghost use Rattle.lisp_reader.specs.view.TokenView.{seen, IsWithin};
ghost use Rattle.lisp_reader.specs.view.KindView.{seen_kind};
ghost use Rattle.lisp_reader.specs.declared.limits.TheConstants.{MAX_NESTING};

use crate::limits::MAX_NESTING;
use crate::token::{Token, next_token};
use lisp_data::{Atom, Bytes, Code, Form, Forms, Memory, Symbol};
use std::alloc::Global;

/// Why no form is read.
#[derive(Clone, Copy, Debug, PartialEq, Eq)]
pub enum ReadError {
    /// The first fault of the book, by its code (docs/SYNTAX.md, "Faults"), and its place.
    Refused { code: Code, place: u64 },
    Memory,
}

/// The bytes of a book, or a prefix of it where `more` says that it goes on past them.
#[derive(Clone, Copy)]
pub struct Input<'a> {
    pub bytes: &'a [u8],
    pub more: bool,
}

/// What the rest of a list begins with.
#[derive(Clone, Copy, Debug, PartialEq, Eq)]
enum Kind {
    /// Its `)`.
    Closes,
    /// The point before its last form.
    Points,
    Item,
}

impl From<Memory> for ReadError {
    ghost use Rattle.lisp_reader.specs.declared.read.ReadError.TheVariants.{Memory};

    ghost from_gives = { λ _ e. e ≡ Memory };

    fn from(_error: Memory) -> ReadError {
        ReadError::Memory
    }
}

/// A list begins after a point, and isn't too deep.
fn joins(token: Token, depth: usize) -> bool
    ensures { IsTrue result ↔ ((token ≡ Token.Open) × (depth < MAX_NESTING)) }
{
    match token {
        Token::Open => depth < MAX_NESTING,
        _ => false,
    }
}

/// A refusal.
pub fn refused(code: Code, place: usize) -> ReadError
    ensures { result ≡ ReadError.Refused code place }
{
    ReadError::Refused {
        code,
        place: place as u64,
    }
}

/// The text of an atom.
#[tactic(auto, using(crate::proofs::Leaves::ascii))]
fn atom_text(atom: &[u8]) -> &str
    requires { list_all atoms.in_atom atom.now ≡ true }
    ensures { result.now ≡ atom.now }
{
    match str::from_utf8(atom) {
        Ok(text) => text,
        Err(_) => unreachable!(),
    }
}

#[tactic(auto, using(lisp_data::proofs::Proper::leaves))]
fn integer(number: i128) -> Form
    ensures form { form_of result ≡ IntForm number }
    ensures proper { IsProper result }
{
    Form::Int(number)
}

/// The form of a symbol's text.
#[tactic(auto, using(lisp_data::proofs::Proper::leaves))]
fn symbol(alloc: Global, text: &str) -> Result<Form, Memory>
    requires { NamesSymbol text.now (map to_ascii_uppercase text.now) }
    ensures form { IfOk result (λ f. form_of f ≡ SymForm (map to_ascii_uppercase text.now)) }
    ensures proper { IfOk result IsProper }
{
    let symbol = Symbol::of_atom(alloc, text)?;
    Ok(Form::Sym(symbol))
}

/// The list of QUOTE and a form.
#[tactic(auto, using(lisp_data::proofs::Proper::leaves, crate::proofs::Leaves::names))]
fn quote_of(alloc: Global, form: Form) -> Result<Form, Memory>
    ensures form { IfOk result (λ f. form_of f ≡ spec.quote_form (form_of form)) }
    ensures proper { IfOk result (λ f. IsProper form → IsProper f) }
{
    let mut items = Forms::new(alloc);
    let quote = symbol(alloc, "QUOTE")?;
    items.push(quote)?;
    items.push(form)?;
    Ok(Form::list(items))
}

/// A list without a point.
#[tactic(auto, using(lisp_data::proofs::Proper::leaves, crate::proofs::Leaves::names))]
fn list_of(alloc: Global, items: Forms) -> Result<Form, Memory>
    ensures form { IfOk result (λ f. form_of f ≡ chain (forms_of items) nil_form) }
    ensures proper { IfOk result (λ f. AreProper items → IsProper f) }
{
    if items.len() == 0 {
        symbol(alloc, "NIL")
    } else {
        Ok(Form::list(items))
    }
}

/// Begins with a number sign, or is the colon alone.
fn is_odd(atom: &[u8]) -> bool
    ensures { result ≡ atoms.is_odd atom.now }
{
    matches!(atom, [b'#', ..] | [b':'])
}

/// A backslash, and the byte that it makes plain.
#[tactic(auto, unfolding(crate::specs::Spans::escapes))]
fn escapes(text: &[u8]) -> bool
    ensures value { result ≡ spans.escapes text.now }
    ensures room { result ≡ true → 2 ≤ length text.now }
{
    match text {
        [b, _, ..] => *b == b'\\',
        _ => false,
    }
}

/// What a string holds, by the bytes between its quotes.
#[tactic(auto, using(crate::proofs::Leaves::strings))]
fn unescaped(alloc: Global, text: &[u8]) -> Result<Bytes, Memory>
    ensures { IfOk result (λ s. s ≡ spans.unescaped text.now) }
{
    let mut held = Bytes::new(alloc);
    let mut i = 0;
    'bytes: while i < text.len() {
        if escapes(&text[i..]) {
            held.push(text[i + 1])?;
            i += 2;
        } else {
            held.push(text[i])?;
            i += 1;
        }
    }
    Ok(held)
}

impl<'a> Input<'a> {
    /// The code of a fault where the bytes end.
    fn end_code(&self, code: Code) -> Code
        ensures { result ≡ spec.at_end self.now.more code }
    {
        if self.more { Code::BookTooLong } else { code }
    }

    /// The same where they end in a string or a block comment, which so many lists and quotes are around.
    fn text_code(&self, depth: usize) -> Code
        ensures { result ≡ spec.in_text self.now.more (nat_lt 0 depth) }
    {
        self.end_code(if depth > 0 {
            Code::UnclosedList
        } else {
            Code::UnclosedText
        })
    }

    /// The end of the bytes in a list, or where a quote waits for its form.
    fn unclosed(&self, place: usize) -> ReadError
        ensures { result ≡ ReadError.Refused (spec.at_end self.now.more Code.UnclosedList) place }
    {
        refused(self.end_code(Code::UnclosedList), place)
    }

    /// What the atom at a place is, whose last byte is the n-th.
    #[tactic(auto, using(crate::proofs::Leaves::atoms))]
    fn leaf(&self, place: usize, n: usize) -> (&str, Atom)
        requires room { place + n < length self.now.bytes.now }
        requires atom { spans.front (drop place self.now.bytes.now) ≡ spans.Atom n }
        ensures text { result.0.now ≡ take (n + 1) (drop place self.now.bytes.now) }
        ensures atom { list_all atoms.in_atom result.0.now ≡ true }
        ensures value { leaf_of result.0.now result.1 ≡ spec.leaf_at self.now.more (drop place self.now.bytes.now) n }
        ensures whole { result.1 ≡ Atom.Symbol → atoms.leaf false result.0.now ≡ atoms.Named (map to_ascii_uppercase result.0.now) }
        ensures near { IsNear (n + 1) result.1 }
    {
        let end = place + n + 1;
        let cut = self.more && end == self.bytes.len();
        let text = atom_text(&self.bytes[place..end]);
        (text, Atom::of(text, cut))
    }

    /// The form of an atom, whose last byte is the n-th.
    #[tactic(auto, using(crate::proofs::Leaves::names))]
    fn atom(&self, alloc: Global, place: usize, n: usize) -> Result<(Form, usize), ReadError>
        requires room { place + n < length self.now.bytes.now }
        requires atom { spans.front (drop place self.now.bytes.now) ≡ spans.Atom n }
        ensures says { SaysRead (spec.shift place (spec.leaf_read self.now.more (spec.leaf_at self.now.more (drop place self.now.bytes.now) n) n)) result }
        ensures proper { IfOk result (λ x. IsProper x.0) }
        ensures within { IfOk result (λ x. x.1 ≡ place + n) }
    {
        let (text, atom) = self.leaf(place, n);
        match atom {
            Atom::Integer(number) => Ok((integer(number), place + n)),
            Atom::Symbol => match symbol(alloc, text) {
                Ok(form) => Ok((form, place + n)),
                Err(Memory) => Err(ReadError::Memory),
            },
            Atom::Point => Err(refused(Code::BadDot, place)),
            Atom::Wrong(code, offset) => Err(refused(code, place + offset)),
        }
    }

    /// A single point.
    #[tactic(auto, using(crate::proofs::Leaves::names))]
    fn is_point(&self, place: usize, n: usize) -> bool
        requires room { place + n < length self.now.bytes.now }
        requires atom { spans.front (drop place self.now.bytes.now) ≡ spans.Atom n }
        ensures { result ≡ is_point (spec.leaf_at self.now.more (drop place self.now.bytes.now) n) }
    {
        match self.leaf(place, n).1 {
            Atom::Point => true,
            _ => false,
        }
    }

    /// The string at a place, whose last byte is the n-th.
    #[tactic(auto, using(lisp_data::proofs::Proper::leaves, crate::proofs::Leaves::strings))]
    fn string(&self, alloc: Global, place: usize, n: usize) -> Result<(Form, usize), ReadError>
        requires room { place + n < length self.now.bytes.now }
        requires text { 0 < n }
        ensures says { SaysRead (spec.Got (TextForm (spans.unescaped (take (n - 1) (drop 1 (drop place self.now.bytes.now))))) (place + n)) result }
        ensures proper { IfOk result (λ x. IsProper x.0) }
        ensures within { IfOk result (λ x. x.1 ≡ place + n) }
    {
        match unescaped(alloc, &self.bytes[place + 1..place + n]) {
            Ok(text) => Ok((Form::Text(text), place + n)),
            Err(Memory) => Err(ReadError::Memory),
        }
    }

    /// What is wrong with an atom where no form may stand.
    #[tactic(auto, using(crate::proofs::Leaves::odds))]
    fn second_atom(&self, place: usize, n: usize) -> ReadError
        requires room { place + n < length self.now.bytes.now }
        requires atom { spans.front (drop place self.now.bytes.now) ≡ spans.Atom n }
        ensures { SaysPlace (spec.shift place (if atoms.is_odd (take (n + 1) (drop place self.now.bytes.now)) then spec.leaf_fault self.now.more (spec.leaf_at self.now.more (drop place self.now.bytes.now) n) else spec.Bad Code.BadDot 0)) (Err result) }
    {
        let (text, atom) = self.leaf(place, n);
        let odd = is_odd(text.as_bytes());
        match atom {
            Atom::Wrong(code, offset) if odd => refused(code, place + offset),
            _ => refused(Code::BadDot, place),
        }
    }

    /// The place of the `)` that ends a list after its last form.
    #[tactic(auto, using(crate::proofs::Lists::closings))]
    fn closing(&self, at: usize) -> Result<usize, ReadError>
        requires { at ≤ length self.now.bytes.now }
        ensures says { SaysPlace (spec.shift at (spec.closing self.now.more nil_form (drop at self.now.bytes.now))) result }
        ensures within { IfOk result (λ n. (at ≤ n) × (n < length self.now.bytes.now)) }
    {
        let (token, place) = next_token(self.bytes, at);
        match token {
            Token::Close => Ok(place),
            Token::Nothing => Err(self.unclosed(place)),
            Token::EndlessGap => Err(refused(self.text_code(1), self.bytes.len())),
            Token::Stray => Err(refused(Code::BadByte, place)),
            Token::Atom(n) => Err(self.second_atom(place, n)),
            Token::Open | Token::Quote | Token::Text(_) | Token::EndlessText => {
                Err(refused(Code::BadDot, place))
            }
        }
    }

    /// The place of the `)` that ends the outermost of so many lists, each the last form of the next, after a form.
    #[tactic(auto, using(crate::proofs::Lists::closes))]
    fn closings(&self, last: usize, count: usize) -> Result<usize, ReadError>
        requires { last < length self.now.bytes.now }
        ensures says { SaysPlace (closed self.now.more self.now.bytes.now count (spec.Got nil_form last)) result }
        ensures within { IfOk result (λ n. (last ≤ n) × (n < length self.now.bytes.now)) }
    {
        let mut end = last;
        let mut left = count;
        'lists: while left > 0 {
            end = self.closing(end + 1)?;
            left -= 1;
        }
        Ok(end)
    }

    /// What the rest of a list begins with. `some`: it has an item already.
    #[tactic(auto, using(crate::proofs::Items::kinds))]
    fn kind(&self, token: Token, place: usize, some: bool) -> Kind
        requires token { seen token ≡ spans.front (drop place self.now.bytes.now) }
        requires within { IsWithin (length self.now.bytes.now - place) (seen token) }
        ensures { seen_kind result ≡ spec.kind_of self.now.more some (drop place self.now.bytes.now) (seen token) }
    {
        match token {
            Token::Close => Kind::Closes,
            Token::Atom(n) => {
                if some && self.is_point(place, n) {
                    Kind::Points
                } else {
                    Kind::Item
                }
            }
            _ => Kind::Item,
        }
    }

    /// The form that a token begins, in so many lists and quotes, and the place of its last byte.
    #[cycle(read)]
    #[tactic(auto, using(crate::proofs::Steps::reads))]
    pub fn token_form(
        &self,
        alloc: Global,
        token: Token,
        place: usize,
        depth: usize,
    ) -> Result<(Form, usize), ReadError>
        requires inside { place ≤ length self.now.bytes.now }
        requires token { seen token ≡ spans.front (drop place self.now.bytes.now) }
        requires within { IsWithin (length self.now.bytes.now - place) (seen token) }
        requires depth { depth ≤ MAX_NESTING }
        ensures says { SaysRead (spec.shift place (spec.form self.now.more (nat_lt 0 depth) (MAX_NESTING - depth) (drop place self.now.bytes.now))) result }
        ensures proper { IfOk result (λ x. IsProper x.0) }
        ensures within { IfOk result (λ x. (place ≤ x.1) × (x.1 < length self.now.bytes.now)) }
    {
        match token {
            Token::Nothing => Err(self.unclosed(place)),
            Token::EndlessGap | Token::EndlessText => {
                Err(refused(self.text_code(depth), self.bytes.len()))
            }
            Token::Close => Err(refused(Code::StrayClose, place)),
            Token::Stray => Err(refused(Code::BadByte, place)),
            Token::Text(n) => self.string(alloc, place, n),
            Token::Atom(n) => self.atom(alloc, place, n),
            Token::Open | Token::Quote if depth == MAX_NESTING => Err(refused(
                Code::TooDeep,
                place,
            )),
            Token::Open => self.list(alloc, place + 1, depth + 1),
            Token::Quote => self.quoted(alloc, place + 1, depth + 1),
        }
    }

    /// The list of QUOTE and the form after a `'`.
    #[cycle(read)]
    #[tactic(auto, using(crate::proofs::Items::quotes))]
    fn quoted(&self, alloc: Global, at: usize, depth: usize) -> Result<(Form, usize), ReadError>
        requires inside { at ≤ length self.now.bytes.now }
        requires quote { 0 < depth }
        requires depth { depth ≤ MAX_NESTING }
        ensures says { SaysRead (spec.mapped spec.quote_form (spec.shift at (spec.form self.now.more (nat_lt 0 depth) (MAX_NESTING - depth) (drop at self.now.bytes.now)))) result }
        ensures proper { IfOk result (λ x. IsProper x.0) }
        ensures within { IfOk result (λ x. (at ≤ x.1) × (x.1 < length self.now.bytes.now)) }
    {
        let (token, place) = next_token(self.bytes, at);
        let (form, last) = self.token_form(alloc, token, place, depth)?;
        Ok((quote_of(alloc, form)?, last))
    }

    /// A list, from the byte after its `(`. A list after a point is joined to it: its items are this list's.
    #[cycle(read)]
    #[tactic(auto, using(crate::proofs::Items::lists))]
    fn list(&self, alloc: Global, at: usize, depth: usize) -> Result<(Form, usize), ReadError>
        requires inside { at ≤ length self.now.bytes.now }
        requires list { 0 < depth }
        requires depth { depth ≤ MAX_NESTING }
        ensures says { SaysRead (spec.shift at (spec.items self.now.more (spec.form self.now.more true (MAX_NESTING - depth)) false 0 (drop at self.now.bytes.now))) result }
        ensures proper { IfOk result (λ x. IsProper x.0) }
        ensures within { IfOk result (λ x. (at ≤ x.1) × (x.1 < length self.now.bytes.now)) }
    {
        let mut items = Forms::new(alloc);
        let mut next = at;
        let mut depth = depth;
        let mut joined = 0;
        let mut some = false;
        'items: loop {
            let (token, place) = next_token(self.bytes, next);
            match self.kind(token, place, some) {
                Kind::Closes => {
                    let end = self.closings(place, joined)?;
                    return Ok((list_of(alloc, items)?, end));
                }
                Kind::Points => {
                    let (token, place) = next_token(self.bytes, place + 1);
                    if !joins(token, depth) {
                        return self.tail(alloc, items, token, place, depth, joined);
                    }
                    next = place + 1;
                    depth += 1;
                    joined += 1;
                    some = false;
                }
                Kind::Item => {
                    let (form, last) = self.token_form(alloc, token, place, depth)?;
                    items.push(form)?;
                    next = last + 1;
                    some = true;
                }
            }
        }
    }

    /// The form after a point, and the ends of its list and of the lists that this one is joined to.
    #[cycle(read)]
    #[tactic(auto, using(crate::proofs::Items::tails))]
    fn tail(
        &self,
        alloc: Global,
        items: Forms,
        token: Token,
        place: usize,
        depth: usize,
        joined: usize,
    ) -> Result<(Form, usize), ReadError>
        requires inside { place ≤ length self.now.bytes.now }
        requires token { seen token ≡ spans.front (drop place self.now.bytes.now) }
        requires within { IsWithin (length self.now.bytes.now - place) (seen token) }
        requires list { 0 < depth }
        requires depth { depth ≤ MAX_NESTING }
        requires joined { joined ≤ MAX_NESTING }
        ensures says { SaysRead (tail_at self.now.more self.now.bytes.now joined depth (forms_of items) place) result }
        ensures proper { IfOk result (λ x. AreProper items → 0 < length (forms_of items) → IsProper x.0) }
        ensures within { IfOk result (λ x. (place ≤ x.1) × (x.1 < length self.now.bytes.now)) }
    {
        if let Token::Close = token {
            return Err(refused(Code::BadDot, place));
        }
        let (form, last) = self.token_form(alloc, token, place, depth)?;
        let end = self.closings(last, joined + 1)?;
        Ok((Form::dotted(alloc, items, form)?, end))
    }
}
