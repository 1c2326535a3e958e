//! What the atoms of a book are.

ghost use Rattle.std.specs.Prelude.{◌≡◌, ◌+◌, ◌<◌, ◌≤◌, nat_eq, length, take, drop, map, false, IfSome};
ghost use Rattle.std.specs.List.{list_all, position};
ghost use Rattle.std.specs.Char.{to_ascii_uppercase};
ghost use Rattle.std.specs.Str.Parse.{signed_digits_value};
ghost use Rattle.lisp_data.specs.Atoms as spec;
ghost use Rattle.lisp_data.specs.view.AtomView.{leaf_of, IsNear};
ghost use Rattle.lisp_data.specs.view.Automaton as view;
ghost use Rattle.lisp_data.specs.declared.limits.TheConstants.{MAX_SYMBOL};

use crate::code::Code;
use crate::limits::MAX_SYMBOL;

/// What an atom is.
#[derive(Clone, Copy, Debug, PartialEq, Eq)]
pub enum Atom {
    Integer(i128),
    /// The symbol of its text in upper case.
    Symbol,
    /// A single point.
    Point,
    /// No form: the fault's code, and its place in the atom.
    Wrong(Code, usize),
}

/// How far an atom has the form of a number.
#[derive(Clone, Copy, Debug, PartialEq, Eq)]
enum Shape {
    Start,
    Sign,
    Whole,
    Slash,
    Ratio,
    Bare,
    Pointed,
    Part,
    Exponent,
    ExponentSign,
    Power,
    NoNumber,
}

#[tactic(auto, unfolding(crate::specs::Atoms::is_delimiter))]
fn is_delimiter(b: u8) -> bool
    ensures { result ≡ spec.is_delimiter b }
{
    matches!(
        b,
        b'(' | b')' | b'"' | b'\'' | b';' | b',' | b'|' | b'\\' | b'`'
    )
}

/// A byte that an atom can have.
#[tactic(auto, unfolding(crate::specs::Atoms::in_atom))]
pub fn in_atom(b: u8) -> bool
    ensures { result ≡ spec.in_atom b }
{
    32 < b && b < 127 && !is_delimiter(b)
}

#[tactic(auto, unfolding(crate::specs::Numbers::is_sign))]
fn is_sign(b: u8) -> bool
    ensures { result ≡ spec.is_sign b }
{
    matches!(b, b'+' | b'-')
}

#[tactic(auto, unfolding(crate::specs::Numbers::is_exponent))]
fn is_exponent(b: u8) -> bool
    ensures { result ≡ spec.is_exponent b }
{
    matches!(
        b,
        b'e' | b's' | b'f' | b'd' | b'l' | b'E' | b'S' | b'F' | b'D' | b'L'
    )
}

impl Shape {
    fn after_digit(self) -> Shape
        ensures { result ≡ view.after_digit self }
    {
        match self {
            Shape::Start | Shape::Sign | Shape::Whole => Shape::Whole,
            Shape::Slash | Shape::Ratio => Shape::Ratio,
            Shape::Bare | Shape::Pointed | Shape::Part => Shape::Part,
            Shape::Exponent | Shape::ExponentSign | Shape::Power => Shape::Power,
            Shape::NoNumber => Shape::NoNumber,
        }
    }

    fn after_other(self, b: u8) -> Shape
        ensures { result ≡ view.after_other self b }
    {
        match self {
            Shape::Start if is_sign(b) => Shape::Sign,
            Shape::Start | Shape::Sign if b == b'.' => Shape::Bare,
            Shape::Whole if b == b'/' => Shape::Slash,
            Shape::Whole if b == b'.' => Shape::Pointed,
            Shape::Whole | Shape::Pointed | Shape::Part if is_exponent(b) => Shape::Exponent,
            Shape::Exponent if is_sign(b) => Shape::ExponentSign,
            _ => Shape::NoNumber,
        }
    }

    /// The shape with one more byte.
    fn grown(self, b: u8) -> Shape
        ensures { result ≡ view.grown self b }
    {
        if b.is_ascii_digit() {
            self.after_digit()
        } else {
            self.after_other(b)
        }
    }

    fn of(atom: &[u8]) -> Shape
        ensures { result ≡ view.shape_of atom.now }
    {
        let mut shape = Shape::Start;
        for b in atom {
            shape = shape.grown(*b);
        }
        shape
    }
}

/// Begins with a number sign, or is the colon alone.
fn is_odd(atom: &[u8]) -> bool
    ensures { result ≡ spec.is_odd atom.now }
{
    matches!(atom, [b'#', ..] | [b':'])
}

fn is_all_points(atom: &[u8]) -> bool
    ensures { result ≡ list_all (λ b. nat_eq b 46) atom.now }
{
    atom.iter().all(|b| *b == b'.')
}

/// The place of the first colon.
fn colon(bytes: &[u8]) -> Option<usize>
    ensures place { result ≡ position (λ b. nat_eq b 58) bytes.now }
    ensures within { IfSome result (λ place. place < length bytes.now) }
{
    bytes.iter().position(|b| *b == b':')
}

/// The place of the first colon past the first byte, counted from the second, among the bytes up to the first that no symbol has room for.
#[tactic(auto, using(crate::proofs::AtomSteps::atoms))]
fn late_colon(atom: &[u8]) -> Option<usize>
    requires { 0 < length atom.now }
    ensures place { result ≡ position (λ b. nat_eq b 58) (drop 1 (take (MAX_SYMBOL + 1) atom.now)) }
    ensures within { IfSome result (λ place. place + 1 < length atom.now) }
{
    let len = atom.len().min(MAX_SYMBOL + 1);
    colon(&atom[..len][1..])
}

/// The integer of a numeral.
fn integer(numeral: &str) -> Atom
    requires { view.shape_of numeral.now ≡ Shape.Whole }
    ensures value { leaf_of numeral.now result ≡ spec.integer (signed_digits_value 10 numeral.now) }
    ensures near { IsNear 0 result }
{
    match numeral.parse::<i128>() {
        Ok(number) => Atom::Integer(number),
        Err(_) => Atom::Wrong(Code::IntegerTooWide, 0),
    }
}

/// An atom that is no number and can't become one.
fn word(text: &str, cut: bool) -> Atom
    requires { 0 < length text.now }
    ensures value { leaf_of text.now result ≡ spec.word cut text.now }
    ensures whole { result ≡ Atom.Symbol → spec.word false text.now ≡ spec.Named (map to_ascii_uppercase text.now) }
    ensures near { IsNear (length text.now) result }
{
    match late_colon(text.as_bytes()) {
        Some(place) => Atom::Wrong(Code::BadByte, place + 1),
        None if text.len() > MAX_SYMBOL => Atom::Wrong(Code::SymbolTooLong, MAX_SYMBOL),
        None if cut => Atom::Wrong(Code::BookTooLong, text.len()),
        None => Atom::Symbol,
    }
}

/// An atom whose shape is known.
fn shaped(text: &str, cut: bool, shape: Shape) -> Atom
    requires some { 0 < length text.now }
    requires shape { shape ≡ view.shape_of text.now }
    ensures value { leaf_of text.now result ≡ view.shaped cut text.now shape }
    ensures whole { result ≡ Atom.Symbol → view.shaped false text.now shape ≡ spec.Named (map to_ascii_uppercase text.now) }
    ensures near { IsNear (length text.now) result }
{
    match shape {
        Shape::NoNumber => word(text, cut),
        _ if cut => Atom::Wrong(Code::BookTooLong, text.len()),
        Shape::Whole => integer(text),
        Shape::Ratio | Shape::Pointed | Shape::Part | Shape::Power => {
            Atom::Wrong(Code::BadNumber, 0)
        }
        _ => word(text, false),
    }
}

/// An atom of points only.
fn points(text: &str, cut: bool) -> Atom
    ensures value { leaf_of text.now result ≡ spec.points cut text.now }
    ensures near { IsNear (length text.now) result }
    ensures form { result ≡ Atom.Symbol → ⊥ }
{
    if cut {
        Atom::Wrong(Code::BookTooLong, text.len())
    } else if text.len() == 1 {
        Atom::Point
    } else {
        Atom::Wrong(Code::BadDot, 0)
    }
}

/// An odd atom. A number sign alone, after which the book goes on, may yet begin a comment.
fn odd(text: &str, cut: bool) -> Atom
    requires { 0 < length text.now }
    ensures value { leaf_of text.now result ≡ spec.odd cut text.now }
    ensures near { IsNear (length text.now) result }
    ensures form { result ≡ Atom.Symbol → ⊥ }
{
    if cut && text.len() == 1 {
        Atom::Wrong(Code::BookTooLong, 1)
    } else {
        Atom::Wrong(Code::BadByte, 0)
    }
}

impl Atom {
    /// What an atom is. `cut`: it reaches the end of the bytes, and the book goes on past them.
    #[tactic(auto, using(crate::proofs::AtomSteps::atoms))]
    pub fn of(text: &str, cut: bool) -> Atom
        requires { 0 < length text.now }
        ensures value { leaf_of text.now result ≡ spec.leaf cut text.now }
        ensures whole { result ≡ Atom.Symbol → spec.leaf false text.now ≡ spec.Named (map to_ascii_uppercase text.now) }
        ensures near { IsNear (length text.now) result }
    {
        let bytes = text.as_bytes();
        if is_odd(bytes) {
            odd(text, cut)
        } else if is_all_points(bytes) {
            points(text, cut)
        } else {
            shaped(text, cut, Shape::of(bytes))
        }
    }
}
