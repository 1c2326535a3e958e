//! What a text begins with.

ghost use Rattle.std.specs.Prelude.{◌≡◌, ◌+◌, ◌-◌, ◌≤◌, ◌<◌, length, drop, true, IfSome};
ghost use Rattle.lisp_reader.specs.Spans as spec;
ghost use Rattle.lisp_reader.specs.view.TokenView.{seen, seen_piece, IsWithin};

use lisp_data::in_atom;

/// What comes first in a text, after its gaps. A number is the place of its last byte, counted from its first.
#[derive(Clone, Copy, Debug, PartialEq, Eq)]
pub enum Token {
    /// The text ends.
    Nothing,
    /// A block comment without its end.
    EndlessGap,
    Open,
    Close,
    Quote,
    /// A string.
    Text(usize),
    EndlessText,
    Atom(usize),
    /// A byte that begins nothing.
    Stray,
}

/// What comes first in a text: a gap, which is a blank or a comment, or a token.
#[derive(Clone, Copy, Debug, PartialEq, Eq)]
pub enum Piece {
    Gap(usize),
    Token(Token),
}

#[tactic(auto, unfolding(crate::specs::Spans::is_blank))]
fn is_blank(b: u8) -> bool
    ensures { result ≡ spec.is_blank b }
{
    matches!(b, 9 | 10 | 12 | 13 | 32)
}

/// How many bytes stand before the line's end.
fn line_len(text: &[u8]) -> usize
    ensures { result ≡ spec.line text.now }
{
    text.iter().take_while(|b| **b != b'\n').count()
}

/// How many bytes of an atom come first.
fn run_len(text: &[u8]) -> usize
    ensures { result ≡ spec.run text.now }
{
    text.iter().take_while(|b| in_atom(**b)).count()
}

#[tactic(auto, unfolding(crate::specs::Spans::opens))]
fn opens(b: u8, c: u8) -> bool
    ensures { result ≡ spec.opens b c }
{
    b == b'#' && c == b'|'
}

#[tactic(auto, unfolding(crate::specs::Spans::ends))]
fn ends(b: u8, c: u8) -> bool
    ensures { result ≡ spec.ends b c }
{
    b == b'|' && c == b'#'
}

/// The text begins with a block comment.
#[tactic(auto, unfolding(crate::specs::Spans::opens_block))]
fn opens_block(text: &[u8]) -> bool
    ensures value { result ≡ spec.opens_block text.now }
    ensures room { result ≡ true → 2 ≤ length text.now }
{
    match text {
        [b, c, ..] => opens(*b, *c),
        _ => false,
    }
}

/// The place of the last byte of a block comment, from the byte after its beginning.
#[tactic(auto, using(crate::proofs::Pieces::spans))]
fn block_end(text: &[u8]) -> Option<usize>
    ensures end { result ≡ spec.block 0 text.now }
    ensures within { IfSome result (λ last. last < length text.now) }
{
    let mut i = 0;
    let mut inner: usize = 0;
    'bytes: while text.len() - i > 1 {
        if opens(text[i], text[i + 1]) {
            i += 2;
            inner += 1;
        } else if !ends(text[i], text[i + 1]) {
            i += 1;
        } else if inner == 0 {
            return Some(i + 1);
        } else {
            i += 2;
            inner -= 1;
        }
    }
    None
}

/// The place of the quote that ends a string, from the byte after the one that begins it.
#[tactic(auto, using(crate::proofs::Pieces::spans))]
fn string_end(text: &[u8]) -> Option<usize>
    ensures end { result ≡ spec.string text.now }
    ensures within { IfSome result (λ last. last < length text.now) }
{
    let mut i = 0;
    'bytes: while i < text.len() {
        if text[i] == b'"' {
            return Some(i);
        } else if text[i] == b'\\' {
            i += 2;
        } else {
            i += 1;
        }
    }
    None
}

/// A block comment.
#[tactic(auto, using(crate::proofs::Pieces::comments))]
fn comment(text: &[u8]) -> Piece
    requires { 2 ≤ length text.now }
    ensures piece { seen_piece result ≡ spec.comment (spec.block 0 (drop 2 text.now)) }
    ensures within { IsWithin (length text.now) (seen_piece result) }
{
    match block_end(&text[2..]) {
        Some(last) => Piece::Gap(last + 2),
        None => Piece::Token(Token::EndlessGap),
    }
}

/// What a byte begins that begins no block comment, with the bytes after it.
#[tactic(auto, using(crate::proofs::Pieces::runs))]
fn plain(b: u8, rest: &[u8]) -> Piece
    ensures piece { seen_piece result ≡ spec.plain b rest.now }
    ensures within { IsWithin (length rest.now + 1) (seen_piece result) }
{
    match b {
        b if is_blank(b) => Piece::Gap(0),
        b';' => Piece::Gap(line_len(rest)),
        b'(' => Piece::Token(Token::Open),
        b')' => Piece::Token(Token::Close),
        b'\'' => Piece::Token(Token::Quote),
        b'"' => match string_end(rest) {
            Some(last) => Piece::Token(Token::Text(last + 1)),
            None => Piece::Token(Token::EndlessText),
        },
        b if in_atom(b) => Piece::Token(Token::Atom(run_len(rest))),
        _ => Piece::Token(Token::Stray),
    }
}

#[tactic(auto, using(crate::proofs::Pieces::fronts))]
fn piece_of(text: &[u8]) -> Piece
    ensures piece { seen_piece result ≡ spec.front text.now }
    ensures within { IsWithin (length text.now) (seen_piece result) }
{
    if opens_block(text) {
        return comment(text);
    }
    match text {
        [] => Piece::Token(Token::Nothing),
        [b, rest @ ..] => plain(*b, rest),
    }
}

/// What comes first after the gaps from a place on, and where.
#[tactic(auto, using(crate::proofs::Pieces::gaps_by))]
pub fn next_token(bytes: &[u8], at: usize) -> (Token, usize)
    requires { at ≤ length bytes.now }
    ensures place { result.1 ≡ at + spec.gaps (drop at bytes.now) }
    ensures token { seen result.0 ≡ spec.front (drop result.1 bytes.now) }
    ensures within { IsWithin (length bytes.now - result.1) (seen result.0) }
    ensures inside { result.1 ≤ length bytes.now }
{
    let mut place = at;
    'gaps: loop {
        match piece_of(&bytes[place..]) {
            Piece::Gap(last) => place += last + 1,
            Piece::Token(token) => return (token, place),
        }
    }
}
