//! Tests of the reader and of printed text.

use lisp_data::{Code, Form, Text, ValueError};
use lisp_reader::{FormReader, ReadError, print_form, print_value, value_of};
use std::test::Fail;

// How many forms a text has, and its end: the code and place of its first fault, or none at 0.
fn outcome(rt: &HostRuntime, text: &[u8], more: bool) -> (u32, Option<Code>, u64) {
    let mut reader = FormReader::new(text, more);
    for forms in 0..50 {
        match reader.next(rt.alloc()) {
            Ok(Some(_)) => {}
            Ok(None) => return (forms, None, 0),
            Err(ReadError::Refused { code, place }) => return (forms, Some(code), place),
            Err(ReadError::Memory) => return (98, None, 0),
        }
    }
    (99, None, 0)
}

#[test]
fn books(rt: HostRuntime) {
    let expected: [(&[u8], u32, Option<Code>, u64); 30] = [
        (b"(defun a (x) x) )", 1, Some(Code::StrayClose), 16),
        (b"(defun f (x) (cons x 1/2))", 0, Some(Code::BadNumber), 21),
        (b"#|a #|b|# c|# (defun k (x) 'x)", 1, None, 0),
        (b"(a 'b -12) ; c\n #| d |# ()", 2, None, 0),
        (
            b"(a . (b)) (a b . c ) (a . nil) (a . 'b) \"a\\\"b\"",
            5,
            None,
            0,
        ),
        (b"(a . )", 0, Some(Code::BadDot), 5),
        (b"( . a)", 0, Some(Code::BadDot), 2),
        (b"(a . b (c))", 0, Some(Code::BadDot), 7),
        (b"(a . b #x)", 0, Some(Code::BadByte), 7),
        (b"(a . b :)", 0, Some(Code::BadByte), 7),
        (b"(a . b :x)", 0, Some(Code::BadDot), 7),
        (b"(a . ')", 0, Some(Code::StrayClose), 6),
        (b"(a . (b . c) d)", 0, Some(Code::BadDot), 13),
        (b"(a . (b . (c)", 0, Some(Code::UnclosedList), 13),
        (b"(a", 0, Some(Code::UnclosedList), 2),
        (b"'", 0, Some(Code::UnclosedList), 1),
        (b"')", 0, Some(Code::StrayClose), 1),
        (b"(a \"b", 0, Some(Code::UnclosedList), 5),
        (b"' #| b", 0, Some(Code::UnclosedList), 6),
        (b"a \"b", 1, Some(Code::UnclosedText), 4),
        (b"#| #| |#", 0, Some(Code::UnclosedText), 8),
        (b"a:b", 0, Some(Code::BadByte), 1),
        (b"a . b", 1, Some(Code::BadDot), 2),
        (b"(a .. b)", 0, Some(Code::BadDot), 3),
        (b"(a ' . b)", 0, Some(Code::BadDot), 5),
        (
            b"170141183460469231731687303715884105728",
            0,
            Some(Code::IntegerTooWide),
            0,
        ),
        (b"-170141183460469231731687303715884105728", 1, None, 0),
        (b"1.e5", 0, Some(Code::BadNumber), 0),
        (b"-.5", 0, Some(Code::BadNumber), 0),
        (b"1e 1/ +. .a - 00", 6, None, 0),
    ];
    for (text, forms, code, place) in expected {
        assert_eq!(rt;
            outcome(&rt, text, false),
            (forms, code, place),
            "in {text:?}"
        );
    }
    let going_on: [(&[u8], u32, Option<Code>, u64); 6] = [
        (b"a ", 1, Some(Code::BookTooLong), 2),
        (b"ab", 0, Some(Code::BookTooLong), 2),
        (b"1/2", 0, Some(Code::BookTooLong), 3),
        (b"a #", 1, Some(Code::BookTooLong), 3),
        (b"(a:", 0, Some(Code::BadByte), 2),
        (b"(a . b c", 0, Some(Code::BadDot), 7),
    ];
    for (text, forms, code, place) in going_on {
        assert_eq!(rt;
            outcome(&rt, text, true),
            (forms, code, place),
            "in {text:?}"
        );
    }
}

#[test]
fn depths(rt: HostRuntime) -> Result<(), Fail> {
    for (depth, code, place) in [(200, None, 0), (201, Some(Code::TooDeep), 200)] {
        let mut text = Vec::new(rt.alloc());
        for _ in 0..depth {
            text.push(b'(')?;
        }
        for _ in 0..depth {
            text.push(b')')?;
        }
        assert_eq!(rt;
            outcome(&rt, text.as_slice(), false),
            (u32::from(code.is_none()), code, place)
        );
    }
    Ok(())
}

// How many items a list without a point has.
fn items_len(form: &Form) -> usize {
    match form {
        Form::List(items, None) => items.len(),
        _ => 0,
    }
}

#[test]
fn joined(rt: HostRuntime) {
    let mut reader = FormReader::new(b" (a . (b . (\"c\\\\\" . nil)))", false);
    match reader.next(rt.alloc()) {
        Ok(Some(located)) => {
            assert_eq!(rt; located.place, 1);
            assert_eq!(rt; items_len(&located.form), 3);
        }
        _ => assert!(rt; false),
    }
}

// The text of the first form of a book, and of its value.
fn printed(rt: &HostRuntime, book: &[u8]) -> Result<(Text, Text), Fail> {
    let mut form_text = Text::new(rt.alloc());
    let mut value_text = Text::new(rt.alloc());
    let mut reader = FormReader::new(book, false);
    if let Ok(Some(located)) = reader.next(rt.alloc()) {
        print_form(&located.form, &mut form_text)?;
        if let Ok(value) = value_of(rt.alloc(), &located.form) {
            print_value(&value, &mut value_text)?;
        }
    }
    Ok((form_text, value_text))
}

#[test]
fn texts(rt: HostRuntime) -> Result<(), Fail> {
    let expected: [(&[u8], &[u8], &[u8]); 5] = [
        (
            b"(defun dup (x) (cons x x))",
            b"(DEFUN DUP (X) (CONS X X))",
            b"(DEFUN DUP (X) (CONS X X))",
        ),
        (b"'(a . \"q\\\"\\\\\")", b"(QUOTE (A . \"q\\\"\\\\\"))", b""),
        (
            b"(-007 +3 () (nil . b) . b)",
            b"(-7 3 NIL (NIL . B) . B)",
            b"(-7 3 NIL (NIL . B) . B)",
        ),
        (b"(a . (b . nil))", b"(A B)", b"(A B)"),
        (b":key", b":KEY", b":KEY"),
    ];
    for (book, form, value) in expected {
        let texts = printed(&rt, book)?;
        assert_eq!(rt; texts.0.as_slice(), form);
        assert_eq!(rt; texts.1.as_slice(), value);
    }
    Ok(())
}

// The code of how taking the value of the book's first form ends.
fn value_end(rt: &HostRuntime, book: &[u8]) -> u8 {
    let mut reader = FormReader::new(book, false);
    match reader.next(rt.alloc()) {
        Ok(Some(located)) => match value_of(rt.alloc(), &located.form) {
            Ok(_) => 0,
            Err(ValueError::TooLarge) => 1,
            Err(ValueError::NotAValue) => 2,
            Err(ValueError::Memory) => 3,
        },
        _ => 4,
    }
}

#[test]
fn value_limits(rt: HostRuntime) -> Result<(), Fail> {
    for (items, end) in [(4096, 0), (4097, 1)] {
        let mut book = Vec::new(rt.alloc());
        book.push(b'(')?;
        for _ in 0..items {
            book.push(b'1')?;
            book.push(b' ')?;
        }
        book.push(b')')?;
        assert_eq!(rt; value_end(&rt, book.as_slice()), end);
    }
    assert_eq!(rt; value_end(&rt, b"(a (\"b\"))"), 2);
    Ok(())
}
