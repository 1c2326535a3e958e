//! Comparisons and their limits, as they run.

use lisp_data::{Memory, Symbol, Value};
use lists::Seq;
use ring_laws::{RingError, is_arithmetic, same_polynomial};
use std::alloc::Global;
use std::test::Fail;
use terms::Term;

fn variable(alloc: Global, name: &str) -> Result<Term, Fail> {
    let name = Symbol::new(alloc, name)?;
    let variable = Term::var(alloc, name)?;
    Ok(variable)
}

fn literal(alloc: Global, number: i128) -> Result<Term, Fail> {
    let literal = Term::quote(alloc, Value::Int(number))?;
    Ok(literal)
}

fn unary(alloc: Global, name: &str, a: &Term) -> Result<Term, Fail> {
    let name = Symbol::new(alloc, name)?;
    let mut args = Seq::new(alloc);
    args.push(a.share()?)?;
    let call = Term::call(alloc, name, args)?;
    Ok(call)
}

fn binary(alloc: Global, name: &str, a: &Term, b: &Term) -> Result<Term, Fail> {
    let name = Symbol::new(alloc, name)?;
    let mut args = Seq::new(alloc);
    args.push(a.share()?)?;
    args.push(b.share()?)?;
    let call = Term::call(alloc, name, args)?;
    Ok(call)
}

/// The sum of x, (f x), (f (f x)) and so on.
fn sum_of(alloc: Global, name: &str, summands: u32) -> Result<Term, Fail> {
    let mut atom = variable(alloc, "X")?;
    let mut sum = literal(alloc, 0)?;
    for _ in 0..summands {
        sum = binary(alloc, "BINARY-+", &atom, &sum)?;
        atom = unary(alloc, name, &atom)?;
    }
    Ok(sum)
}

/// What the comparison says, by a letter.
fn answer(alloc: Global, a: &Term, b: &Term) -> u8 {
    if !is_arithmetic(a) || !is_arithmetic(b) {
        return b'a';
    }
    match same_polynomial(alloc, a, b) {
        Ok(true) => b'y',
        Ok(false) => b'n',
        Err(RingError::TooWide) => b'w',
        Err(RingError::TooLarge) => b'l',
        Err(RingError::Memory) => b'm',
    }
}

#[test]
fn compares_terms(rt: HostRuntime) -> Result<(), Fail> {
    let alloc = rt.alloc();
    let x = variable(alloc, "X")?;
    let y = variable(alloc, "Y")?;
    let minus_y = unary(alloc, "UNARY--", &y)?;
    let sum = binary(alloc, "BINARY-+", &x, &y)?;
    let turned = binary(alloc, "BINARY-+", &y, &x)?;
    let difference = binary(alloc, "BINARY-+", &x, &minus_y)?;
    assert_eq!(rt; answer(alloc, &sum, &turned), b'y');
    assert_eq!(rt; answer(alloc, &sum, &difference), b'n');
    assert_eq!(rt; answer(alloc, &x, &sum), b'a');
    let product = binary(alloc, "BINARY-*", &sum, &difference)?;
    let square = binary(alloc, "BINARY-*", &x, &x)?;
    let other_square = binary(alloc, "BINARY-*", &y, &minus_y)?;
    let squares = binary(alloc, "BINARY-+", &other_square, &square)?;
    assert_eq!(rt; answer(alloc, &product, &squares), b'y');
    assert_eq!(rt; answer(alloc, &product, &square), b'n');
    Ok(())
}

#[test]
fn keeps_limits(rt: HostRuntime) -> Result<(), Fail> {
    let alloc = rt.alloc();
    let zero = literal(alloc, 0)?;
    let most = literal(alloc, i128::MAX)?;
    let two = literal(alloc, 2)?;
    let wide = binary(alloc, "BINARY-*", &two, &most)?;
    assert_eq!(rt; answer(alloc, &most, &zero), b'n');
    assert_eq!(rt; answer(alloc, &zero, &wide), b'w');
    let f = sum_of(alloc, "F", 64)?;
    let g = sum_of(alloc, "G", 65)?;
    let large = binary(alloc, "BINARY-*", &f, &g)?;
    let turned = binary(alloc, "BINARY-*", &g, &f)?;
    assert_eq!(rt; answer(alloc, &large, &turned), b'l');
    let h = sum_of(alloc, "G", 63)?;
    let small = binary(alloc, "BINARY-*", &f, &h)?;
    let turned = binary(alloc, "BINARY-*", &h, &f)?;
    assert_eq!(rt; answer(alloc, &small, &turned), b'y');
    Ok(())
}
