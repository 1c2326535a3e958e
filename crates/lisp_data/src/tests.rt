//! Tests of symbols, details, values and forms.

use super::*;
use std::alloc::Global;
use std::test::Fail;

fn symbol(alloc: Global, text: &str) -> Result<Symbol, Fail> {
    let symbol = Symbol::new(alloc, text)?;
    Ok(symbol)
}

#[test]
fn symbols(rt: HostRuntime) -> Result<(), Fail> {
    let name = symbol(rt.alloc(), "car-dup")?;
    assert_eq!(rt; name.text(), "CAR-DUP");
    assert!(rt; name.same(&name.share()?));
    assert!(rt; name.same(&Share::share(&name)?));
    for text in ["", "a b", "12", "1/2", "a:b", "."] {
        assert!(rt; Symbol::new(rt.alloc(), text).is_err(), "in {text}");
    }
    Ok(())
}

#[tactic(auto, unfolding(crate::specs::SymbolText::is_symbol_text, crate::specs::Atoms::leaf, crate::specs::Atoms::in_atom, crate::specs::Atoms::is_delimiter, crate::specs::Atoms::is_sign, crate::specs::Atoms::is_exponent))]
fn plus(alloc: Global) -> Result<Symbol, Memory> {
    Symbol::named(alloc, "BINARY-+")
}

#[test]
fn details(rt: HostRuntime) -> Result<(), Fail> {
    let alloc = rt.alloc();
    let details: [(Detail, &[u8]); 5] = [
        (Detail::Absent, b""),
        (Detail::Name(plus(alloc)?), b"BINARY-+"),
        (
            Detail::Word(Text::from_slice(alloc, b"formals")?),
            b"formals",
        ),
        (Detail::Word(Text::from_slice(alloc, b"\xff")?), b"\xff"),
        (Detail::Number(1048576), b"1048576"),
    ];
    for (detail, text) in details {
        let detail = detail.copy(alloc)?;
        let mut printed = Text::new(alloc);
        detail.write(alloc, &mut printed)?;
        assert!(rt; printed.as_slice() == text);
    }
    Ok(())
}

#[test]
fn values(rt: HostRuntime) -> Result<(), Fail> {
    let alloc = rt.alloc();
    let pair = Value::pair(alloc, Value::Int(1), Value::Sym(symbol(alloc, "nil")?))?;
    let outer = Value::pair(alloc, pair.share()?, pair.share()?)?;
    assert_eq!(rt; outer.path(), 2);
    assert_eq!(rt; outer.pairs(), 3);
    assert!(rt; !outer.same(&pair));
    Ok(())
}

#[test]
fn forms(rt: HostRuntime) -> Result<(), Fail> {
    let alloc = rt.alloc();
    let mut front = Forms::new(alloc);
    front.push(Form::Sym(symbol(alloc, "a")?))?;
    let mut rest = Forms::new(alloc);
    rest.push(Form::Int(-12))?;
    rest.push(Form::Text(Bytes::from_slice(alloc, b"b")?))?;
    let joined = Form::dotted(alloc, front.copy(alloc)?, Form::list(rest))?;
    let pointed = Form::dotted(alloc, front, Form::Int(5))?;
    match &joined {
        Form::List(items, None) => assert_eq!(rt; items.len(), 3),
        _ => assert!(rt; false),
    }
    assert!(rt; joined.same(&joined.copy(alloc)?));
    assert!(rt; !joined.same(&pointed));
    Ok(())
}
