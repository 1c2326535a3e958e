//! Tests of the calls on terms that take memory.

use super::*;
use lisp_data::{Symbol, Symbols, Value};
use std::alloc::Global;
use std::test::Fail;

fn variable(alloc: Global, name: &str) -> Result<Term, Fail> {
    let name = Symbol::new(alloc, name)?;
    let variable = Term::var(alloc, name)?;
    Ok(variable)
}

fn pair(alloc: Global, a: Term, b: Term) -> Result<Term, Fail> {
    let name = Symbol::new(alloc, "CONS")?;
    let mut args = Terms::new(alloc);
    args.push(a)?;
    args.push(b)?;
    let pair = Term::call(alloc, name, args)?;
    Ok(pair)
}

#[test]
fn replaces_parts_and_variables(rt: HostRuntime) -> Result<(), Fail> {
    let alloc = rt.alloc();
    let two = Term::quote(alloc, Value::Int(2))?;
    let term = pair(
        alloc,
        variable(alloc, "X")?,
        pair(alloc, variable(alloc, "Y")?, variable(alloc, "X")?)?,
    )?;
    assert_eq!(rt; variables(alloc, &term)?.len(), 2);
    let images = Subst::new(alloc);
    assert!(rt; images.find(&Symbol::new(alloc, "X")?).is_none());
    let swapped = substitute(alloc, &term, &images)?;
    assert!(rt; swapped.same(&term));
    let path = Path::from_slice(alloc, &[2, 1])?;
    match at_path(&term, &path) {
        Some(part) => assert!(rt; part.same(&variable(alloc, "Y")?)),
        None => assert!(rt; false),
    }
    match put_at(alloc, &term, &path, &two)? {
        Some(changed) => assert_eq!(rt; variables(alloc, &changed)?.len(), 1),
        None => assert!(rt; false),
    }
    let away = Path::from_slice(alloc, &[3])?;
    assert!(rt; put_at(alloc, &term, &away, &two)?.is_none());
    Ok(())
}

#[test]
fn copies_what_a_world_holds(rt: HostRuntime) -> Result<(), Fail> {
    let alloc = rt.alloc();
    let name = Symbol::new(alloc, "F")?;
    let term = variable(alloc, "X")?;
    let mut images = Subst::new(alloc);
    images.push(name.share()?, term.share()?)?;
    assert_eq!(rt; images.copy(alloc)?.len(), 1);
    let specification = Specification {
        name: name.share()?,
        variables: Symbols::new(alloc),
        matrix: term.share()?,
    };
    assert!(rt; specification.copy(alloc)?.matrix.same(&term));
    let iso = Iso {
        name: name.share()?,
        oldp: name.share()?,
        newp: name.share()?,
        forth: name.share()?,
        back: name.share()?,
    };
    assert!(rt; iso.copy(alloc)?.back.same(&name));
    let mut maps = IsoUses::new(alloc);
    maps.push(IsoUse {
        position: 1,
        oldp: name.share()?,
        forth: name.share()?,
    })?;
    let link = Link::Isomorphism {
        old: name.share()?,
        new: name.share()?,
        maps,
    };
    match link.copy(alloc)? {
        Link::Isomorphism { maps, .. } => assert_eq!(rt; maps.len(), 1),
        _ => assert!(rt; false),
    }
    Ok(())
}
