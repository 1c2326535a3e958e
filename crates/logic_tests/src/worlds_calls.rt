//! Tests of worlds: each call that adds an entry, names that are taken, and what is found after a block was sealed.

ghost use Rattle.std.specs.Prelude.{◌≡◌, [], IfOk, None, pos};
ghost use Rattle.lisp_data.specs.Values.{Int};
ghost use Rattle.lisp_data.specs.FormView.{IsProper};
ghost use Rattle.terms.specs.Terms.{Quote};
ghost use Rattle.terms.specs.Links.{IsFirstOrder};
ghost use Rattle.terms.specs.Sound.{AllHold, initial_world, iso_conditions};
ghost use Rattle.terms.specs.Worlds.{Functions, Holds, World};

use lisp_data::{Form, Forms, Memory, Seq, Symbol, Value};
use std::alloc::Global;
use std::test::Fail;
use terms::{Definition, FunPairs, Iso, Link, Sequent, Specification, Term};
use worlds::{World, WorldError};

fn two(alloc: Global) -> Result<Term, Fail>
    ensures { IfOk result (λ t. t ≡ Quote (Int (pos 2))) }
{
    let two = Term::quote(alloc, Value::Int(2))?;
    Ok(two)
}

fn function(alloc: Global, name: &Symbol) -> Result<Definition, Fail>
    ensures formals { IfOk result (λ d. d.formals ≡ []) }
    ensures body { IfOk result (λ d. d.body ≡ Quote (Int (pos 2))) }
    ensures measure { IfOk result (λ d. d.measure ≡ None) }
{
    let name = name.share()?;
    let body = two(alloc)?;
    Ok(Definition {
        name,
        formals: Seq::new(alloc),
        body,
        measure: None,
    })
}

fn sequent(alloc: Global) -> Result<Sequent, Fail>
    ensures universals { IfOk result (λ s. s.universals ≡ []) }
    ensures hyps { IfOk result (λ s. s.hyps ≡ []) }
    ensures goal { IfOk result (λ s. s.goal ≡ Quote (Int (pos 2))) }
    ensures holds { IfOk result (λ s. (W : Functions) → Holds W s) }
{
    let goal = two(alloc)?;
    Ok(Sequent {
        universals: Seq::new(alloc),
        hyps: Seq::new(alloc),
        goal,
    })
}

fn specification(alloc: Global, name: &Symbol) -> Result<Specification, Fail>
    ensures variables { IfOk result (λ s. s.variables ≡ []) }
    ensures matrix { IfOk result (λ s. s.matrix ≡ Quote (Int (pos 2))) }
{
    let name = name.share()?;
    let matrix = two(alloc)?;
    Ok(Specification {
        name,
        variables: Seq::new(alloc),
        matrix,
    })
}

/// The integers with themselves, by negation.
fn negation(alloc: Global, name: &Symbol) -> Result<Iso, Fail>
    ensures hold { IfOk result (λ i. (W : Functions) → AllHold W (iso_conditions i)) }
    ensures first_order { IfOk result (λ i. (W : World) → W.functions ≡ initial_world.functions → IsFirstOrder W i) }
{
    let name = name.share()?;
    let integerp = Symbol::new(alloc, "INTEGERP")?;
    let negative = Symbol::new(alloc, "UNARY--")?;
    let oldp = integerp.share()?;
    let forth = negative.share()?;
    Ok(Iso {
        name,
        oldp,
        newp: integerp,
        forth,
        back: negative,
    })
}

/// `(defthm NAME FORMULA)`.
fn defthm(alloc: Global, name: &Symbol, formula: i128) -> Result<Form, Fail>
    ensures { IfOk result IsProper }
{
    let mut items = Forms::new(alloc);
    items.push(Form::Sym(Symbol::new(alloc, "DEFTHM")?))?;
    items.push(Form::Sym(name.share()?))?;
    items.push(Form::Int(formula))?;
    Ok(Form::list(items))
}

fn is_taken(grown: &Result<World, WorldError>) -> bool {
    match grown {
        Err(WorldError::NameTaken) => true,
        Err(WorldError::Memory) | Ok(_) => false,
    }
}

#[test]
fn grows(rt: HostRuntime) -> Result<(), Fail> {
    let alloc = rt.alloc();
    let name = Symbol::new(alloc, "TWO")?;
    let fact = Symbol::new(alloc, "TWO-HOLDS")?;
    let begin = World::initial(alloc)?;
    let append = Symbol::new(alloc, "BINARY-APPEND")?;
    assert_eq!(rt; begin.arity(&append), Some(2));
    assert!(rt; begin.find_definition(&append).is_some());
    assert!(rt; !begin.is_free(&append));
    let same = Symbol::new(alloc, "EQUAL-SAME")?;
    assert!(rt; begin.find_theorem(&same).is_some());
    assert_eq!(rt; begin.theorems(), 0);
    let world = begin.with_function(alloc, function(alloc, &name)?)?;
    let sequent = sequent(alloc)?;
    let grown = world.with_theorem(alloc, fact.share()?, sequent)?;
    let grown = grown.share()?;
    assert_eq!(rt; grown.arity(&name), Some(0));
    assert!(rt; grown.find_theorem(&fact).is_some());
    assert_eq!(rt; grown.theorems(), 1);
    assert!(rt; begin.is_free(&name));
    assert!(rt; !grown.is_free(&name));
    Ok(())
}

#[test]
fn keeps_variables_and_specifications(rt: HostRuntime) -> Result<(), Fail> {
    let alloc = rt.alloc();
    let variable = Symbol::new(alloc, "?F")?;
    let name = Symbol::new(alloc, "SPEC")?;
    let begin = World::initial(alloc)?;
    let world = begin.with_variable(alloc, variable.share()?, 3)?;
    let world = world.with_spec(alloc, specification(alloc, &name)?)?;
    assert_eq!(rt; world.arity(&variable), Some(3));
    assert!(rt; world.find_definition(&variable).is_none());
    assert!(rt; world.find_spec(&name).is_some());
    assert!(rt; !world.is_free(&variable) && !world.is_free(&name));
    assert!(rt; begin.find_function(&variable).is_none());
    assert!(rt; world.find_iso(&name).is_none());
    assert!(rt; world.find_link(&name).is_none());
    assert!(rt; world.find_instance(&name, &Seq::new(alloc)).is_none());
    Ok(())
}

#[test]
fn keeps_events(rt: HostRuntime) -> Result<(), Fail> {
    let alloc = rt.alloc();
    let name = Symbol::new(alloc, "TWO-HOLDS")?;
    let begin = World::initial(alloc)?;
    let world = begin.with_event(alloc, defthm(alloc, &name, 2)?)?;
    let world = world.with_event(alloc, defthm(alloc, &name, 3)?)?;
    let first = defthm(alloc, &name, 2)?;
    assert!(rt; world.has_event(&first));
    assert!(rt; !world.has_event(&defthm(alloc, &name, 4)?));
    assert!(rt; !begin.has_event(&first));
    assert!(rt;
        world
            .find_defthm(&name)
            .is_some_and(|form| form.same(&first))
    );
    assert!(rt; begin.find_defthm(&name).is_none());
    assert!(rt; world.is_free(&name));
    Ok(())
}

#[test]
fn stays_as_it_is_where_a_name_is_taken(rt: HostRuntime) -> Result<(), Fail> {
    let alloc = rt.alloc();
    let name = Symbol::new(alloc, "TWO")?;
    let world = World::initial(alloc)?.with_variable(alloc, name.share()?, 1)?;
    assert!(rt; is_taken(&world.with_function(alloc, function(alloc, &name)?)));
    assert!(rt; is_taken(&world.with_variable(alloc, name.share()?, 2)));
    let sequent = sequent(alloc)?;
    assert!(rt; is_taken(&world.with_theorem(alloc, name.share()?, sequent)));
    assert!(rt; is_taken(&world.with_spec(alloc, specification(alloc, &name)?)));
    assert_eq!(rt; world.arity(&name), Some(1));
    assert!(rt; world.find_definition(&name).is_none());
    assert!(rt; world.find_theorem(&name).is_none());
    assert!(rt; world.find_spec(&name).is_none());
    assert_eq!(rt; world.theorems(), 0);
    Ok(())
}

/// `V0`, `V1` and so on.
fn numbered(alloc: Global, number: u32) -> Result<Symbol, Fail> {
    let text = format!(in alloc; "V{number}")?;
    let name = Symbol::new(alloc, &text)?;
    Ok(name)
}

#[test]
fn finds_what_is_sealed(rt: HostRuntime) -> Result<(), Fail> {
    let alloc = rt.alloc();
    let begin = World::initial(alloc)?;
    let mut world = begin.share()?;
    for number in 0..600u32 {
        let name = numbered(alloc, number)?;
        let event = defthm(alloc, &name, i128::from(number))?;
        world = world.with_event(alloc, event)?;
        world = world.with_variable(alloc, name, number)?;
    }
    for number in [0u32, 63, 64, 511, 512, 599] {
        let name = numbered(alloc, number)?;
        let event = defthm(alloc, &name, i128::from(number))?;
        assert_eq!(rt; world.arity(&name), Some(number as usize));
        assert!(rt; !world.is_free(&name));
        assert!(rt; world.has_event(&event));
        assert!(rt;
            world
                .find_defthm(&name)
                .is_some_and(|form| form.same(&event))
        );
        assert!(rt; !world.has_event(&defthm(alloc, &name, -1)?));
        assert!(rt; begin.is_free(&name));
    }
    assert!(rt; world.is_free(&numbered(alloc, 600)?));
    let append = Symbol::new(alloc, "BINARY-APPEND")?;
    assert_eq!(rt; world.arity(&append), Some(2));
    Ok(())
}

#[test]
fn keeps_isomorphisms(rt: HostRuntime) -> Result<(), Fail> {
    let alloc = rt.alloc();
    let name = Symbol::new(alloc, "NEGATION")?;
    let begin = World::initial(alloc)?;
    let world = begin.with_iso(alloc, negation(alloc, &name)?)?;
    assert!(rt;
        world
            .find_iso(&name)
            .is_some_and(|iso| iso.forth.text() == "UNARY--")
    );
    assert!(rt; !world.is_free(&name));
    assert!(rt; world.find_definition(&name).is_none());
    assert!(rt; begin.find_iso(&name).is_none());
    assert!(rt; is_taken(&world.with_iso(alloc, negation(alloc, &name)?)));
    Ok(())
}

/// The world in which `not` is recorded as its own instance for no pairs.
fn with_not(alloc: Global, world: &World) -> Result<World, Fail> {
    world.soundness();
    let of = Symbol::new(alloc, "NOT")?;
    let instance = of.share()?;
    let world = world.with_instance(alloc, of, FunPairs::new(alloc), instance)?;
    Ok(world)
}

#[test]
fn keeps_instances_and_links(rt: HostRuntime) -> Result<(), Fail> {
    let alloc = rt.alloc();
    let function = Symbol::new(alloc, "F")?;
    let not = Symbol::new(alloc, "NOT")?;
    let link = Link::Solution {
        spec: function.share()?,
        variable: function.share()?,
        function: function.share()?,
    };
    let begin = World::initial(alloc)?;
    let world = with_not(alloc, &begin)?;
    let world = world.with_link(alloc, function.share()?, link)?;
    assert!(rt; begin.find_instance(&not, &Seq::new(alloc)).is_none());
    assert!(rt;
        world
            .find_instance(&not, &Seq::new(alloc))
            .is_some_and(|found| found.same(&not))
    );
    assert!(rt; world.find_link(&function).is_some());
    assert!(rt; begin.find_link(&function).is_none());
    assert!(rt; world.is_free(&function));
    Ok(())
}
