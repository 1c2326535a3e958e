//! Tests of reductions, and of the calls that take memory.

use lisp_data::{Seq, Symbol};
use reduction::{
    How, Move, Outcome, Remains, Subgoal, after, negation, put_new, quoted_nil, reduce,
};
use std::alloc::Global;
use std::test::Fail;
use terms::Term;
use worlds::World;

fn variable(alloc: Global, name: &str) -> Result<Term, Fail> {
    let name = Symbol::new(alloc, name)?;
    Ok(Term::var(alloc, name)?)
}

fn call(alloc: Global, name: &str, parts: &[&Term]) -> Result<Term, Fail> {
    let name = Symbol::new(alloc, name)?;
    let mut args = Seq::new(alloc);
    for part in parts {
        args.push(part.share()?)?;
    }
    Ok(Term::call(alloc, name, args)?)
}

/// How a reduction ended.
#[derive(Clone, Copy)]
enum Ending {
    Closed(usize),
    Stuck,
    TooLong,
}

/// How the reduction of a goal without hints ends, in at most so many steps.
fn ending_of(alloc: Global, goal: Term, steps: u32) -> Result<Ending, Fail> {
    let world = World::initial(alloc)?;
    let how = How {
        opened: Seq::new(alloc),
        expanded: Seq::new(alloc),
        cases: Seq::new(alloc),
        rules: Seq::new(alloc),
    };
    let subgoal = Subgoal {
        hyps: Seq::new(alloc),
        goal,
    };
    match reduce(alloc, &world, &how, steps, subgoal)? {
        Outcome::Closed(made) => Ok(Ending::Closed(made.len())),
        Outcome::Stuck(_) => Ok(Ending::Stuck),
        Outcome::TooLong => Ok(Ending::TooLong),
    }
}

#[test]
fn counts_steps(rt: HostRuntime) -> Result<(), Fail> {
    let alloc = rt.alloc();
    // (implies (not (not p)) p): entered, tidied, closed.
    let twice = negation(alloc, negation(alloc, variable(alloc, "p")?)?)?;
    let goal = call(alloc, "implies", &[&twice, &variable(alloc, "p")?])?;
    let ending = ending_of(alloc, goal.share()?, 3)?;
    assert!(rt; matches!(ending, Ending::Closed(3)));
    let ending = ending_of(alloc, goal, 2)?;
    assert!(rt; matches!(ending, Ending::TooLong));
    let ending = ending_of(alloc, variable(alloc, "p")?, 10)?;
    assert!(rt; matches!(ending, Ending::Stuck));
    Ok(())
}

#[test]
fn changes_lists_of_hypotheses(rt: HostRuntime) -> Result<(), Fail> {
    let alloc = rt.alloc();
    let mut hyps = Seq::new(alloc);
    put_new(&mut hyps, quoted_nil(alloc)?)?;
    put_new(&mut hyps, quoted_nil(alloc)?)?;
    assert_eq!(rt; hyps.len(), 1);
    let subgoal = Subgoal {
        hyps,
        goal: variable(alloc, "x")?,
    };
    let step = Move::Splits(variable(alloc, "y")?);
    match after(alloc, &step, &subgoal)? {
        Remains::Two(yes, no) => {
            assert_eq!(rt; yes.hyps.len(), 2);
            assert_eq!(rt; no.hyps.len(), 2);
            Ok(())
        }
        _ => Err(Fail::from("no split")),
    }
}
