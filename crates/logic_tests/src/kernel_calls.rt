//! Rules and checks as they run.

ghost use Rattle.std.specs.Prelude.{◌≡◌, [], ◌∷◌, IfOk, None, codes, map};
ghost use Rattle.std.specs.Char.{to_ascii_uppercase};
ghost use Rattle.terms.specs.Terms.{Var};
ghost use Rattle.terms.specs.Measures.{call1, call2};

use kernel::{CheckError, InductCase, Proved, RuleError, RuleName, check};
use lisp_data::{Code, Seq, Symbol, Value};
use proof_objects::{Proof, Rule, Step};
use std::alloc::Global;
use std::test::Fail;
use terms::{Definition, FactName, FunPair, FunPairs, Path, Subst, Term, Terms, at_path};
use worlds::World;

fn x(alloc: Global) -> Result<Term, Fail>
    ensures { IfOk result (λ t. t ≡ Var (codes "X")) }
{
    let name = Symbol::new(alloc, "X")?;
    let x = Term::var(alloc, name)?;
    Ok(x)
}

fn call_of_one(alloc: Global, name: &str, a: Term) -> Result<Term, Fail>
    ensures { IfOk result (λ t. t ≡ call1 (map to_ascii_uppercase name.now) a) }
{
    let name = Symbol::new(alloc, name)?;
    let mut args = Seq::new(alloc);
    args.push(a)?;
    let call = Term::call(alloc, name, args)?;
    Ok(call)
}

fn call_of_two(alloc: Global, name: &str, a: Term, b: Term) -> Result<Term, Fail>
    ensures { IfOk result (λ t. t ≡ call2 (map to_ascii_uppercase name.now) a b) }
{
    let name = Symbol::new(alloc, name)?;
    let mut args = Seq::new(alloc);
    args.push(a)?;
    args.push(b)?;
    let call = Term::call(alloc, name, args)?;
    Ok(call)
}

/// `(defun dup (x) (cons x x))`
fn dup(alloc: Global) -> Result<Definition, Fail>
    ensures name { IfOk result (λ d. d.name ≡ codes "DUP") }
    ensures formals { IfOk result (λ d. d.formals ≡ codes "X" ∷ []) }
    ensures body { IfOk result (λ d. d.body ≡ call2 (codes "CONS") (Var (codes "X")) (Var (codes "X"))) }
    ensures measure { IfOk result (λ d. d.measure ≡ None) }
{
    let name = Symbol::new(alloc, "DUP")?;
    let formal = Symbol::new(alloc, "X")?;
    let mut formals = Seq::new(alloc);
    formals.push(formal)?;
    let body = call_of_two(alloc, "CONS", x(alloc)?, x(alloc)?)?;
    Ok(Definition {
        name,
        formals,
        body,
        measure: None,
    })
}

#[test]
fn proves_and_checks(rt: HostRuntime) -> Result<(), Fail> {
    let alloc = rt.alloc();
    let begin = World::initial(alloc)?;
    let world = begin.with_function(alloc, dup(alloc)?)?;
    let call = call_of_one(alloc, "DUP", x(alloc)?)?;
    let first = call_of_one(alloc, "CAR", call.share()?)?;
    let unfold = Proved::unfold(alloc, &world, &call)?;
    let same = Proved::refl(alloc, &world, &first)?;
    let path = Path::from_slice(alloc, &[2, 1])?;
    let proved = Proved::replace(alloc, &unfold, &same, &path)?;

    let pair = call_of_two(alloc, "CONS", x(alloc)?, x(alloc)?)?;
    let last = call_of_one(alloc, "CAR", pair)?;
    let goal = call_of_two(alloc, "EQUAL", first, last)?;
    assert!(rt; proved.sequent().goal.same(&goal));
    let checked = check(alloc, &world, proved.proof())?;
    assert!(rt; checked.share()?.sequent().goal.same(&goal));
    Ok(())
}

#[test]
fn finds_the_first_bad_node(rt: HostRuntime) -> Result<(), Fail> {
    let alloc = rt.alloc();
    let world = World::initial(alloc)?;
    let mut subproofs = Seq::new(alloc);
    subproofs.push(Proof::new(alloc, Step::Refl(x(alloc)?), Seq::new(alloc))?)?;
    subproofs.push(Proof::new(alloc, Step::Unfold(x(alloc)?), Seq::new(alloc))?)?;
    let both = Proof::new(alloc, Step::Replace(Path::new(alloc)), subproofs)?;
    let answer = check(alloc, &world, &both).map(|_| ());
    let expected = CheckError::ProofWrong {
        node: 2,
        rule: RuleName::Rule(Rule::Unfold),
    };
    assert_eq!(rt; answer, Err(expected));
    Ok(())
}

fn not_x(alloc: Global) -> Result<Term, Fail> {
    let x = x(alloc)?;
    call_of_one(alloc, "NOT", x)
}

fn x_is_x(alloc: Global) -> Result<Term, Fail> {
    call_of_two(alloc, "EQUAL", x(alloc)?, x(alloc)?)
}

fn one(alloc: Global, term: Term) -> Result<Terms, Fail> {
    let mut terms = Seq::new(alloc);
    terms.push(term)?;
    Ok(terms)
}

fn number(alloc: Global, value: i128) -> Result<Term, Fail> {
    let number = Term::quote(alloc, Value::Int(value))?;
    Ok(number)
}

fn at_argument(alloc: Global, proved: &Proved, number: u32) -> Result<Term, Fail> {
    let path = Path::from_slice(alloc, &[number])?;
    let Some(part) = at_path(&proved.sequent().goal, &path) else {
        return Err("no such argument".into());
    };
    let part = part.share()?;
    Ok(part)
}

#[test]
fn chooses_branches(rt: HostRuntime) -> Result<(), Fail> {
    let alloc = rt.alloc();
    let world = World::initial(alloc)?;
    let equation = x_is_x(alloc)?;
    let held = Proved::hyp(alloc, &world, &x(alloc)?)?;
    let first = Proved::if_true(alloc, &held, &equation, &x(alloc)?)?;
    let call = at_argument(alloc, &first, 1)?;
    assert!(rt; at_argument(alloc, &first, 2)?.same(&equation));
    let negated = Proved::hyp(alloc, &world, &not_x(alloc)?)?;
    let second = Proved::if_false(alloc, &negated, &equation, &x(alloc)?)?;
    assert!(rt; at_argument(alloc, &second, 1)?.same(&call));
    assert!(rt; at_argument(alloc, &second, 2)?.same(&x(alloc)?));
    Ok(())
}

#[test]
fn cuts_and_takes_cases(rt: HostRuntime) -> Result<(), Fail> {
    let alloc = rt.alloc();
    let world = World::initial(alloc)?;
    let same = Proved::refl(alloc, &world, &x(alloc)?)?;
    let none = Seq::new(alloc);
    let where_x = Proved::weaken(alloc, &same, &one(alloc, x(alloc)?)?, &none)?;
    let other = one(alloc, not_x(alloc)?)?;
    let where_not = Proved::weaken(alloc, &same, &other, &other)?;
    assert_eq!(rt; where_not.sequent().universals.len(), 1);
    let cases = Proved::cases(alloc, &x(alloc)?, &where_x, &where_not)?;
    assert_eq!(rt; cases.sequent().hyps.len(), 0);
    let assumed = Proved::hyp(alloc, &world, &x_is_x(alloc)?)?;
    let cut = Proved::cut(alloc, &same, &assumed)?;
    assert_eq!(rt; cut.sequent().hyps.len(), 0);
    Ok(())
}

#[test]
fn implies_and_contradicts(rt: HostRuntime) -> Result<(), Fail> {
    let alloc = rt.alloc();
    let world = World::initial(alloc)?;
    let held = Proved::hyp(alloc, &world, &x(alloc)?)?;
    let implied = Proved::implies_in(alloc, &x(alloc)?, &held)?;
    assert_eq!(rt; implied.sequent().hyps.len(), 0);
    let detached = Proved::implies_out(alloc, &implied, &held)?;
    assert!(rt; detached.sequent().goal.same(&x(alloc)?));
    let negated = Proved::hyp(alloc, &world, &not_x(alloc)?)?;
    let any = Proved::contra(alloc, &held, &negated, &x_is_x(alloc)?)?;
    assert_eq!(rt; any.sequent().hyps.len(), 2);
    let mut s = Subst::new(alloc);
    s.push(Symbol::new(alloc, "X")?, x_is_x(alloc)?)?;
    let instance = Proved::subst(alloc, &held, &s)?;
    assert!(rt; instance.sequent().goal.same(&any.sequent().goal));
    let checked = check(alloc, &world, any.proof())?;
    assert!(rt; checked.sequent().goal.same(&any.sequent().goal));
    Ok(())
}

#[test]
fn takes_an_axiom(rt: HostRuntime) -> Result<(), Fail> {
    let alloc = rt.alloc();
    let world = World::initial(alloc)?;
    let mut s = Subst::new(alloc);
    s.push(Symbol::new(alloc, "Y")?, not_x(alloc)?)?;
    let car = Proved::axiom(alloc, &world, 8, &s)?;
    let pair = call_of_two(alloc, "CONS", x(alloc)?, not_x(alloc)?)?;
    let first = call_of_one(alloc, "CAR", pair)?;
    let goal = call_of_two(alloc, "EQUAL", first, x(alloc)?)?;
    assert!(rt; car.sequent().goal.same(&goal));
    let checked = check(alloc, &world, car.proof())?;
    assert!(rt; checked.sequent().goal.same(&goal));
    Ok(())
}

#[test]
fn evaluates(rt: HostRuntime) -> Result<(), Fail> {
    let alloc = rt.alloc();
    let world = World::initial(alloc)?;
    let sum = call_of_two(alloc, "BINARY-+", number(alloc, 2)?, number(alloc, 3)?)?;
    let value = Proved::eval(alloc, &world, &sum)?;
    let goal = call_of_two(alloc, "EQUAL", sum, number(alloc, 5)?)?;
    assert!(rt; value.sequent().goal.same(&goal));
    let checked = check(alloc, &world, value.proof())?;
    assert!(rt; checked.sequent().goal.same(&goal));
    let answer = Proved::eval(alloc, &world, &x(alloc)?).map(|_| ());
    assert_eq!(rt; answer, Err(RuleError::Refused));
    Ok(())
}

#[test]
fn stays_in_a_later_world(rt: HostRuntime) -> Result<(), Fail> {
    let alloc = rt.alloc();
    let begin = World::initial(alloc)?;
    let proved = Proved::refl(alloc, &begin, &x(alloc)?)?;
    let world = begin.with_variable(alloc, Symbol::new(alloc, "?F")?, 1)?;
    let later = proved.later(&world)?;
    assert!(rt; later.sequent().goal.same(&proved.sequent().goal));
    let call = call_of_one(alloc, "?F", number(alloc, 0)?)?;
    let step = Step::Eval(call.share()?);
    let answer = Proved::eval(alloc, &world, &call).map(|_| ());
    assert_eq!(rt; answer, Err(RuleError::Limit(Code::HasFunctionVariables)));
    let proof = Proof::new(alloc, step, Seq::new(alloc))?;
    let expected = CheckError::Limit {
        node: 1,
        code: Code::HasFunctionVariables,
    };
    let answer = check(alloc, &world, &proof).map(|_| ());
    assert_eq!(rt; answer, Err(expected));
    Ok(())
}

#[test]
fn cites_obligations(rt: HostRuntime) -> Result<(), Fail> {
    let alloc = rt.alloc();
    let world = World::initial(alloc)?;
    let falls = FactName::Measure(Symbol::new(alloc, "LEN")?, 1);
    let proved = Proved::theorem(alloc, &world, &falls)?;
    assert_eq!(rt; proved.sequent().hyps.len(), 1);
    let beyond = FactName::Measure(Symbol::new(alloc, "LEN")?, 2);
    let answer = Proved::theorem(alloc, &world, &beyond).map(|_| ());
    assert_eq!(rt; answer, Err(RuleError::Refused));
    Ok(())
}

#[test]
fn cites_instances(rt: HostRuntime) -> Result<(), Fail> {
    let alloc = rt.alloc();
    let begin = World::initial(alloc)?;
    let world = begin.with_variable(alloc, Symbol::new(alloc, "?F")?, 1)?;
    let natural = FactName::Measure(Symbol::new(alloc, "LEN")?, 0);
    let mut pairs = FunPairs::new(alloc);
    pairs.push(FunPair {
        variable: Symbol::new(alloc, "?F")?,
        function: Symbol::new(alloc, "CAR")?,
    })?;
    let proved = Proved::instance(alloc, &world, &natural, &pairs)?;
    let cited = Proved::theorem(alloc, &world, &natural)?;
    assert!(rt; proved.sequent().goal.same(&cited.sequent().goal));
    let checked = check(alloc, &world, proved.proof())?;
    assert!(rt; checked.sequent().goal.same(&cited.sequent().goal));
    pairs.push(FunPair {
        variable: Symbol::new(alloc, "CAR")?,
        function: Symbol::new(alloc, "CDR")?,
    })?;
    let answer = Proved::instance(alloc, &world, &natural, &pairs).map(|_| ());
    assert_eq!(rt; answer, Err(RuleError::Refused));
    Ok(())
}

/// Where x is a pair, the count of its second part is less than that of x.
fn second_part(alloc: Global, world: &World) -> Result<InductCase, Fail>
    ensures { IfOk result (λ c. c.falls.world ≡ world.now) }
{
    let test = call_of_one(alloc, "CONSP", x(alloc)?)?;
    let mut subst = Subst::new(alloc);
    subst.push(
        Symbol::new(alloc, "X")?,
        call_of_one(alloc, "CDR", x(alloc)?)?,
    )?;
    let name = FactName::Theorem(Symbol::new(alloc, "ACL2-COUNT-CDR")?);
    let implied = Proved::theorem(alloc, world, &name)?;
    let held = Proved::hyp(alloc, world, &test)?;
    let falls = Proved::implies_out(alloc, &implied, &held)?;
    Ok(InductCase { test, subst, falls })
}

/// `(equal x x)` from the induction hypothesis of the case above.
fn x_is_x_by_rest(alloc: Global, world: &World) -> Result<Proved, Fail>
    ensures { IfOk result (λ p. p.world ≡ world.now) }
{
    let same = Proved::refl(alloc, world, &x(alloc)?)?;
    let rest = call_of_one(alloc, "CDR", x(alloc)?)?;
    let instance = call_of_two(alloc, "EQUAL", rest.share()?, rest)?;
    let test = call_of_one(alloc, "CONSP", x(alloc)?)?;
    let assumption = call_of_two(alloc, "IMPLIES", test, instance)?;
    let hyps = one(alloc, assumption)?;
    let base = Proved::weaken(alloc, &same, &hyps, &Seq::new(alloc))?;
    Ok(base)
}

#[test]
fn proves_by_induction(rt: HostRuntime) -> Result<(), Fail> {
    let alloc = rt.alloc();
    let world = World::initial(alloc)?;
    let measure = call_of_one(alloc, "ACL2-COUNT", x(alloc)?)?;
    let natural = Proved::axiom(alloc, &world, 33, &Subst::new(alloc))?;
    let base = x_is_x_by_rest(alloc, &world)?;
    let mut cases = Seq::new(alloc);
    cases.push(second_part(alloc, &world)?)?;
    let proved = Proved::induct(alloc, &measure, &natural, &base, &cases)?;
    assert_eq!(rt; proved.sequent().hyps.len(), 0);
    assert!(rt; proved.sequent().goal.same(&x_is_x(alloc)?));
    let checked = check(alloc, &world, proved.proof())?;
    assert!(rt; checked.sequent().goal.same(&x_is_x(alloc)?));

    let no_cases = Seq::new(alloc);
    let answer = Proved::induct(alloc, &measure, &natural, &base, &no_cases).map(|_| ());
    assert_eq!(rt; answer, Err(RuleError::Refused));
    Ok(())
}
