//! The congruence of bodies: a proof that two terms are equal that are the same but for calls of one function.

ghost use Rattle.std.specs.Prelude.{◌≡◌, true, [], ◌++◌, length, IfOk};
ghost use Rattle.terms.specs.Terms.{tms};
ghost use Rattle.terms.specs.Worlds.{Each, Fits};
ghost use Rattle.kernel.specs.Conclusion.{AllIn};
ghost use Rattle.kernel.specs.Sequents.{equation as Equation};
ghost use Rattle.measures.specs.Calls.{place_of};
ghost use Rattle.plans.specs.Proving.{proves as Proves};
ghost use Rattle.proof_builders.specs.Congruence as spec;
ghost use Rattle.proof_builders.specs.Derived.{chained as Chained};
ghost use Rattle.proof_builders.specs.view.Finders.{finder_of, name_of};
ghost use Rattle.reduction_proofs.specs.Derived.{turned as Turned};
ghost use Rattle.reduction_proofs.specs.Trees.{Refl};

use crate::derived::chained;
use hint_prover::{
    cases, checked, conditional, equation, hyp, if_false, if_true, refl, replace, turned,
};
use kernel::Proved;
use lisp_data::{Memory, Seq, Symbol};
use measures::Position;
use plans::proves;
use proof_objects::Proof;
use reduction::negation;
use std::alloc::Global;
use terms::{Node, Path, Sequent, Term, Terms};
use worlds::World;

/// The function whose calls may differ, and the proved sequents that say what its calls equal under a condition's
/// universals and hypotheses.
#[derive(Clone, Copy)]
struct Calls<'a> {
    name: &'a Symbol,
    proved: &'a [Proved],
    under: &'a Sequent,
}

/// The proofs conclude the sequents.
#[tactic(auto, using(crate::proofs::Differences::concluded))]
fn all_concluded(world: &World, calls: &[Proved])
    requires { AllIn world.now calls.now }
    ensures { Each (spec.IsConcluded world.now) calls.now }
{
    for call in calls {
        let _sequent = call.sequent();
    }
}

/// The terms, with more.
#[tactic(auto, using(crate::proofs::Differences::lists))]
fn with_all(alloc: Global, terms: &Terms, more: &[Term]) -> Result<Terms, Memory>
    ensures { IfOk result (λ all. all ≡ terms.now ++ more.now) }
{
    let mut all = terms.copy(alloc)?;
    for term in more {
        all.push(term.share()?)?;
    }
    Ok(all)
}

/// What has to be proved of a difference.
fn equation_under(
    alloc: Global,
    under: &Sequent,
    tests: &Terms,
    old: &Term,
    new: &Term,
) -> Result<Sequent, Memory>
    ensures { IfOk result (λ s. s ≡ spec.condition under.now.universals under.now.hyps (record { tests = tests.now; old = old.now; new = new.now })) }
{
    let universals = under.universals.copy(alloc)?;
    let hyps = with_all(alloc, &under.hyps, tests.as_slice())?;
    let goal = equation(alloc, old.share()?, new.share()?)?;
    Ok(Sequent {
        universals,
        hyps,
        goal,
    })
}

/// The proof of the first sequent that proves this one.
fn proof_from(alloc: Global, calls: &[Proved], condition: &Sequent) -> Result<Proof, Memory>
    ensures { IfOk result (λ it. it ≡ spec.proof_from calls.now condition.now) }
{
    match calls {
        [] => hyp(alloc, &condition.goal),
        [first, rest @ ..] => {
            if proves(first.sequent(), condition) {
                first.proof().share()
            } else {
                proof_from(alloc, rest, condition)
            }
        }
    }
}

/// That a call equals what stands in its place.
fn of_call(
    alloc: Global,
    calls: &Calls<'_>,
    tests: &Terms,
    old: &Term,
    new: &Term,
) -> Result<Proof, Memory>
    ensures { IfOk result (λ it. it ≡ spec.of_call (finder_of calls.now) tests.now old.now new.now) }
{
    if old.same(new) {
        return refl(alloc, old);
    }
    let condition = equation_under(alloc, calls.under, tests, old, new)?;
    proof_from(alloc, calls.proved, &condition)
}

/// Of `on`, an equation whose right side is a call, one with another argument after the other replaced, each by the
/// equation of its proof.
#[tactic(auto, using(crate::proofs::Differences::replacements))]
pub fn each_replaced(alloc: Global, proofs: &[Proof], mut on: Proof) -> Result<Proof, Memory>
    ensures { IfOk result (λ it. it ≡ spec.each_replaced 1 proofs.now on) }
{
    for i in 0..proofs.len() {
        let Ok(number) = u32::try_from(i + 1) else {
            return Err(Memory);
        };
        let path = Path::from_slice(alloc, &[2, number])?;
        on = replace(alloc, proofs[i].share()?, on, path)?;
    }
    Ok(on)
}

/// Of `p`, that two branches are equal: `old` chooses the one in the first `if`, `new` the other in the second, `whole`.
fn through(alloc: Global, old: Proof, p: Proof, new: Proof, whole: &Term) -> Result<Proof, Memory>
    ensures { IfOk result (λ it. it ≡ Chained old (Chained p (Turned new whole.now))) }
{
    let back = turned(alloc, new, whole)?;
    let rest = chained(alloc, p, back)?;
    chained(alloc, old, rest)
}

/// Of `p`, that the branches for a true test are equal, that the `if`s are where the test is true.
fn where_true(
    alloc: Global,
    test: &Term,
    olds: (&Term, &Term),
    news: (&Term, &Term),
    whole: &Term,
    p: Proof,
) -> Result<Proof, Memory>
    ensures { IfOk result (λ it. it ≡ spec.where_true test.now olds.entry.0.now olds.entry.1.now news.entry.0.now news.entry.1.now whole.now p) }
{
    let held = hyp(alloc, test)?;
    let old = if_true(alloc, held.share()?, olds.0, olds.1)?;
    let new = if_true(alloc, held, news.0, news.1)?;
    through(alloc, old, p, new, whole)
}

/// The same where the test is false.
fn where_false(
    alloc: Global,
    test: &Term,
    olds: (&Term, &Term),
    news: (&Term, &Term),
    whole: &Term,
    p: Proof,
) -> Result<Proof, Memory>
    ensures { IfOk result (λ it. it ≡ spec.where_false test.now olds.entry.0.now olds.entry.1.now news.entry.0.now news.entry.1.now whole.now p) }
{
    let denied = hyp(alloc, &negation(alloc, test.share()?)?)?;
    let old = if_false(alloc, denied.share()?, olds.0, olds.1)?;
    let new = if_false(alloc, denied, news.0, news.1)?;
    through(alloc, old, p, new, whole)
}

/// Of equations for the branches, each under the test or its negation, one for the `if`s with this test.
fn by_test(
    alloc: Global,
    test: &Term,
    olds: (&Term, &Term),
    news: (&Term, &Term),
    p: Proof,
    q: Proof,
) -> Result<Proof, Memory>
    ensures { IfOk result (λ it. it ≡ spec.by_test test.now olds.entry.0.now olds.entry.1.now news.entry.0.now news.entry.1.now p q) }
{
    let whole = conditional(alloc, test.share()?, news.0.share()?, news.1.share()?)?;
    let yes = where_true(alloc, test, olds, news, &whole, p)?;
    let no = where_false(alloc, test, olds, news, &whole, q)?;
    cases(alloc, test, yes, no)
}

/// The same of equations for all arguments of an `if`.
#[tactic(auto, using(crate::proofs::Differences::branches))]
fn by_branches(
    alloc: Global,
    test: &Term,
    olds: &[Term],
    news: &[Term],
    proofs: &[Proof],
) -> Result<Proof, Memory>
    requires olds { length olds.now ≡ length proofs.now }
    requires news { length news.now ≡ length proofs.now }
    ensures { IfOk result (λ it. it ≡ spec.by_branches test.now (tms olds.now) (tms news.now) proofs.now) }
{
    if proofs.len() < 3 {
        return refl(alloc, test);
    }
    let p = proofs[1].share()?;
    let q = proofs[2].share()?;
    by_test(
        alloc,
        test,
        (&olds[1], &olds[2]),
        (&news[1], &news[2]),
        p,
        q,
    )
}

/// Of an equation for each argument, one for the call.
fn of_args(
    alloc: Global,
    first: Position<'_>,
    call: &Term,
    olds: &[Term],
    news: &[Term],
    proofs: &[Proof],
) -> Result<Proof, Memory>
    requires olds { length olds.now ≡ length proofs.now }
    requires news { length news.now ≡ length proofs.now }
    ensures { IfOk result (λ it. it ≡ spec.of_args (place_of first.entry) call.now (tms olds.now) (tms news.now) proofs.now) }
{
    match first {
        Position::Plain => each_replaced(alloc, proofs, refl(alloc, call)?),
        Position::Test(test) => by_branches(alloc, test, olds, news, proofs),
        Position::Then(test) => refl(alloc, test),
        Position::Else(test) => refl(alloc, test),
    }
}

/// The arguments of a call.
fn args_in(term: &Term) -> &[Term]
    ensures { tms result.now ≡ spec.args_in term.now }
{
    match term.node() {
        Node::Var(_) => &[],
        Node::Quote(_) => &[],
        Node::Call(_, args) => args.as_slice(),
    }
}

/// A proof for each argument, the first of which stands there.
#[cycle(congruence)]
#[tactic(auto, using(crate::proofs::Differences::arguments))]
fn congruences(
    alloc: Global,
    calls: &Calls<'_>,
    first: Position<'_>,
    tests: &Terms,
    olds: &[Term],
    news: &[Term],
) -> Result<Seq<Proof>, Memory>
    requires { spec.AlikeAll (name_of calls.now) (tms olds.now) (tms news.now) }
    ensures proofs { IfOk result (λ ps. ps ≡ spec.congruences (name_of calls.now) (finder_of calls.now) (place_of first.entry) tests.now (tms olds.now) (tms news.now)) }
    ensures olds { IfOk result (λ ps. length olds.now ≡ length ps) }
    ensures news { IfOk result (λ ps. length news.now ≡ length ps) }
{
    let mut position = first;
    let mut proofs = Seq::new(alloc);
    for i in 0..olds.len() {
        let inner = position.tests_at(alloc, tests)?;
        let proof = congruence(alloc, calls, &inner, &olds[i], &news[i])?;
        proofs.push(proof)?;
        position = position.next();
    }
    Ok(proofs)
}

/// Of proofs of the differences, that two terms are equal which are alike but for the function's calls.
#[cycle(congruence)]
#[tactic(auto, using(crate::proofs::Differences::arguments))]
fn congruence(
    alloc: Global,
    calls: &Calls<'_>,
    tests: &Terms,
    old: &Term,
    new: &Term,
) -> Result<Proof, Memory>
    requires { spec.Alike (name_of calls.now) old.now new.now }
    ensures { IfOk result (λ it. it ≡ spec.congruence (name_of calls.now) (finder_of calls.now) tests.now old.now new.now) }
{
    match old.node() {
        Node::Var(_) => refl(alloc, old),
        Node::Quote(_) => refl(alloc, old),
        Node::Call(called, olds) => {
            if calls.name.same(called) {
                return of_call(alloc, calls, tests, old, new);
            }
            let olds = olds.as_slice();
            let news = args_in(new);
            let first = Position::first(calls.name, called, olds);
            let proofs = congruences(alloc, calls, first, tests, olds, news)?;
            of_args(alloc, first, old, olds, news, proofs.as_slice())
        }
    }
}

/// Proves that two terms are equal which are the same but for what stands at the first one's calls of a function. It is
/// proved under the universals and the hypotheses of the condition, where each difference is proved by one of the
/// calls.
#[tactic(auto, using(crate::proofs::Conditions::conditions))]
pub fn body_congruence(
    alloc: Global,
    world: &World,
    name: &Symbol,
    condition: &Sequent,
    old: &Term,
    new: &Term,
    calls: &[Proved],
) -> Result<Proved, Memory>
    requires goal { condition.now.goal ≡ Equation old.now new.now }
    requires old { Fits world.now.functions old.now }
    requires new { Fits world.now.functions new.now }
    requires alike { spec.Alike name.now old.now new.now }
    requires worlds { AllIn world.now calls.now }
    requires calls { Each (λ d. spec.is_proved_among calls.now condition.now.universals condition.now.hyps d ≡ true) (spec.differences name.now [] old.now new.now) }
    ensures world { IfOk result (λ it. it.world ≡ world.now) }
    ensures proves { IfOk result (λ it. Proves it.sequent condition.now ≡ true) }
{
    world.soundness();
    all_concluded(world, calls);
    let found = Calls {
        name,
        proved: calls,
        under: condition,
    };
    let tests = Seq::new(alloc);
    let proof = congruence(alloc, &found, &tests, old, new)?;
    checked(alloc, world, condition, &proof)
}
