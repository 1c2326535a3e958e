//! The proofs of the two theorems and of what the new function owes, and the sequents that are their steps.

ghost use Rattle.std.specs.Prelude.{◌≡◌, map, length, IfOk};
ghost use Rattle.measures.specs.Calls.{call_of};
ghost use Rattle.terms.specs.Substitution.{by_pairs, HasDistinctKeys};
ghost use Rattle.terms.specs.Terms.{Call, Var, substitute as substituted, tms};
ghost use Rattle.terms.specs.Worlds.{Distinct};
ghost use Rattle.proof_builders.specs.Schemes.{scheme as Scheme};
ghost use Rattle.tool_parts.specs.Counted.{IsCounted};
ghost use Rattle.isodata_tool.specs.Carried.{called_body as CalledBody, find_map as FindMap, new_at_forth as NewAtForth, old_to_new as OldToNew};
ghost use Rattle.isodata_tool.specs.Proofs as spec;

use crate::formulas::{
    called_body, in_new, in_old, new_at_forth, old_at_back, old_to_new, same_at,
};
use crate::maps::{
    Mapped, all_in_new, all_in_old, applied, back_for, backs, find_map, formals_in_old, forth_for,
    image,
};
use crate::parts::Parts;
use hint_prover::{
    by_body, cut, equation, hyp, if_true, implies_in, implies_out, of_iso, owed, refl, replace,
    turned, under,
};
use lisp_data::{Memory, Seq, Symbol};
use measures::RecursiveCall;
use proof_builders::{chained, each_replaced, gathered, hypothesis, scattered, scheme};
use proof_objects::Proof;
use reduction::quoted_nil;
use std::alloc::Global;
use terms::{Node, Path, Sequent, Subst, Term, Terms};
use tool_parts::{at_variables, calls_of, followed};

/// Proofs, in the order of what they prove.
type Proofs = Seq<Proof>;

/// What a condition of an isomorphism says of a term.
#[tactic(auto, unfolding(lisp_data::specs::SymbolText::is_symbol_text, lisp_data::specs::Atoms::leaf, lisp_data::specs::Atoms::in_atom, lisp_data::specs::Atoms::is_delimiter, lisp_data::specs::Atoms::is_sign))]
fn by_iso(alloc: Global, iso: &Symbol, number: u32, term: &Term) -> Result<Proof, Memory>
    ensures { IfOk result (λ it. it ≡ spec.by_iso iso.now number term.now) }
{
    let mut images = Subst::new(alloc);
    images.push(Symbol::named(alloc, "X")?, term.share()?)?;
    under(alloc, of_iso(alloc, iso, number)?, &images)
}

/// What a condition of its isomorphism says of each mapped formal.
fn each_by_iso(alloc: Global, maps: &[Mapped], number: u32) -> Result<Proofs, Memory>
    ensures { IfOk result (λ its. its ≡ map (λ e. spec.by_iso e.iso.name number (Var e.formal)) maps.now) }
{
    let mut proofs = Proofs::new(alloc);
    for mapped in maps {
        let formal = Term::var(alloc, mapped.formal.share()?)?;
        proofs.push(by_iso(alloc, &mapped.iso.name, number, &formal)?)?;
    }
    Ok(proofs)
}

/// Of a proof that has the goals of others as hypotheses, one that hasn't.
#[tactic(auto, using(crate::proofs::Mapping::cuts))]
fn cut_each(alloc: Global, proofs: &[Proof], mut on: Proof) -> Result<Proof, Memory>
    ensures { IfOk result (λ it. it ≡ spec.cut_each proofs.now on) }
{
    let mut i = proofs.len();
    while i > 0 {
        i -= 1;
        on = cut(alloc, proofs[i].share()?, on)?;
    }
    Ok(on)
}

/// What stands for a formal under forth and back, and the proof that it equals what stands for the formal.
fn round_trip(
    alloc: Global,
    maps: &[Mapped],
    formal: &Symbol,
    term: Term,
) -> Result<(Term, Proof), Memory>
    ensures term { IfOk result (λ u. u.0 ≡ spec.round_trip (FindMap maps.now formal.now) term) }
    ensures proof { IfOk result (λ u. u.1 ≡ spec.undone (FindMap maps.now formal.now) term) }
{
    let proof = match find_map(maps, formal) {
        Some(mapped) => by_iso(alloc, &mapped.iso.name, 3, &term)?,
        None => refl(alloc, &term)?,
    };
    let there = forth_for(alloc, maps, formal, term)?;
    let term = back_for(alloc, maps, formal, there)?;
    Ok((term, proof))
}

/// A call whose arguments have round trips, and the proof that it equals the call without.
#[cycle(undone)]
#[tactic(auto, using(crate::proofs::Mapping::undoings))]
fn call_undone(
    alloc: Global,
    maps: &[Mapped],
    images: &Subst,
    name: &Symbol,
    args: &Terms,
) -> Result<(Term, Proof), Memory>
    ensures term { IfOk result (λ u. u.0 ≡ substituted (spec.there_and_back maps.now (by_pairs images.now)) (Call name.now (tms args.now))) }
    ensures proof { IfOk result (λ u. u.1 ≡ spec.undone_in maps.now (by_pairs images.now) (Call name.now (tms args.now))) }
{
    let mut terms = Terms::new(alloc);
    let mut proofs = Proofs::new(alloc);
    for arg in args.as_slice() {
        let (term, proof) = undone(alloc, maps, images, arg)?;
        terms.push(term)?;
        proofs.push(proof)?;
    }
    let term = Term::call(alloc, name.share()?, terms)?;
    let proof = each_replaced(alloc, proofs.as_slice(), refl(alloc, &term)?)?;
    Ok((term, proof))
}

/// The term with round trips for what the substitution gives for its variables, and the proof that it equals what the
/// substitution gives.
#[cycle(undone)]
#[tactic(auto, using(crate::proofs::Mapping::undoings))]
fn undone(
    alloc: Global,
    maps: &[Mapped],
    images: &Subst,
    term: &Term,
) -> Result<(Term, Proof), Memory>
    ensures term { IfOk result (λ u. u.0 ≡ substituted (spec.there_and_back maps.now (by_pairs images.now)) term.now) }
    ensures proof { IfOk result (λ u. u.1 ≡ spec.undone_in maps.now (by_pairs images.now) term.now) }
{
    match term.node() {
        Node::Var(name) => {
            let image = image(alloc, images, name)?;
            round_trip(alloc, maps, name, image)
        }
        Node::Quote(_) => {
            let proof = refl(alloc, term)?;
            let term = term.share()?;
            Ok((term, proof))
        }
        Node::Call(name, args) => call_undone(alloc, maps, images, name, args),
    }
}

/// The term with round trips for its variables, and the proof that it equals the term without.
fn formals_undone(alloc: Global, maps: &[Mapped], term: &Term) -> Result<(Term, Proof), Memory>
    ensures term { IfOk result (λ u. u.0 ≡ substituted (spec.there_and_back maps.now Var) term.now) }
    ensures proof { IfOk result (λ u. u.1 ≡ spec.undone_in maps.now Var term.now) }
{
    let own = Subst::new(alloc);
    let (term, proof) = undone(alloc, maps, &own, term)?;
    Ok((term, proof))
}

/// The theorem from the old function to the new one, at each recursive call.
pub(crate) fn theorem_at_calls(alloc: Global, parts: &Parts<'_>) -> Result<Terms, Memory>
    requires { IsCounted parts.now.definition.now }
    ensures { IfOk result (λ ts. ts ≡ Scheme parts.now.definition.now (OldToNew parts.now.definition.now parts.now.function.now parts.now.maps.now)) }
{
    let definition = parts.definition;
    let theorem = old_to_new(alloc, parts.world, definition, parts.function, parts.maps)?;
    let calls = calls_of(alloc, definition)?;
    scheme(
        alloc,
        parts.world,
        &definition.formals,
        &theorem,
        calls.as_slice(),
    )
}

/// What the proof of that theorem has for hypotheses.
pub(crate) fn hypotheses(alloc: Global, parts: &Parts<'_>) -> Result<Terms, Memory>
    requires { IsCounted parts.now.definition.now }
    ensures { IfOk result (λ ts. ts ≡ spec.hypotheses parts.now.definition.now parts.now.function.now parts.now.maps.now) }
{
    let in_old = formals_in_old(alloc, parts.maps)?;
    followed(theorem_at_calls(alloc, parts)?, &in_old)
}

/// That the old function is the new one at a recursive call, where its tests are true.
pub(crate) fn agreement(
    alloc: Global,
    parts: &Parts<'_>,
    hypotheses: &Terms,
    call: &RecursiveCall,
) -> Result<Sequent, Memory>
    requires { hypotheses.now ≡ spec.hypotheses parts.now.definition.now parts.now.function.now parts.now.maps.now }
    ensures { IfOk result (λ s. s ≡ spec.agreement parts.now.definition.now parts.now.function.now parts.now.maps.now (call_of call.now)) }
{
    let hyps = followed(hypotheses.copy(alloc)?, &call.tests)?;
    let goal = same_at(
        alloc,
        parts.definition,
        parts.function,
        parts.maps,
        &call.args,
    )?;
    Ok(Sequent {
        universals: Terms::new(alloc),
        hyps,
        goal,
    })
}

/// Of a proof that the arguments of a recursive call are in the old representation, one that the functions agree there:
/// the theorem is a hypothesis.
pub(crate) fn by_hypothesis(
    alloc: Global,
    parts: &Parts<'_>,
    call: &RecursiveCall,
    stays: Proof,
) -> Result<Proof, Memory>
    requires distinct { Distinct parts.now.definition.now.formals }
    requires lengths { length parts.now.definition.now.formals ≡ length call.now.args }
    ensures { IfOk result (λ it. it ≡ spec.by_hypothesis parts.now.definition.now parts.now.function.now parts.now.maps.now (call_of call.now) stays) }
{
    let definition = parts.definition;
    let theorem = old_to_new(alloc, parts.world, definition, parts.function, parts.maps)?;
    let there = hypothesis(alloc, parts.world, &definition.formals, &theorem, call)?;
    let tests = gathered(alloc, call.tests.as_slice())?;
    let under_tests = implies_out(alloc, hyp(alloc, &there)?, tests)?;
    implies_out(alloc, under_tests, stays)
}

/// That the bodies are the same, where the hypotheses are true.
pub(crate) fn same_bodies(
    alloc: Global,
    parts: &Parts<'_>,
    called_body: &Term,
) -> Result<Sequent, Memory>
    requires counted { IsCounted parts.now.definition.now }
    requires body { called_body.now ≡ CalledBody parts.now.definition.now parts.now.function.now parts.now.maps.now }
    ensures { IfOk result (λ s. s ≡ spec.same_bodies parts.now.definition.now parts.now.function.now parts.now.maps.now) }
{
    let hyps = hypotheses(alloc, parts)?;
    let goal = equation(alloc, parts.definition.body.share()?, called_body.share()?)?;
    Ok(Sequent {
        universals: Terms::new(alloc),
        hyps,
        goal,
    })
}

/// `(newp (forth x))` for each mapped formal x.
fn forth_in_new(alloc: Global, maps: &[Mapped]) -> Result<Terms, Memory>
    ensures { IfOk result (λ ts. ts ≡ spec.forth_in_new maps.now) }
{
    let mut terms = Terms::new(alloc);
    for mapped in maps {
        let formal = Term::var(alloc, mapped.formal.share()?)?;
        let there = applied(alloc, &mapped.iso.forth, formal)?;
        terms.push(applied(alloc, &mapped.iso.newp, there)?)?;
    }
    Ok(terms)
}

/// `(oldp (back x))` for each mapped formal x.
fn back_in_old(alloc: Global, maps: &[Mapped]) -> Result<Terms, Memory>
    ensures { IfOk result (λ ts. ts ≡ spec.back_in_old maps.now) }
{
    let mut terms = Terms::new(alloc);
    for mapped in maps {
        let formal = Term::var(alloc, mapped.formal.share()?)?;
        let there = applied(alloc, &mapped.iso.back, formal)?;
        terms.push(applied(alloc, &mapped.iso.oldp, there)?)?;
    }
    Ok(terms)
}

/// That the new representation has what `forth` gives for the mapped formals.
fn stays_new(alloc: Global, maps: &[Mapped]) -> Result<Proof, Memory>
    ensures { IfOk result (λ it. it ≡ spec.stays_new maps.now) }
{
    let terms = forth_in_new(alloc, maps)?;
    let proofs = each_by_iso(alloc, maps, 1)?;
    cut_each(alloc, proofs.as_slice(), gathered(alloc, terms.as_slice())?)
}

/// That the new function at the formals on the new representation is the old body with the new function's calls.
fn new_unfolded(alloc: Global, parts: &Parts<'_>, at_forth: &Term) -> Result<Proof, Memory>
    requires { at_forth.now ≡ NewAtForth parts.now.definition.now parts.now.function.now parts.now.maps.now }
    ensures { IfOk result (λ it. it ≡ spec.new_unfolded parts.now.definition.now parts.now.function.now parts.now.maps.now) }
{
    let body = called_body(alloc, parts.definition, parts.function, parts.maps)?;
    let (term, proof) = formals_undone(alloc, parts.maps, &body)?;
    let outside = quoted_nil(alloc)?;
    let chosen = if_true(alloc, stays_new(alloc, parts.maps)?, &term, &outside)?;
    let rest = chained(alloc, chosen, proof)?;
    chained(alloc, by_body(alloc, at_forth)?, rest)
}

/// Of a proof that the bodies are the same, one that the functions are, by their definitions.
fn opened(alloc: Global, parts: &Parts<'_>, same_bodies: Proof) -> Result<Proof, Memory>
    ensures { IfOk result (λ it. it ≡ spec.opened parts.now.definition.now parts.now.function.now parts.now.maps.now same_bodies) }
{
    let definition = parts.definition;
    let old = at_variables(alloc, &definition.name, &definition.formals)?;
    let new = new_at_forth(alloc, definition, parts.function, parts.maps)?;
    let folding = turned(alloc, new_unfolded(alloc, parts, &new)?, &new)?;
    let rest = chained(alloc, same_bodies, folding)?;
    chained(alloc, by_body(alloc, &old)?, rest)
}

/// Of a proof that the bodies are the same, one that the functions are, on the old representation.
pub(crate) fn unfolded(
    alloc: Global,
    parts: &Parts<'_>,
    same_bodies: Proof,
) -> Result<Proof, Memory>
    ensures { IfOk result (λ it. it ≡ spec.unfolded parts.now.definition.now parts.now.function.now parts.now.maps.now same_bodies) }
{
    let terms = formals_in_old(alloc, parts.maps)?;
    let all = in_old(alloc, parts.world, parts.maps)?;
    let whole = opened(alloc, parts, same_bodies)?;
    let inside = scattered(alloc, terms.as_slice(), hyp(alloc, &all)?, whole)?;
    implies_in(alloc, &all, inside)
}

/// That each formal is what it was, under back and forth.
fn redone(alloc: Global, parts: &Parts<'_>) -> Result<Proofs, Memory>
    ensures { IfOk result (λ its. its ≡ map (λ x. spec.redone (FindMap parts.now.maps.now x) x) parts.now.definition.now.formals) }
{
    let mut proofs = Proofs::new(alloc);
    for formal in parts.definition.formals.as_slice() {
        proofs.push(redone_formal(alloc, parts.maps, formal)?)?;
    }
    Ok(proofs)
}

fn redone_formal(alloc: Global, maps: &[Mapped], formal: &Symbol) -> Result<Proof, Memory>
    ensures { IfOk result (λ it. it ≡ spec.redone (FindMap maps.now formal.now) formal.now) }
{
    let term = Term::var(alloc, formal.share()?)?;
    match find_map(maps, formal) {
        Some(mapped) => by_iso(alloc, &mapped.iso.name, 4, &term),
        None => refl(alloc, &term),
    }
}

/// Of a proof from the old function to the new one, one from the new function to the old one.
pub(crate) fn turned_round(alloc: Global, parts: &Parts<'_>, to_new: Proof) -> Result<Proof, Memory>
    requires { HasDistinctKeys (spec.backs parts.now.maps.now) }
    ensures { IfOk result (λ it. it ≡ spec.turned_round parts.now.definition.now parts.now.function.now parts.now.maps.now to_new) }
{
    let maps = parts.maps;
    let terms = back_in_old(alloc, maps)?;
    let proofs = each_by_iso(alloc, maps, 2)?;
    let stays = cut_each(alloc, proofs.as_slice(), gathered(alloc, terms.as_slice())?)?;
    let there = under(alloc, to_new, &backs(alloc, maps)?)?;
    let at_back = implies_out(alloc, there, stays)?;
    let same = each_replaced(alloc, redone(alloc, parts)?.as_slice(), at_back)?;
    let old = old_at_back(alloc, parts.definition, maps)?;
    let whole = turned(alloc, same, &old)?;
    let all = in_new(alloc, parts.world, maps)?;
    let in_new = all_in_new(alloc, maps)?;
    let inside = scattered(alloc, in_new.as_slice(), hyp(alloc, &all)?, whole)?;
    implies_in(alloc, &all, inside)
}

/// That the new measure is natural.
pub(crate) fn natural_there(alloc: Global, parts: &Parts<'_>) -> Result<Proof, Memory>
    requires { HasDistinctKeys (spec.backs parts.now.maps.now) }
    ensures { IfOk result (λ it. it ≡ spec.natural_there parts.now.definition.now parts.now.maps.now) }
{
    let images = backs(alloc, parts.maps)?;
    under(alloc, owed(alloc, &parts.definition.name, 0)?, &images)
}

/// That the old measure falls to what round trips give for what a substitution gives.
fn falls_by(
    alloc: Global,
    parts: &Parts<'_>,
    measure: &Term,
    number: u32,
    images: &Subst,
    stays: Proof,
) -> Result<Proof, Memory>
    ensures { IfOk result (λ it. it ≡ spec.falls_by parts.now.definition.now measure.now parts.now.maps.now number (by_pairs images.now) stays) }
{
    let terms = all_in_old(alloc, parts.maps, images)?;
    let (term, proof) = undone(alloc, parts.maps, images, measure)?;
    let back = turned(alloc, proof, &term)?;
    let path = Path::from_slice(alloc, &[1])?;
    let name = &parts.definition.name;
    let falls = replace(alloc, back, owed(alloc, name, number)?, path)?;
    scattered(alloc, terms.as_slice(), stays, falls)
}

/// That the old measure falls at a call to what round trips give.
fn falls_back(
    alloc: Global,
    parts: &Parts<'_>,
    measure: &Term,
    number: u32,
    call: &RecursiveCall,
    stays: Proof,
) -> Result<Proof, Memory>
    requires distinct { Distinct parts.now.definition.now.formals }
    requires lengths { length parts.now.definition.now.formals ≡ length call.now.args }
    ensures { IfOk result (λ it. it ≡ spec.falls_back parts.now.definition.now measure.now parts.now.maps.now number (call_of call.now) stays) }
{
    let images = Subst::of_arguments(alloc, &parts.definition.formals, &call.args)?;
    let falls = falls_by(alloc, parts, measure, number, &images, stays)?;
    Ok(falls)
}

/// That the new measure falls at a call.
pub(crate) fn falls_there(
    alloc: Global,
    parts: &Parts<'_>,
    measure: &Term,
    number: u32,
    call: &RecursiveCall,
    stays: Proof,
) -> Result<Proof, Memory>
    requires distinct { Distinct parts.now.definition.now.formals }
    requires lengths { length parts.now.definition.now.formals ≡ length call.now.args }
    requires keys { HasDistinctKeys (spec.backs parts.now.maps.now) }
    ensures { IfOk result (λ it. it ≡ spec.falls_there parts.now.definition.now measure.now parts.now.maps.now number (call_of call.now) stays) }
{
    let maps = parts.maps;
    let falls = falls_back(alloc, parts, measure, number, call, stays)?;
    let there = under(alloc, falls, &backs(alloc, maps)?)?;
    let proofs = each_by_iso(alloc, maps, 2)?;
    let inside = cut_each(alloc, proofs.as_slice(), there)?;
    let all = in_new(alloc, parts.world, maps)?;
    let in_new = all_in_new(alloc, maps)?;
    scattered(alloc, in_new.as_slice(), hyp(alloc, &all)?, inside)
}
