//! Steps from the words and parts of their texts. Which steps the rules take so far stands here too.

ghost use Rattle.std.specs.Prelude.{◌≡◌};
ghost use Rattle.proof_texts.specs.StepParts as spec;

use crate::words::Word;
use lisp_data::Symbol;
use proof_objects::{InductionCases, Rule, Step};
use terms::{FactName, FunPairs, Path, Subst, Term, Terms};

/// A part of a proof's text that is no proof, as it was read.
pub(crate) enum Part {
    Term(Term),
    Terms(Terms),
    Path(Path),
    Number(u32),
    Substitution(Subst),
    /// The name of a theorem, a function or an isomorphism.
    Name(Symbol),
    Fact(FactName),
    Functions(FunPairs),
    Cases(InductionCases),
}

impl Drop for Part {
    fn drop(self) {
        match self {
            Part::Term(_) => {}
            Part::Terms(_) => {}
            Part::Path(_) => {}
            Part::Number(_) => {}
            Part::Substitution(_) => {}
            Part::Name(_) => {}
            Part::Fact(_) => {}
            Part::Functions(_) => {}
            Part::Cases(_) => {}
        }
    }
}

impl Part {
    fn term(self) -> Option<Term>
        ensures { result ≡ spec.a_term self }
    {
        match self {
            Part::Term(term) => Some(term),
            _ => None,
        }
    }

    fn terms(self) -> Option<Terms>
        ensures { result ≡ spec.some_terms self }
    {
        match self {
            Part::Terms(terms) => Some(terms),
            _ => None,
        }
    }

    fn path(self) -> Option<Path>
        ensures { result ≡ spec.a_path self }
    {
        match self {
            Part::Path(path) => Some(path),
            _ => None,
        }
    }

    fn number(self) -> Option<u32>
        ensures { result ≡ spec.a_number self }
    {
        match self {
            Part::Number(number) => Some(number),
            _ => None,
        }
    }

    fn substitution(self) -> Option<Subst>
        ensures { result ≡ spec.a_substitution self }
    {
        match self {
            Part::Substitution(s) => Some(s),
            _ => None,
        }
    }

    fn name(self) -> Option<Symbol>
        ensures { result ≡ spec.a_name self }
    {
        match self {
            Part::Name(name) => Some(name),
            _ => None,
        }
    }

    fn fact(self) -> Option<FactName>
        ensures { result ≡ spec.a_fact self }
    {
        match self {
            Part::Fact(fact) => Some(fact),
            _ => None,
        }
    }

    fn functions(self) -> Option<FunPairs>
        ensures { result ≡ spec.some_functions self }
    {
        match self {
            Part::Functions(pairs) => Some(pairs),
            _ => None,
        }
    }

    fn cases(self) -> Option<InductionCases>
        ensures { result ≡ spec.some_cases self }
    {
        match self {
            Part::Cases(cases) => Some(cases),
            _ => None,
        }
    }
}

/// The only part.
#[tactic(auto, using(crate::proofs::StepLemmas::parts))]
fn one(mut parts: Vec<Part>) -> Option<Part>
    ensures { result ≡ spec.only parts.items }
{
    let part = parts.pop()?;
    if parts.is_empty() { Some(part) } else { None }
}

/// The only two parts.
#[tactic(auto, using(crate::proofs::StepLemmas::parts))]
fn two(mut parts: Vec<Part>) -> Option<(Part, Part)>
    ensures { result ≡ spec.only_two parts.items }
{
    let second = parts.pop()?;
    let first = parts.pop()?;
    if parts.is_empty() {
        Some((first, second))
    } else {
        None
    }
}

/// The step of a word and the parts after it that are no proofs.
pub(crate) fn step_of(word: Word, parts: Vec<Part>) -> Option<Step>
    ensures { result ≡ spec.step_of word parts.items }
{
    match word {
        Word::Rule(Rule::Hyp) => Some(Step::Hyp(one(parts)?.term()?)),
        Word::Rule(Rule::Refl) => Some(Step::Refl(one(parts)?.term()?)),
        Word::Rule(Rule::Replace) => Some(Step::Replace(one(parts)?.path()?)),
        Word::Rule(Rule::Unfold) => Some(Step::Unfold(one(parts)?.term()?)),
        Word::Rule(Rule::Eval) => Some(Step::Eval(one(parts)?.term()?)),
        Word::Rule(Rule::Substitute) => Some(Step::Substitute(one(parts)?.substitution()?)),
        Word::Rule(Rule::IfTrue) => {
            let (then, other) = two(parts)?;
            Some(Step::IfTrue(then.term()?, other.term()?))
        }
        Word::Rule(Rule::IfFalse) => {
            let (then, other) = two(parts)?;
            Some(Step::IfFalse(then.term()?, other.term()?))
        }
        Word::Rule(Rule::Cases) => Some(Step::Cases(one(parts)?.term()?)),
        Word::Rule(Rule::Cut) => {
            if parts.is_empty() {
                Some(Step::Cut)
            } else {
                None
            }
        }
        Word::Rule(Rule::Weaken) => {
            let (hyps, universals) = two(parts)?;
            Some(Step::Weaken(hyps.terms()?, universals.terms()?))
        }
        Word::Rule(Rule::Contradict) => Some(Step::Contradict(one(parts)?.term()?)),
        Word::Rule(Rule::Axiom) => {
            let (number, s) = two(parts)?;
            Some(Step::Axiom(number.number()?, s.substitution()?))
        }
        Word::Rule(Rule::Ring) => {
            let (left, right) = two(parts)?;
            Some(Step::Ring(left.term()?, right.term()?))
        }
        Word::Rule(Rule::ImpliesIn) => Some(Step::ImpliesIn(one(parts)?.term()?)),
        Word::Rule(Rule::ImpliesOut) => {
            if parts.is_empty() {
                Some(Step::ImpliesOut)
            } else {
                None
            }
        }
        Word::Rule(Rule::Universal) => {
            let (universal, s) = two(parts)?;
            Some(Step::Universal(universal.term()?, s.substitution()?))
        }
        Word::Rule(Rule::Discharge) => {
            if parts.is_empty() {
                Some(Step::Discharge)
            } else {
                None
            }
        }
        Word::Rule(Rule::Theorem) => { Some(Step::Theorem(FactName::Theorem(one(parts)?.name()?))) }
        Word::Measure => {
            let (function, number) = two(parts)?;
            Some(Step::Theorem(FactName::Measure(function.name()?, number.number()?)))
        }
        Word::Isomorphism => {
            let (name, number) = two(parts)?;
            Some(Step::Theorem(FactName::Isomorphism(name.name()?, number.number()?)))
        }
        Word::Rule(Rule::Instance) => {
            let (fact, pairs) = two(parts)?;
            Some(Step::Instance(fact.fact()?, pairs.functions()?))
        }
        Word::Rule(Rule::Induct) => {
            let (measure, cases) = two(parts)?;
            Some(Step::Induct(measure.term()?, cases.cases()?))
        }
    }
}
