//! Rules: what an instance of a rule's left side becomes.

ghost use Rattle.std.specs.Prelude.{◌≡◌, None, IsTrue, IfOk};
ghost use Rattle.std.specs.Option.{option_map};
ghost use Rattle.terms.specs.Terms.{tms, same_tm};
ghost use Rattle.terms.specs.Primitives.{lookup};
ghost use Rattle.terms.specs.Substitution.{Pairs};
ghost use Rattle.reduction.specs.Rules as spec;
ghost use Rattle.reduction.specs.Hyps.{left};

use crate::finders::Finding;
use crate::found::{Found, Reason, Source};
use crate::hyps::Others;
use lisp_data::{Memory, Seq, Symbol};
use std::alloc::Global;
use terms::{Node, Subst, Term, Terms, substitute};

/// A rule, made once of what an axiom or a theorem says.
#[derive(Drop)]
pub struct Rule {
    pub source: Source,
    /// What has to be proved of an instance.
    pub needs: Terms,
    pub left: Term,
    pub right: Term,
}

/// Rules, in the order in which they are tried.
pub type Rules = Seq<Rule>;

/// The substitution under which a pattern is a term.
type Matched = Result<Option<Subst>, Memory>;

/// Whether the variable has the term, where it has one.
fn is_bound(s: &Subst, name: &Symbol, term: &Term) -> Option<bool>
    ensures { result ≡ option_map (λ u. same_tm u term.now) (lookup s.now name.now) }
{
    match s.find(name) {
        None => None,
        Some(known) => Some(known.same(term)),
    }
}

/// A new variable gets the term, and another has to have it.
fn bound_to(name: &Symbol, term: &Term, s: Subst) -> Matched
    ensures { IfOk result (λ o. o ≡ spec.bound_to name.now term.now s (lookup s name.now)) }
{
    match is_bound(&s, name, term) {
        Some(true) => Ok(Some(s)),
        Some(false) => Ok(None),
        None => {
            let mut s = s;
            s.push(name.share()?, term.share()?)?;
            Ok(Some(s))
        }
    }
}

#[cycle(matched)]
#[tactic(auto, using(crate::proofs::Matching::matching))]
fn matched_all(patterns: &[Term], terms: &[Term], s: Subst) -> Matched
    ensures { IfOk result (λ o. o ≡ spec.matched_all (tms patterns.now) (tms terms.now) s) }
{
    if patterns.len() != terms.len() {
        return Ok(None);
    }
    let mut bound = s;
    for i in 0..patterns.len() {
        match matched(&patterns[i], &terms[i], bound)? {
            None => return Ok(None),
            Some(more) => bound = more,
        }
    }
    Ok(Some(bound))
}

/// The substitution, which begins with `s`, under which the pattern is the term.
#[cycle(matched)]
#[tactic(auto, using(crate::proofs::Matching::matching))]
fn matched(pattern: &Term, term: &Term, s: Subst) -> Matched
    ensures { IfOk result (λ o. o ≡ spec.matched pattern.now term.now s) }
{
    match pattern.node() {
        Node::Var(name) => {
            let s = bound_to(name, term, s)?;
            Ok(s)
        }
        Node::Quote(_) => {
            if pattern.same(term) {
                Ok(Some(s))
            } else {
                Ok(None)
            }
        }
        Node::Call(f, ps) => match term.node() {
            Node::Var(_) => Ok(None),
            Node::Quote(_) => Ok(None),
            Node::Call(g, ts) => {
                if f.same(g) {
                    let s = matched_all(ps.as_slice(), ts.as_slice(), s)?;
                    Ok(s)
                } else {
                    Ok(None)
                }
            }
        },
    }
}

/// Whether the pattern, a call, is the term under no substitution, as the term is none of that function on as many
/// arguments.
#[tactic(auto, using(crate::proofs::Matching::apart))]
fn is_apart(pattern: &Term, term: &Term) -> bool
    ensures { IsTrue result → (s : Pairs) → spec.matched pattern.now term.now s ≡ None }
{
    match (pattern.node(), term.node()) {
        (Node::Call(f, ps), Node::Call(g, ts)) => ps.len() != ts.len() || !f.same(g),
        (Node::Call(_, _), _) => true,
        _ => false,
    }
}

/// Whether each is a hypothesis or a quoted value other than NIL, under the substitution.
#[tactic(auto, using(crate::proofs::Firsts::items))]
fn all_proved(alloc: Global, others: &Others<'_>, s: &Subst, needs: &[Term]) -> Result<bool, Memory>
    ensures { IfOk result (λ b. b ≡ spec.all_proved (left others.now) s.now needs.now) }
{
    for need in needs {
        let instance = substitute(alloc, need, s)?;
        if !others.proves(&instance) {
            return Ok(false);
        }
    }
    Ok(true)
}

/// The instance of the rule's right side, where what the rule needs is proved.
fn by_match(alloc: Global, others: &Others<'_>, rule: &Rule, s: Subst) -> Finding
    ensures { IfOk result (λ o. o ≡ spec.by_match (left others.now) rule.now s) }
{
    if !all_proved(alloc, others, &s, rule.needs.as_slice())? {
        return Ok(None);
    }
    let term = substitute(alloc, &rule.right, &s)?;
    let source = rule.source.share()?;
    Ok(Some(Found {
        term,
        reason: Reason::Ruled(source, s),
    }))
}

/// What the rule makes of the term.
#[tactic(auto, unfolding(crate::specs::Rules::by_rule))]
fn by_rule(alloc: Global, others: &Others<'_>, term: &Term, rule: &Rule) -> Finding
    ensures { IfOk result (λ o. o ≡ spec.by_rule (left others.now) term.now rule.now) }
{
    if is_apart(&rule.left, term) {
        return Ok(None);
    }
    match matched(&rule.left, term, Subst::new(alloc))? {
        None => Ok(None),
        Some(s) => {
            let found = by_match(alloc, others, rule, s)?;
            Ok(found)
        }
    }
}

/// What the first rule that applies makes of the term.
#[tactic(auto, using(crate::proofs::Firsts::firsts))]
pub(crate) fn by_rules(alloc: Global, others: &Others<'_>, term: &Term, rules: &[Rule]) -> Finding
    ensures { IfOk result (λ o. o ≡ spec.by_rules rules.now (left others.now) term.now) }
{
    for rule in rules {
        if let Some(found) = by_rule(alloc, others, term, rule)? {
            return Ok(Some(found));
        }
    }
    Ok(None)
}
