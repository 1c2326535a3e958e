//! The rules of axioms and theorems.

ghost use Rattle.std.specs.Prelude.{◌≡◌, ◌++◌, All, map, true, IfOk, OnOk};
ghost use Rattle.std.specs.List.{list_all};
ghost use Rattle.std.specs.Option.{option_map};
ghost use Rattle.lisp_data.specs.SymbolText.{is_symbol_text};
ghost use Rattle.reduction.specs.declared.found.Source.TheVariants.{Axiom, Theorem};
ghost use Rattle.reduction.specs.Hyps.{has as has_term};
ghost use Rattle.hints.specs.Facts as spec;

use crate::formulas::rule_of;
use kernel::{Proved, RuleError};
use lisp_data::{Memory, Seq, Symbol};
use reduction::{Rule, Rules, Source, has};
use std::alloc::Global;
use terms::{FactName, Subst, Term, Terms};
use worlds::World;

/// What hints can name: a world, and the universals of a condition.
#[derive(Clone, Copy)]
pub struct Facts<'a> {
    pub world: &'a World,
    pub universals: &'a Terms,
}

/// Axioms that are rules.
const RULE_AXIOMS: [u32; 19] = [
    3, 4, 5, 6, 7, 8, 9, 10, 11, 12, 13, 14, 15, 16, 17, 18, 19, 23, 24,
];

/// Theorems that are rules of each reduction.
const RULE_THEOREMS: [&str; 8] = [
    "EQUAL-SAME",
    "ACL2-COUNT-CAR",
    "ACL2-COUNT-CDR",
    "NATP-ACL2-COUNT",
    "NATP-NFIX",
    "NATP-MINUS-1",
    "NFIX-MINUS-1",
    "ACL2-COUNT-MINUS-1",
];

/// Whether each of the terms is in the first list.
pub(crate) fn all_in(universals: &[Term], terms: &[Term]) -> bool
    ensures { result ≡ spec.all_in universals.now terms.now }
{
    terms.iter().all(|t| has(universals, t))
}

/// Adds a rule where there is one.
fn push(rules: &mut Rules, rule: Option<Rule>) -> Result<(), Memory>
    ensures { OnOk result (rules.new ≡ rules.old ++ spec.listed rule) }
{
    match rule {
        None => Ok(()),
        Some(rule) => rules.push(rule),
    }
}

/// What an axiom or a theorem says, with its proof.
pub fn says(alloc: Global, world: &World, source: &Source) -> Result<Option<Proved>, Memory>
    ensures { IfOk result (λ o. option_map (λ p. p.sequent) o ≡ spec.says world.now source.now) }
{
    let told = match source {
        Source::Axiom(number) => Proved::axiom(alloc, world, *number, &Subst::new(alloc)),
        Source::Theorem(name) => Proved::theorem(alloc, world, &FactName::Theorem(name.share()?)),
    };
    match told {
        Ok(proved) => Ok(Some(proved)),
        Err(RuleError::Refused) => Ok(None),
        Err(RuleError::Limit(_)) => Ok(None),
        Err(RuleError::Memory) => Err(Memory),
    }
}

impl<'a> Facts<'a> {
    /// The rule of an axiom or a theorem, where it makes one and its universals are the condition's.
    fn rule_from(&self, alloc: Global, source: Source) -> Result<Option<Rule>, Memory>
        ensures { IfOk result (λ o. o ≡ spec.rule_from self.now.world.now self.now.universals.now source) }
    {
        let Some(proved) = says(alloc, self.world, &source)? else {
            return Ok(None);
        };
        let sequent = proved.sequent();
        if !all_in(self.universals.as_slice(), sequent.universals.as_slice()) {
            return Ok(None);
        }
        let rule = rule_of(alloc, source, &sequent.goal)?;
        Ok(rule)
    }

    #[tactic(auto, using(crate::proofs::Listing::lists))]
    fn push_axioms(&self, alloc: Global, numbers: &[u32], rules: &mut Rules) -> Result<(), Memory>
        ensures { OnOk result (rules.new ≡ rules.old ++ spec.rules_from self.now.world.now self.now.universals.now (map Axiom numbers.now)) }
    {
        for number in numbers {
            let rule = self.rule_from(alloc, Source::Axiom(*number))?;
            push(rules, rule)?;
        }
        Ok(())
    }

    #[tactic(auto, using(crate::proofs::Listing::lists))]
    fn push_theorems(&self, alloc: Global, names: &[&str], rules: &mut Rules) -> Result<(), Memory>
        requires { list_all is_symbol_text (map (λ name. name.now) names.now) ≡ true }
        ensures { OnOk result (rules.new ≡ rules.old ++ spec.rules_from self.now.world.now self.now.universals.now (map Theorem (map (λ name. name.now) names.now))) }
    {
        for name in names {
            let name = Symbol::named(alloc, name)?;
            let rule = self.rule_from(alloc, Source::Theorem(name))?;
            push(rules, rule)?;
        }
        Ok(())
    }

    #[tactic(auto, unfolding(crate::specs::Facts::rule_axioms))]
    fn push_rule_axioms(&self, alloc: Global, rules: &mut Rules) -> Result<(), Memory>
        ensures { OnOk result (rules.new ≡ rules.old ++ spec.rules_from self.now.world.now self.now.universals.now spec.rule_axioms) }
    {
        self.push_axioms(alloc, &RULE_AXIOMS, rules)?;
        Ok(())
    }

    #[tactic(auto, unfolding(lisp_data::specs::SymbolText::is_symbol_text, lisp_data::specs::Atoms::leaf, lisp_data::specs::Atoms::in_atom, lisp_data::specs::Atoms::is_delimiter, lisp_data::specs::Atoms::is_sign, crate::specs::Facts::theorem_names))]
    fn push_rule_theorems(&self, alloc: Global, rules: &mut Rules) -> Result<(), Memory>
        ensures { OnOk result (rules.new ≡ rules.old ++ spec.rules_from self.now.world.now self.now.universals.now (map Theorem spec.theorem_names)) }
    {
        self.push_theorems(alloc, &RULE_THEOREMS, rules)?;
        Ok(())
    }

    /// The rules that each reduction has: of axioms, then of the theorems that each book begins with.
    pub(crate) fn built_in(&self, alloc: Global) -> Result<Rules, Memory>
        ensures { IfOk result (λ rs. rs ≡ spec.built_in self.now.world.now self.now.universals.now) }
    {
        let mut rules = Seq::new(alloc);
        self.push_rule_axioms(alloc, &mut rules)?;
        self.push_rule_theorems(alloc, &mut rules)?;
        Ok(rules)
    }
}
