//! Hint steps, one after the other.

ghost use Rattle.std.specs.Prelude.{◌≡◌, map, IfOk};
ghost use Rattle.lisp_data.specs.FormView.{form_of, IsProper, AllProper};
ghost use Rattle.hints.specs.Refused.{Says};
ghost use Rattle.hints.specs.Steps as spec;

use crate::errors::HintError;
use crate::facts::Facts;
use crate::hint::Hints;
use crate::reading::{
    add_all_cases, add_all_expanded, add_all_opened, add_all_rules, read_scheme, read_use,
};
use lisp_data::{Form, Memory, Seq};
use proof_texts::{is_word, items};
use reduction::How;
use std::alloc::Global;
use worlds::World;

impl Hints {
    /// The hints without any step: the rules that each reduction has.
    fn none(alloc: Global, facts: &Facts<'_>) -> Result<Hints, Memory>
        ensures { IfOk result (λ h. h ≡ spec.no_hints facts.now.world.now facts.now.universals.now) }
    {
        let rules = facts.built_in(alloc)?;
        Ok(Hints {
            induct: None,
            uses: Seq::new(alloc),
            how: How {
                opened: Seq::new(alloc),
                expanded: Seq::new(alloc),
                cases: Seq::new(alloc),
                rules,
            },
        })
    }

    fn add_scheme(&mut self, alloc: Global, world: &World, parts: &[Form]) -> Result<(), HintError>
        requires { AllProper parts.now }
        ensures { Says (λ _. self.new) (spec.with_scheme world.now self.old (map form_of parts.now)) result }
    {
        let [form] = parts else {
            return Err(HintError::bad_hint(alloc));
        };
        if self.induct.is_some() {
            return Err(HintError::bad_hint(alloc));
        }
        let scheme = read_scheme(alloc, world, form)?;
        self.induct = Some(scheme);
        Ok(())
    }

    fn add_use(&mut self, alloc: Global, facts: &Facts<'_>, parts: &[Form]) -> Result<(), HintError>
        requires { AllProper parts.now }
        ensures { Says (λ _. self.new) (spec.with_use facts.now.world.now facts.now.universals.now self.old (map form_of parts.now)) result }
    {
        let it = read_use(alloc, facts, parts)?;
        self.uses.push(it)?;
        Ok(())
    }

    fn add_cases(&mut self, alloc: Global, world: &World, parts: &[Form]) -> Result<(), HintError>
        requires { AllProper parts.now }
        ensures { Says (λ _. self.new) (spec.with_cases world.now self.old (map form_of parts.now)) result }
    {
        add_all_cases(alloc, world, parts, &mut self.how.cases)
    }

    fn add_opened(&mut self, alloc: Global, world: &World, parts: &[Form]) -> Result<(), HintError>
        requires { AllProper parts.now }
        ensures { Says (λ _. self.new) (spec.with_names world.now self.old (map form_of parts.now)) result }
    {
        add_all_opened(alloc, world, parts, &mut self.how.opened)
    }

    fn add_expanded(
        &mut self,
        alloc: Global,
        world: &World,
        parts: &[Form],
    ) -> Result<(), HintError>
        requires { AllProper parts.now }
        ensures { Says (λ _. self.new) (spec.with_calls world.now self.old (map form_of parts.now)) result }
    {
        add_all_expanded(alloc, world, parts, &mut self.how.expanded)
    }

    fn add_rules(
        &mut self,
        alloc: Global,
        facts: &Facts<'_>,
        parts: &[Form],
    ) -> Result<(), HintError>
        requires { AllProper parts.now }
        ensures { Says (λ _. self.new) (spec.with_rules facts.now.world.now facts.now.universals.now self.old (map form_of parts.now)) result }
    {
        add_all_rules(alloc, facts, parts, &mut self.how.rules)
    }

    /// A step by its word and its parts.
    fn add_word(
        &mut self,
        alloc: Global,
        facts: &Facts<'_>,
        word: &Form,
        parts: &[Form],
    ) -> Result<(), HintError>
        requires word { IsProper word.now }
        requires parts { AllProper parts.now }
        ensures { Says (λ _. self.new) (spec.with_word facts.now.world.now facts.now.universals.now self.old (form_of word.now) (map form_of parts.now)) result }
    {
        if is_word(word, ":INDUCT") {
            self.add_scheme(alloc, facts.world, parts)
        } else if is_word(word, ":USE") {
            self.add_use(alloc, facts, parts)
        } else if is_word(word, ":CASES") {
            self.add_cases(alloc, facts.world, parts)
        } else if is_word(word, ":UNFOLD") {
            self.add_opened(alloc, facts.world, parts)
        } else if is_word(word, ":EXPAND") {
            self.add_expanded(alloc, facts.world, parts)
        } else if is_word(word, ":REWRITE") {
            self.add_rules(alloc, facts, parts)
        } else {
            Err(HintError::bad_hint(alloc))
        }
    }

    fn add_step(&mut self, alloc: Global, facts: &Facts<'_>, form: &Form) -> Result<(), HintError>
        requires { IsProper form.now }
        ensures { Says (λ _. self.new) (spec.with_step facts.now.world.now facts.now.universals.now self.old (form_of form.now)) result }
    {
        let Some([word, parts @ ..]) = items(form) else {
            return Err(HintError::bad_hint(alloc));
        };
        self.add_word(alloc, facts, word, parts)
    }

    /// What hint steps ask for, or the first refusal, from left to right.
    #[tactic(auto, using(crate::proofs::Through::through_forms))]
    pub fn of_steps(alloc: Global, facts: &Facts<'_>, forms: &[Form]) -> Result<Hints, HintError>
        requires { AllProper forms.now }
        ensures { Says (λ h. h) (spec.hints_from facts.now.world.now facts.now.universals.now (map form_of forms.now)) result }
    {
        let mut hints = Hints::none(alloc, facts)?;
        for form in forms {
            hints.add_step(alloc, facts, form)?;
        }
        Ok(hints)
    }

    /// What a list of hint steps asks for, or the first refusal.
    pub fn read(alloc: Global, facts: &Facts<'_>, form: &Form) -> Result<Hints, HintError>
        requires { IsProper form.now }
        ensures { Says (λ h. h) (spec.hints_of facts.now.world.now facts.now.universals.now (form_of form.now)) result }
    {
        let Some(forms) = items(form) else {
            return Err(HintError::bad_hint(alloc));
        };
        let hints = Hints::of_steps(alloc, facts, forms)?;
        Ok(hints)
    }
}
