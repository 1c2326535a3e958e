//! `restrict`.

ghost use Rattle.std.specs.Prelude.{◌≡◌, IfOk};
ghost use Rattle.lisp_data.specs.ValueView.{val_of};
ghost use Rattle.event_forms.specs.ShapeView.{restrict_seen, IsProperRestriction};
ghost use Rattle.restrict_tool.specs.Requests.{request_seen};
ghost use Rattle.events.specs.Restrict as spec;

use crate::clauses::Clauses;
use crate::halt::Halt;
use crate::kind::Kind;
use crate::redundancy::Repeats;
use event_forms::{RestrictParts, undefined};
use kernel::Proved;
use lisp_data::{Symbols, Value};
use lists::{Memory, Text};
use plans::{Claims, Plan};
use restrict_tool::Request;
use std::alloc::Global;
use worlds::World;

/// `(restrict f r :new-name g :thm-name n ..)`.
#[derive(Clone, Copy)]
pub struct Restrict<'a> {
    pub restriction: RestrictParts<'a>,
}

/// What is asked for.
fn request<'a>(parts: &RestrictParts<'a>, undefined: &'a Value) -> Request<'a>
    requires { val_of undefined.now ≡ (restrict_seen parts.now).undefined }
    ensures seen { request_seen result ≡ spec.request (restrict_seen parts.now) }
    ensures form { result.restriction.now ≡ parts.now.restriction.now }
{
    Request {
        old: parts.old,
        restriction: parts.restriction,
        undefined,
        function: parts.function,
        theorem: parts.theorem,
    }
}

impl Kind for Restrict<'_> {
    ghost frame = { λ e. spec.restrict (restrict_seen e.restriction) };

    ghost proper = { λ e. IsProperRestriction e.restriction };

    fn is_lawful(&self) {
        restrict_tool::restrictions_are_lawful();
    }

    fn write_title(&self, out: &mut Text) -> Result<(), Memory> {
        out.extend(b"restrict ")?;
        out.extend(self.restriction.theorem.text().as_bytes())
    }

    fn shows(&self) -> bool {
        true
    }

    fn names(&self, alloc: Global) -> Result<Symbols, Memory> {
        let mut names = Symbols::new(alloc);
        names.push(self.restriction.function.share()?)?;
        names.push(self.restriction.theorem.share()?)?;
        Ok(names)
    }

    fn repeats(&self) -> Repeats<'_> {
        Repeats::AsForm
    }

    fn clauses(&self) -> Clauses<'_> {
        Clauses::Each {
            proofs: self.restriction.proofs,
            hows: self.restriction.hows,
        }
    }

    fn plan(&self, alloc: Global, world: &World) -> Result<Plan, Halt> {
        let outside = undefined(alloc, self.restriction.undefined)?;
        let request = request(&self.restriction, &outside);
        let plan = restrict_tool::plan(alloc, world, &request)?;
        Ok(plan)
    }

    fn finish(
        &self,
        alloc: Global,
        world: &World,
        plan: &Plan,
        proved: &[Proved],
    ) -> Result<Claims, Memory> {
        let outside = undefined(alloc, self.restriction.undefined)?;
        let request = request(&self.restriction, &outside);
        restrict_tool::finish(alloc, world, &request, plan, proved)
    }
}
