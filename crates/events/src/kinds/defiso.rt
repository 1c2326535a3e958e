//! `defiso`.

ghost use Rattle.std.specs.Prelude.{◌≡◌, IfOk};
ghost use Rattle.event_forms.specs.ShapeView.{iso_seen, IsProperIso};
ghost use Rattle.events.specs.Defiso as spec;
ghost use Rattle.events.specs.view.Halts.{Reads};

use crate::clauses::Clauses;
use crate::functions::check_unary;
use crate::halt::Halt;
use crate::isomorphisms::iso_conditions;
use crate::kind::Kind;
use crate::redundancy::Repeats;
use event_forms::IsoParts;
use kernel::Proved;
use lisp_data::Symbols;
use lists::{Memory, Text};
use plans::{Claims, Entry, Plan};
use std::alloc::Global;
use terms::Iso;
use worlds::World;

/// `(defiso n oldp newp forth back ..)`.
#[derive(Clone, Copy)]
pub struct Defiso<'a> {
    pub iso: IsoParts<'a>,
}

fn iso_of(parts: &IsoParts<'_>) -> Result<Iso, Memory>
    ensures { IfOk result (λ i. i ≡ spec.iso (iso_seen parts.now)) }
{
    Ok(Iso {
        name: parts.name.share()?,
        oldp: parts.oldp.share()?,
        newp: parts.newp.share()?,
        forth: parts.forth.share()?,
        back: parts.back.share()?,
    })
}

/// The isomorphism of its parts, where its predicates and then its functions may be ones.
fn read_iso(alloc: Global, world: &World, parts: &IsoParts<'_>) -> Result<Iso, Halt>
    ensures { Reads (λ i. i) (spec.checked_iso world.now (spec.iso (iso_seen parts.now))) result }
{
    check_unary(alloc, world, parts.oldp)?;
    check_unary(alloc, world, parts.newp)?;
    check_unary(alloc, world, parts.forth)?;
    check_unary(alloc, world, parts.back)?;
    let iso = iso_of(parts)?;
    Ok(iso)
}

impl Kind for Defiso<'_> {
    ghost frame = { λ e. spec.defiso (iso_seen e.iso) };

    ghost proper = { λ e. IsProperIso e.iso };

    fn is_lawful(&self) {}

    fn write_title(&self, out: &mut Text) -> Result<(), Memory> {
        out.extend(b"defiso ")?;
        out.extend(self.iso.name.text().as_bytes())
    }

    fn shows(&self) -> bool {
        false
    }

    fn names(&self, alloc: Global) -> Result<Symbols, Memory> {
        let mut names = Symbols::new(alloc);
        names.push(self.iso.name.share()?)?;
        Ok(names)
    }

    fn repeats(&self) -> Repeats<'_> {
        Repeats::AsForm
    }

    fn clauses(&self) -> Clauses<'_> {
        Clauses::Each {
            proofs: self.iso.proofs,
            hows: self.iso.hows,
        }
    }

    fn plan(&self, alloc: Global, world: &World) -> Result<Plan, Halt> {
        let iso = read_iso(alloc, world, &self.iso)?;
        let mut plan = Plan::new(alloc);
        plan.conditions = iso_conditions(alloc, world, &iso)?;
        plan.entries.push(Entry::Isomorphism(iso))?;
        Ok(plan)
    }

    fn finish(
        &self,
        alloc: Global,
        _world: &World,
        _plan: &Plan,
        _proved: &[Proved],
    ) -> Result<Claims, Memory> {
        Ok(Claims::new(alloc))
    }
}
