//! `isodata`.

ghost use Rattle.std.specs.Prelude.{◌≡◌, map, IfOk, IsOk, Ok};
ghost use Rattle.lisp_data.specs.FormView.{form_of};
ghost use Rattle.event_forms.specs.Representations.{maps_of};
ghost use Rattle.event_forms.specs.ShapeView.{isodata_seen, IsProperIsodata};
ghost use Rattle.isodata_tool.specs.Requests.{request_seen};
ghost use Rattle.events.specs.Isodata as spec;
ghost use Rattle.events.specs.view.Halts.{Reads};

use crate::clauses::Clauses;
use crate::halt::Halt;
use crate::kind::Kind;
use crate::redundancy::Repeats;
use event_forms::{EventError, IsodataParts};
use isodata_tool::Request;
use kernel::Proved;
use lisp_data::{Symbol, Symbols};
use lists::{Memory, Seq, Text};
use plans::{Claims, Plan};
use std::alloc::Global;
use worlds::World;

/// `(isodata f ((x iso) ..) :new-name g :new-to-old-name n1 :old-to-new-name n2 ..)`.
#[derive(Clone, Copy)]
pub struct Isodata<'a> {
    pub representation: IsodataParts<'a>,
}

/// Pairs of a formal and an isomorphism.
type Maps = Seq<(Symbol, Symbol)>;

/// The pairs of a formal and an isomorphism.
fn read_maps(alloc: Global, parts: &IsodataParts<'_>) -> Result<Maps, Halt>
    requires { IsProperIsodata parts.now }
    ensures { Reads (λ maps. maps) (maps_of (isodata_seen parts.now).maps) result }
{
    let maps = event_forms::read_maps(alloc, parts.maps)?;
    Ok(maps)
}

/// The same, where they were read before.
fn maps_again(alloc: Global, parts: &IsodataParts<'_>) -> Result<Maps, Memory>
    requires proper { IsProperIsodata parts.now }
    requires read { IsOk (maps_of (isodata_seen parts.now).maps) }
    ensures { IfOk result (λ maps. maps_of (isodata_seen parts.now).maps ≡ Ok maps) }
{
    match event_forms::read_maps(alloc, parts.maps) {
        Ok(maps) => Ok(maps),
        Err(error) => match error {
            EventError::Refused { code: _, detail: _ } => unreachable!(),
            EventError::Memory => Err(Memory),
        },
    }
}

/// What is asked for.
fn request<'a>(parts: &IsodataParts<'a>, maps: &'a [(Symbol, Symbol)]) -> Request<'a>
    ensures { request_seen result ≡ spec.request (isodata_seen parts.now) maps.now }
{
    Request {
        old: parts.old,
        maps,
        function: parts.function,
        new_to_old: parts.new_to_old,
        old_to_new: parts.old_to_new,
    }
}

impl Kind for Isodata<'_> {
    ghost frame = { λ e. spec.isodata (isodata_seen e.representation) };

    ghost proper = { λ e. IsProperIsodata e.representation };

    fn is_lawful(&self) {
        isodata_tool::transfers_are_lawful();
    }

    fn write_title(&self, out: &mut Text) -> Result<(), Memory> {
        out.extend(b"isodata ")?;
        out.extend(self.representation.old_to_new.text().as_bytes())
    }

    fn shows(&self) -> bool {
        true
    }

    fn names(&self, alloc: Global) -> Result<Symbols, Memory> {
        let mut names = Symbols::new(alloc);
        names.push(self.representation.function.share()?)?;
        names.push(self.representation.new_to_old.share()?)?;
        names.push(self.representation.old_to_new.share()?)?;
        Ok(names)
    }

    fn repeats(&self) -> Repeats<'_> {
        Repeats::AsForm
    }

    fn clauses(&self) -> Clauses<'_> {
        Clauses::Each {
            proofs: self.representation.proofs,
            hows: self.representation.hows,
        }
    }

    fn plan(&self, alloc: Global, world: &World) -> Result<Plan, Halt> {
        let maps = read_maps(alloc, &self.representation)?;
        let request = request(&self.representation, maps.as_slice());
        let plan = isodata_tool::plan(alloc, world, &request)?;
        Ok(plan)
    }

    fn finish(
        &self,
        alloc: Global,
        world: &World,
        plan: &Plan,
        proved: &[Proved],
    ) -> Result<Claims, Memory> {
        let maps = maps_again(alloc, &self.representation)?;
        let request = request(&self.representation, maps.as_slice());
        isodata_tool::finish(alloc, world, &request, plan, proved)
    }
}
