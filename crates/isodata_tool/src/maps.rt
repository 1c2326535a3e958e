//! Mapped formals, and terms on the one and on the other representation.

ghost use Rattle.std.specs.Prelude.{◌≡◌, [], slice_get, IfOk};
ghost use Rattle.std.specs.Option.{option_copied};
ghost use Rattle.terms.specs.Measures.{call1};
ghost use Rattle.terms.specs.Substitution.{by_pairs, HasDistinctKeys};
ghost use Rattle.terms.specs.Terms.{Var, tms};
ghost use Rattle.plan_checks.specs.Answers.{Says};
ghost use Rattle.isodata_tool.specs.Carried as spec;
ghost use Rattle.isodata_tool.specs.Isomorphic as plan;
ghost use Rattle.isodata_tool.specs.Proofs as trees;
ghost use Rattle.isodata_tool.specs.Places.{forth_by_place};
ghost use Rattle.worlds.specs.Lookups.{find_iso};

use lisp_data::{Code, Memory, Seq, Symbol, Symbols};
use plan_checks::PlanError;
use std::alloc::Global;
use terms::{Iso, IsoUse, IsoUses, Subst, Term, Terms};
use worlds::World;

/// A formal of the old function that has another representation in the new one.
#[derive(Drop)]
pub struct Mapped {
    pub formal: Symbol,
    /// Its position among the formals, from 0 on.
    pub position: u32,
    pub iso: Iso,
}

/// Mapped formals, in the order in which they are given.
pub(crate) type Maps = Seq<Mapped>;

/// The position of a name among others, from 0 on.
fn position_of(names: &Symbols, name: &Symbol) -> Option<usize>
    ensures { result ≡ spec.position_of names.now name.now }
{
    for (i, other) in names.as_slice().iter().enumerate() {
        if other.same(name) {
            return Some(i);
        }
    }
    None
}

/// The mapped formal of a name.
pub(crate) fn find_map<'a>(maps: &'a [Mapped], name: &Symbol) -> Option<&'a Mapped>
    ensures { option_copied result ≡ spec.find_map maps.now name.now }
{
    for mapped in maps {
        if mapped.formal.same(name) {
            return Some(mapped);
        }
    }
    None
}

/// The position of a formal that isn't mapped yet.
fn placed(formals: &Symbols, before: &[Mapped], name: &Symbol) -> Result<u32, PlanError>
    ensures { Says (λ k. k) (plan.placed before.now name.now (spec.position_of formals.now name.now)) result }
{
    let Some(position) = position_of(formals, name) else {
        return Err(PlanError::named(Code::UnboundVariable, name));
    };
    if find_map(before, name).is_some() {
        return Err(PlanError::named(Code::RepeatedFormal, name));
    }
    match u32::try_from(position) {
        Ok(position) => Ok(position),
        Err(_) => Err(PlanError::Memory),
    }
}

/// The isomorphism of a name.
fn known_iso<'a>(world: &'a World, name: &Symbol) -> Result<&'a Iso, PlanError>
    ensures { Says (λ i. i.now) (plan.known_iso name.now (find_iso world.now.isos name.now)) result }
{
    match world.find_iso(name) {
        Some(iso) => Ok(iso),
        None => Err(PlanError::named(Code::UnknownName, name)),
    }
}

/// A formal with its isomorphism, behind those that are mapped before.
fn mapped_formal(
    alloc: Global,
    world: &World,
    formals: &Symbols,
    before: &[Mapped],
    pair: &(Symbol, Symbol),
) -> Result<Mapped, PlanError>
    ensures { Says (λ m. m) (plan.mapped_formal world.now formals.now before.now pair.now) result }
{
    let position = placed(formals, before, &pair.0)?;
    let iso = known_iso(world, &pair.1)?;
    let formal = pair.0.share()?;
    let iso = iso.copy(alloc)?;
    Ok(Mapped {
        formal,
        position,
        iso,
    })
}

/// The mapped formals of pairs of a formal and an isomorphism.
pub(crate) fn mapped_formals(
    alloc: Global,
    world: &World,
    formals: &Symbols,
    pairs: &[(Symbol, Symbol)],
) -> Result<Maps, PlanError>
    ensures { Says (λ ms. ms) (plan.mapped_formals world.now formals.now [] pairs.now) result }
{
    let mut maps = Maps::new(alloc);
    for pair in pairs {
        let mapped = mapped_formal(alloc, world, formals, maps.as_slice(), pair)?;
        maps.push(mapped)?;
    }
    Ok(maps)
}

/// The function at a term.
pub(crate) fn applied(alloc: Global, function: &Symbol, term: Term) -> Result<Term, Memory>
    ensures { IfOk result (λ t. t ≡ call1 function.now term) }
{
    let mut args = Terms::new(alloc);
    args.push(term)?;
    Term::call(alloc, function.share()?, args)
}

/// What stands for a formal, on the old representation.
pub(crate) fn back_for(
    alloc: Global,
    maps: &[Mapped],
    formal: &Symbol,
    term: Term,
) -> Result<Term, Memory>
    ensures { IfOk result (λ t. t ≡ spec.back_by (spec.find_map maps.now formal.now) term) }
{
    match find_map(maps, formal) {
        Some(mapped) => applied(alloc, &mapped.iso.back, term),
        None => Ok(term),
    }
}

/// What stands for a formal, on the new representation.
pub(crate) fn forth_for(
    alloc: Global,
    maps: &[Mapped],
    formal: &Symbol,
    term: Term,
) -> Result<Term, Memory>
    ensures { IfOk result (λ t. t ≡ spec.forth_by (spec.find_map maps.now formal.now) term) }
{
    match find_map(maps, formal) {
        Some(mapped) => applied(alloc, &mapped.iso.forth, term),
        None => Ok(term),
    }
}

/// The argument of the formal at a position, on the new representation; where there is no such formal it stays.
fn forth_at(
    alloc: Global,
    maps: &[Mapped],
    formals: &Symbols,
    position: usize,
    term: &Term,
) -> Result<Term, Memory>
    ensures { IfOk result (λ t. t ≡ forth_by_place maps.now (slice_get formals.now position) term.now) }
{
    match formals.get(position) {
        Some(formal) => forth_for(alloc, maps, formal, term.share()?),
        None => term.share(),
    }
}

/// The arguments on the new representation.
#[tactic(auto, using(crate::proofs::Mapping::forths))]
pub(crate) fn all_forth(
    alloc: Global,
    maps: &[Mapped],
    formals: &Symbols,
    args: &Terms,
) -> Result<Terms, Memory>
    ensures { IfOk result (λ ts. tms ts ≡ spec.all_forth maps.now formals.now (tms args.now)) }
{
    let mut images = Terms::new(alloc);
    for (i, arg) in args.as_slice().iter().enumerate() {
        images.push(forth_at(alloc, maps, formals, i, arg)?)?;
    }
    Ok(images)
}

/// What a substitution gives for a variable.
pub(crate) fn image(alloc: Global, images: &Subst, name: &Symbol) -> Result<Term, Memory>
    ensures { IfOk result (λ t. t ≡ by_pairs images.now name.now) }
{
    match images.find(name) {
        Some(term) => term.share(),
        None => Term::var(alloc, name.share()?),
    }
}

/// That what the substitution gives for each mapped formal is in the old representation.
pub(crate) fn all_in_old(alloc: Global, maps: &[Mapped], images: &Subst) -> Result<Terms, Memory>
    ensures { IfOk result (λ ts. ts ≡ spec.all_in_old maps.now (by_pairs images.now)) }
{
    let mut terms = Terms::new(alloc);
    for mapped in maps {
        let term = image(alloc, images, &mapped.formal)?;
        terms.push(applied(alloc, &mapped.iso.oldp, term)?)?;
    }
    Ok(terms)
}

/// That each mapped formal is in the old representation.
pub(crate) fn formals_in_old(alloc: Global, maps: &[Mapped]) -> Result<Terms, Memory>
    ensures { IfOk result (λ ts. ts ≡ spec.all_in_old maps.now Var) }
{
    let own = Subst::new(alloc);
    let terms = all_in_old(alloc, maps, &own)?;
    Ok(terms)
}

/// That each mapped formal is in the new representation.
pub(crate) fn all_in_new(alloc: Global, maps: &[Mapped]) -> Result<Terms, Memory>
    ensures { IfOk result (λ ts. ts ≡ spec.all_in_new maps.now) }
{
    let mut terms = Terms::new(alloc);
    for mapped in maps {
        let term = Term::var(alloc, mapped.formal.share()?)?;
        terms.push(applied(alloc, &mapped.iso.newp, term)?)?;
    }
    Ok(terms)
}

/// The mapped formals on the old representation, as a substitution.
#[tactic(auto, using(crate::proofs::Mapping::keys))]
pub(crate) fn backs(alloc: Global, maps: &[Mapped]) -> Result<Subst, Memory>
    requires { HasDistinctKeys (trees.backs maps.now) }
    ensures { IfOk result (λ s. s ≡ trees.backs maps.now) }
{
    let mut images = Subst::new(alloc);
    for mapped in maps {
        let formal = Term::var(alloc, mapped.formal.share()?)?;
        let image = applied(alloc, &mapped.iso.back, formal)?;
        images.push(mapped.formal.share()?, image)?;
    }
    Ok(images)
}

/// What a link keeps of the mapped formals.
pub(crate) fn uses_of(alloc: Global, maps: &[Mapped]) -> Result<IsoUses, Memory>
    ensures { IfOk result (λ us. us ≡ spec.uses_of maps.now) }
{
    let mut uses = IsoUses::new(alloc);
    for mapped in maps {
        let oldp = mapped.iso.oldp.share()?;
        let forth = mapped.iso.forth.share()?;
        uses.push(IsoUse {
            position: mapped.position,
            oldp,
            forth,
        })?;
    }
    Ok(uses)
}
