//! The pairs of instances, the maps that they give, and instances of functions.

ghost use Rattle.std.specs.Prelude.{◌≡◌, Some, map};
ghost use Rattle.lisp_data.specs.FormView.{form_of, AllProper};
ghost use Rattle.terms.specs.Definitions.{find};
ghost use Rattle.terms.specs.Instances as spec;
ghost use Rattle.event_forms.specs.Instances as shapes;
ghost use Rattle.events.specs.view.Halts.{Reads};

use crate::halt::Halt;
use lisp_data::{Form, Symbol};
use soft_vars::NameMap;
use std::alloc::Global;
use terms::{Definition, FunPairs, Terms};
use worlds::World;

/// The pairs of an instance.
pub(crate) fn read_pairs(alloc: Global, forms: &[Form]) -> Result<FunPairs, Halt>
    requires { AllProper forms.now }
    ensures { Reads (λ pairs. pairs) (shapes.pairs_of (map form_of forms.now)) result }
{
    let pairs = event_forms::read_pairs(alloc, forms)?;
    Ok(pairs)
}

/// The map that pairs give for some terms.
pub(crate) fn instance_map(
    alloc: Global,
    world: &World,
    terms: &Terms,
    pairs: &FunPairs,
) -> Result<NameMap, Halt>
    ensures { Reads (λ m. m) (spec.instance_map world.now terms.now pairs.now) result }
{
    let map = soft_vars::instance_map(alloc, world, terms, pairs)?;
    Ok(map)
}

/// The instance of a definition of the world under a new name.
pub(crate) fn function_instance(
    alloc: Global,
    world: &World,
    definition: &Definition,
    pairs: &FunPairs,
    name: &Symbol,
) -> Result<Definition, Halt>
    requires { find world.now.functions.defs definition.now.name ≡ Some definition.now }
    ensures { Reads (λ i. i) (spec.function_instance world.now definition.now pairs.now name.now) result }
{
    let instance = soft_vars::instantiate_function(alloc, world, &definition.name, pairs, name)?;
    Ok(instance)
}
