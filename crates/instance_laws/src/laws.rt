//! Laws of instances, each the contract of a function that does nothing.

ghost use Rattle.instance_laws.specs.Laws.{InstancesHaveValues, MapsArePart, InstancesHold, InstancesOwe, RecordsStay, MapsStay, WorldsGrowByInstances};

/// A term under a map that is closed under calls has the value that the term has where function variables stand for what
/// the map gives.
pub fn instances_have_values()
    ensures { InstancesHaveValues }
{}

/// The map that pairs give is part of one that is closed under calls.
pub fn maps_are_part()
    ensures { MapsArePart }
{}

/// The instance of a sequent that holds holds.
pub fn instances_hold()
    ensures { InstancesHold }
{}

/// The instance of a definition can be added, and what it owes holds.
pub fn instances_owe()
    ensures { InstancesOwe }
{}

/// A recorded instance is one in each later world.
pub fn records_stay()
    ensures { RecordsStay }
{}

/// What pairs give for a sequent they give in each later world.
pub fn maps_stay()
    ensures { MapsStay }
{}

/// A sound world stays sound with the instance of a definition, and this instance can be recorded there.
pub fn worlds_grow_by_instances()
    ensures { WorldsGrowByInstances }
{}
