//! What proofs say of the sequents that they prove.

ghost use Rattle.terms.specs.Worlds.{Each, Holds};
ghost use Rattle.plans.specs.Proving.{ProvesAll};

use kernel::Proved;
use plans::proved_conditions_hold;
use terms::Sequent;
use worlds::World;

/// Sequents that are proved in a world hold there.
#[tactic(auto, using(crate::proofs::Held::held))]
pub fn all_hold(world: &World, sequents: &[Sequent], proved: &[Proved])
    requires { ProvesAll world.now sequents.now proved.now }
    ensures { Each (Holds world.now.functions) sequents.now }
{
    world.soundness();
    proved_conditions_hold();
    for i in 0..sequents.len() {
        let _sequent = proved[i].sequent();
    }
}
