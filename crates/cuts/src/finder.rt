ghost use Rattle.std.specs.Option.{MatchOption};
ghost use Rattle.network.specs.Sets.{DeviceSet};
ghost use Rattle.cuts.specs.Rigs.{rig_cables};
ghost use Rattle.cuts.specs.Members.{set_of};
ghost use Rattle.cuts.specs.Finding.{Finds, LeastSplit};

use crate::devices::Devices;
use crate::rig::Rig;

/// A split of a set of devices: how many cables cross it, and the devices on one side.
#[derive(Clone, Copy)]
pub struct Cut {
    pub crossings: u16,
    pub side: Devices,
}

// A finder, a rig and a set are three things of three owners: a struct of them would only be taken apart again.

/// A way to find, for a set of devices, a split that few cables cross.
pub trait Finder {
    /// A split of the set that no more than `floor` cables cross, or a least one; none for fewer than two devices.
    fn find(&self, rig: &Rig, set: &Devices, floor: u16) -> Option<Cut>
        ensures { MatchOption result (DeviceSet (set_of set.now) → ⊥) (λ c. DeviceSet (set_of set.now) × Finds (rig_cables rig.now) (set_of set.now) floor c.crossings (set_of c.side)) };
}

/// A split of the set that the fewest cables cross; none for fewer than two devices.
pub fn least_cut<F: Finder>(finder: &F, rig: &Rig, set: &Devices) -> Option<Cut>
    ensures { MatchOption result (DeviceSet (set_of set.now) → ⊥) (λ c. DeviceSet (set_of set.now) × LeastSplit (rig_cables rig.now) (set_of set.now) c.crossings (set_of c.side)) }
{
    finder.find(rig, set, 0)
}
