// The poorest cable that a set of devices needs.
ghost use Rattle.std.specs.Prelude.{◌≡◌, true, None};
ghost use Rattle.network.specs.Sets.{DeviceSet};
ghost use Rattle.cuts.specs.Members.{set_of};
ghost use Rattle.forest.specs.Forests.{place_of, Spans};
ghost use Rattle.forest.specs.Poorest.{Poorest, PoorestUnique};

use crate::crossing::found_at;
use crate::forest::Forest;
use crate::grade::Grade;
use crate::graded::Graded;
use crate::growth::grow;
use crate::labels::merge;
use crate::several::{one_label, one_of_several};
use cuts::devices::Devices;
use cuts::labels::own_labels;

// `several` is required, and no type says it: the one caller has it from `one_of_several`, which answers a device of a set that is there already.

/// Merges the forest best first, up to the cable that makes the devices one label.
fn climb<E: Graded>(edges: &E, forest: &Forest, devices: &Devices, one: u8) -> Option<E::Grade>
    requires spans { Spans E.Grade.Grade.over (E.Graded.cables edges.now) (E.Graded.grade edges.now) (place_of forest.now) forest.now.count }
    requires several { DeviceSet (set_of devices.now) }
    requires one { set_of devices.now one ≡ true }
    ensures { Poorest E.Grade.Grade.over (E.Graded.cables edges.now) (E.Graded.grade edges.now) (set_of devices.now) result }
{
    let mut labels = own_labels();
    for place in forest.places() {
        let found = found_at(edges, *place)?;
        merge(&mut labels, found.ends);
        if one_label(&labels, devices, one) {
            return Some(found.grade);
        }
    }
    None
}

/// The best grade whose cables join the devices: the grade of the poorest cable that they need. None where all cables
/// together do not join them, and for fewer than two devices. It costs one look at each cable for each cable that is kept.
pub fn poorest<E: Graded>(edges: &E, devices: &Devices) -> Option<E::Grade>
    ensures answer { DeviceSet (set_of devices.now) → Poorest E.Grade.Grade.over (E.Graded.cables edges.now) (E.Graded.grade edges.now) (set_of devices.now) result }
    ensures few { (DeviceSet (set_of devices.now) → ⊥) → result ≡ None }
{
    let one = one_of_several(devices)?;
    climb(edges, &grow(edges), devices, one)
}

/// The contract of `poorest` allows one answer, whatever the grade.
pub fn poorest_unique<G: Grade>(_grade: G)
    ensures { PoorestUnique G.Grade.over }
{}
