// What the cables of a grade link.
ghost use Rattle.std.specs.Prelude.{◌≡◌, ℕ, ◌+◌, ◌<◌, true, false, ◌↔◌, ◌==◌};
ghost use Rattle.network.specs.Chains.{Linked};
ghost use Rattle.cuts.specs.Members.{set_of};
ghost use Rattle.forest.specs.Places.{Reaching};
ghost use Rattle.forest.specs.Labels.{Labelled};
ghost use Rattle.cuts.specs.Links.{label};
ghost use Rattle.forest.specs.Forests.{ReachingUpTo};

use crate::crossing::found_at;
use crate::grade::Grade;
use crate::graded::Graded;
use crate::labels::merge;
use cuts::devices::Devices;
use cuts::labels::{labelled, own_labels};
use network::out_of_range;

// Edges and a floor come from the caller of `joined`: a struct of them would be made for two steps alone.

/// Merges the ends of the cable at a place, if its grade reaches the floor.
fn take_in<E: Graded>(edges: &E, floor: E::Grade, place: u16, labels: &mut [u8; 128])
    requires { Labelled labels.old (ReachingUpTo E.Grade.Grade.over (E.Graded.cables edges.now) (E.Graded.grade edges.now) floor place) }
    ensures { Labelled labels.new (ReachingUpTo E.Grade.Grade.over (E.Graded.cables edges.now) (E.Graded.grade edges.now) floor (place + 1)) }
{
    if let Some(found) = found_at(edges, place) {
        if found.grade.reaches(floor) {
            merge(labels, found.ends);
        }
    }
}

/// Labels that are the same where cables whose grade reaches the floor link two devices.
fn labels_of<E: Graded>(edges: &E, floor: E::Grade) -> [u8; 128]
    ensures { Labelled result (Reaching E.Grade.Grade.over (E.Graded.cables edges.now) (E.Graded.grade edges.now) floor) }
{
    let mut labels = own_labels();
    // `Graded` tells its cables place by place and hands out no slice of them.
    for place in 0..edges.count() {
        take_in(edges, floor, place, &mut labels);
    }
    labels
}

/// The devices that cables whose grade reaches the floor link to `from`, itself too; none where `from` is no device.
pub fn joined<E: Graded>(edges: &E, floor: E::Grade, from: u8) -> Devices
    ensures { (d : ℕ) → d < 128 → (set_of result d ≡ true) ↔ Linked (Reaching E.Grade.Grade.over (E.Graded.cables edges.now) (E.Graded.grade edges.now) floor) from d }
{
    if out_of_range(from) {
        return Devices::none();
    }
    let labels = labels_of(edges, floor);
    labelled(&labels, labels[from as usize])
}
