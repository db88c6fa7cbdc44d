ghost use Rattle.std.specs.Prelude.{◌≡◌, ◌≤◌, length};
ghost use Rattle.network.specs.Sets.{belongs};
ghost use Rattle.cuts.specs.Members.{set_of};
ghost use Rattle.cuts.specs.Links.{Keeps};
ghost use Rattle.cuts.specs.Rigs.{rig_cables};

use crate::adjacency::link::Link;
use crate::devices::Devices;
use crate::rig::Rig;
use arrayvec::ArrayVec;
use network::cable::Cable;

/// The links of a set: no more than a rig has cables.
#[derive(Drop)]
pub struct Links {
    pub list: ArrayVec<Link, 512>,
    ghost few: { length list.items ≤ 512 },
}

/// Whether both ends of a cable are in the set.
fn both_ends_in(c: &Cable, set: &Devices) -> bool
    ensures { result ≡ belongs (set_of set.now) c.now }
{
    set.has(c.a) && set.has(c.b)
}

/// The cables that belong to a set.
pub fn links_of(rig: &Rig, set: &Devices) -> Links
    ensures { Keeps (rig_cables rig.now) (set_of set.now) result.list.items }
{
    let mut list = ArrayVec::new();
    for c in rig.cables() {
        if both_ends_in(c, set) {
            // No `From<&Cable>`, which could not ask for a lawful cable.
            list.push(Link { a: c.a, b: c.b });
        }
    }
    Links { list }
}
