// The marks of all cables: parts of the devices are split, cut after cut, until each is a single device.
#![tactic(auto)]

ghost use Rattle.std.specs.Prelude.{◌≡◌, ℕ, ◌<◌, length};
ghost use Rattle.network.specs.Marks.{Marks};
ghost use Rattle.cuts.specs.Members.{set_of};
ghost use Rattle.cuts.specs.Rigs.{rig_cables};
ghost use Rattle.marks.specs.State.{number, moved};

mod parts;

use crate::parts::Parts;
use cuts::devices::Devices;
use cuts::finder::Finder;
use cuts::rig::Rig;

/// The devices of a part: those that the parts label with its number.
pub use cuts::labels::labelled as inside_of;

/// All devices in part 0.
pub fn one_part() -> [u8; 128]
    ensures long { length result ≡ 128 }
    ensures zero { (d : ℕ) → number result d ≡ 0 }
{
    [0; 128]
}

/// The devices of part p on the side go to q.
pub fn move_side(part: &mut [u8; 128], side: &Devices, p: u8, q: u8)
    ensures parts { (d : ℕ) → d < 128 → number part.new d ≡ moved p q (set_of side.now d) (number part.old d) }
    ensures long { length part.new ≡ 128 }
{
    // Each part is set by its device: a proof knows nothing of what a loop over `part.iter_mut().zip(..)` has written.
    for (d, on) in side.flags().iter().enumerate() {
        // Stored where it stays, too: parts are then set many at a time, which the close of a plan of few cables feels.
        part[d] = if *on & (part[d] == p) { q } else { part[d] };
    }
}

// An array by place, and no list beside the rig: callers index it by the places that they have.

/// The mark of the cable at each place of a rig. Parts are taken in turn; a part of two devices or more is split, and the cables
/// across get the number of those that cross the split, or the floor that the part had if it is higher. There are at most
/// 127 splits.
pub fn mark_all<F: Finder>(finder: &F, rig: &Rig) -> [u16; 512]
    ensures marks { Marks (rig_cables rig.now) (number result) }
    ensures long { length result ≡ 512 }
{
    let mut parts = Parts::whole();
    for p in 0..128u8 {
        parts.split_up(finder, rig, p);
    }
    parts.marks
}
