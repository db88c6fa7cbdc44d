// Labels of the 128 devices.
ghost use Rattle.std.specs.Prelude.{◌≡◌, ℕ, ◌<◌, length, ◌==◌, slice_index};
ghost use Rattle.cuts.specs.Members.{set_of};

use crate::devices::Devices;

/// Each device has its own number for a label.
pub fn own_labels() -> [u8; 128]
    ensures size { length result ≡ 128 }
    ensures own { (d : ℕ) → d < 128 → slice_index result d ≡ d }
{
    // Clauses say a length here, in `own_sheet`, `move_side`, `mark_all` and `stamp`: of an array handed back a proof does not know it.
    let mut labels = [0u8; 128];
    // By index: of a loop over `iter_mut().enumerate()` a proof knows nothing of what was written.
    for d in 0..128u8 {
        labels[d as usize] = d;
    }
    labels
}

// Flags by a test on the number, as `roots` and the `opposite` of a sheet set them too: one function of the three would take a closure,
// and a clause about it.

/// The devices with this label.
pub fn labelled(labels: &[u8; 128], with: u8) -> Devices
    ensures { (d : ℕ) → d < 128 → set_of result d ≡ (slice_index labels.now d == with) }
{
    let mut flags = [false; 128];
    // Each flag is set by its device: an array's `map` takes thirty times as long.
    for (d, label) in labels.iter().enumerate() {
        flags[d] = *label == with;
    }
    Devices::from_flags(flags)
}
