ghost use Rattle.std.specs.Prelude.{◌≡◌, ℕ, ◌<◌, ◌≤◌, length, slice_index};

use arrayvec::ArrayVec;

/// Groups of devices: a label for each device, and a device of each label. The labels are below the number of groups.
#[derive(Drop)]
pub struct Groups {
    pub labels: [u8; 128],
    pub reps: ArrayVec<u8, 128>,
    ghost fits: { length reps.items ≤ 128 },
    ghost low: { (d : ℕ) → d < 128 → slice_index labels d < 128 },
    ghost numbered: { (d : ℕ) → d < 128 → 0 < length reps.items → slice_index labels d < length reps.items },
}

impl Groups {
    /// How many groups there are.
    pub fn len(&self) -> u8
        ensures { result ≡ length self.now.reps.items }
    {
        self.reps.len() as u8
    }
}
