ghost use Rattle.std.specs.Prelude.{◌≡◌, ◌≤◌, length};

/// Places of cables that join whatever all cables join, the best first, and none of them in vain.
#[derive(Clone, Copy)]
pub struct Forest {
    // A forest is copied freely, so its places stand in an array with their count: an `ArrayVec` is not `Copy`.
    pub(crate) places: [u16; 127],
    pub(crate) count: u8,
    // Of an array in a field a proof does not know the length.
    ghost size: { length places ≡ 127 },
    ghost few: { count ≤ 127 },
}
