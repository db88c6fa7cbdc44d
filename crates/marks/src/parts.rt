ghost use Rattle.std.specs.Prelude.{◌≡◌, length};

mod calls;

/// The parts into which cuts have split the devices, and the marks that the cuts have given.
#[derive(Drop)]
pub struct Parts {
    /// How many parts there are. Their numbers are those below it.
    pub(crate) count: u8,
    /// The part of each device.
    pub(crate) part: [u8; 128],
    // An array as `part` is, by part: a part's number is a device's at most, and a lookup needs no bound but that.
    /// The floor of each part: no set that reaches out of the part is stronger, and unless it is 0, some set that has all of the
    /// part is as strong.
    pub(crate) floor: [u16; 128],
    /// The mark of the cable at each place, once its ends are in two parts.
    pub(crate) marks: [u16; 512],
    // Of an array in a field a proof does not know the length.
    ghost long_part: { length part ≡ 128 },
    ghost long_floor: { length floor ≡ 128 },
    ghost long_marks: { length marks ≡ 512 },
}
