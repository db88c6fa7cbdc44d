ghost use Rattle.std.specs.Prelude.{◌≡◌, length};

mod calls;

// No `impl Model`: contracts see a set as a function of a number, which the kit does not store as a value; `set_of` is that function.

/// A set of devices: for each number below 128, whether it is in the set.
#[derive(Clone, Copy)]
pub struct Devices {
    flags: [bool; 128],
    // Said here, since of an array in a field a proof does not know the length.
    ghost size: { length flags ≡ 128 },
}
