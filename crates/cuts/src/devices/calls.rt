ghost use Rattle.std.specs.Prelude.{◌≡◌, ℕ, false, ◌&&◌, ◌||◌, ◌==◌, nat_lt, slice_index_or};
ghost use Rattle.cuts.specs.Members.{set_of};

use crate::devices::Devices;

impl Devices {
    /// No device.
    pub fn none() -> Devices
        ensures { (d : ℕ) → set_of result d ≡ false }
    {
        Devices {
            flags: [false; 128],
        }
    }

    /// Every device, 0 to 127.
    pub fn all() -> Devices
        ensures { (d : ℕ) → set_of result d ≡ nat_lt d 128 }
    {
        Devices { flags: [true; 128] }
    }

    /// The devices whose flags are set.
    pub fn from_flags(flags: [bool; 128]) -> Devices
        ensures { (d : ℕ) → set_of result d ≡ slice_index_or flags d false }
    {
        Devices { flags }
    }

    /// For each device, whether it is in the set.
    pub fn flags(&self) -> &[bool; 128]
        ensures { result.now ≡ self.now.flags }
    {
        &self.flags
    }

    // Here and in `add` the bound is that of the flags, and no rule that a call breaks.

    /// Whether a device is in the set. No number above 127 is.
    pub fn has(&self, device: u8) -> bool
        ensures { result ≡ set_of self.now device }
    {
        device < 128 && self.flags[device as usize]
    }

    /// Puts a device into the set. A number above 127 is no device and changes nothing.
    pub fn add(&mut self, device: u8)
        ensures { (d : ℕ) → set_of self.new d ≡ (set_of self.old d || (d == device && nat_lt device 128)) }
    {
        if device < 128 {
            self.flags[device as usize] = true;
        }
    }
}
