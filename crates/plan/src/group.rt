// The group of a list, and a set of devices as bytes.
ghost use Rattle.std.specs.Prelude.{◌≡◌, ℕ, ◌<◌, ◌≤◌, true, List, length};
ghost use Rattle.network.specs.Lists.{member, ListStrength, Group};
ghost use Rattle.cuts.specs.Members.{set_of};
ghost use Rattle.plan.specs.Bytes.{Written};
ghost use Rattle.plan.specs.Questions.{size};
ghost use Rattle.plan.specs.Tables.{table_cables};
ghost use Rattle.cutsheets.specs.Listing.{Names};

use crate::buffer::write_first;
use crate::table::Table;
use cuts::devices::Devices;
use forest::reach::joined;
use forest::several::lowest;

/// The group of a list that names these devices and has the strength k.
pub(crate) fn group_of(table: &Table, devices: &Devices, k: u16) -> Devices
    ensures { (l : List ℕ) (x : ℕ) → Names l (set_of devices.now) → member l x ≡ true → 0 < k → ListStrength (table_cables table.now) l k → Group (table_cables table.now) l k (set_of result) }
{
    lowest(devices).map_or_else(Devices::none, |device| joined(table, k, device))
}

/// Writes 1 for each device of the set, and 0 for each other, into the first 128 bytes of a buffer.
pub(crate) fn write_bytes(devices: &Devices, buffer: &mut [u8])
    requires { 128 ≤ length buffer.old }
    ensures { Written (set_of devices.now) 128 buffer.old buffer.new }
{
    let mut bytes = [0u8; 128];
    // Each byte is set by its device: an array's `map` takes thirty times as long, and with it a group of one device 2.7 times as long.
    for (d, on) in devices.flags().iter().enumerate() {
        bytes[d] = u8::from(*on);
    }
    write_first(buffer, &bytes);
}

/// How many devices a set has.
pub(crate) fn count_of(devices: &Devices) -> u8
    ensures { result ≡ size (set_of devices.now) }
{
    devices.flags().iter().filter(|flag| **flag).count() as u8
}
