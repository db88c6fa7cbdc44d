// The strength of a set of devices, from the marks of the cables. Up to `strength_of` these are figures as the definitions have them,
// where 0 is the strength of a list that is apart, and no `Option`. A table and a set of devices stand side by side, here and in the other
// questions, and no struct of them: one is the plan's, the other the question's. A clause `Names l ..` is no invariant of a set, since an
// answer holds of every list that names its devices.
ghost use Rattle.std.specs.Prelude.{◌≡◌, ℕ, true, ◌&&◌, List, if◌then◌else◌, nat_lt};
ghost use Rattle.network.specs.Lists.{member, ListStrength};
ghost use Rattle.network.specs.Sets.{DeviceSet};
ghost use Rattle.cuts.specs.Members.{set_of};
ghost use Rattle.cutsheets.specs.Listing.{Names};
ghost use Rattle.plan.specs.Grading.{mark_at};
ghost use Rattle.plan.specs.Questions.{StrengthIs};
ghost use Rattle.plan.specs.Strengths.{touches, Highest, Joining};
ghost use Rattle.plan.specs.Tables.{rows_of, table_cables};

use crate::table::Table;
use cuts::devices::Devices;
use forest::bottleneck::poorest;
use forest::several::{lowest, one_of_several};
use network::cable::MarkedCable;

// The mark of a cable at the device, if it is higher; else the highest before it.
fn higher(highest: u16, row: &MarkedCable, device: u8) -> u16
    ensures { result ≡ (if touches row.now.cable device && nat_lt highest row.now.mark then row.now.mark else highest) }
{
    // One test, as the rule has it, and no `max`: that would stand behind the test of the ends all the same.
    if (row.cable.a == device || row.cable.b == device) && highest < row.mark {
        row.mark
    } else {
        highest
    }
}

// The highest mark of the cables at a device; 0 where there is none.
fn highest_mark(table: &Table, device: u8) -> u16
    ensures { Highest (table_cables table.now) (mark_at (rows_of table.now)) device result }
{
    table
        .rows()
        .iter()
        .fold(0, |highest, row| higher(highest, row, device))
}

// `DeviceSet` is required here, in `poorest_run` and in the forest's `climb`, and no type says it: each has one call, behind
// `one_of_several`, which answers a device of a set that is there already.

// The highest mark whose cables, with all higher ones, join the devices; 0 where there is none.
fn joining_mark(table: &Table, devices: &Devices) -> u16
    requires { DeviceSet (set_of devices.now) }
    ensures { Joining (table_cables table.now) (mark_at (rows_of table.now)) (set_of devices.now) result }
{
    poorest(table, devices).unwrap_or(0)
}

// The figure of the strength of a list that names these devices, of which there is one or more: 0 for apart.
fn figure_of(table: &Table, devices: &Devices) -> u16
    ensures { (l : List ℕ) (x : ℕ) → Names l (set_of devices.now) → member l x ≡ true → ListStrength (table_cables table.now) l result }
{
    if one_of_several(devices).is_some() {
        return joining_mark(table, devices);
    }
    lowest(devices).map_or(0, |device| highest_mark(table, device))
}

/// The strength of a list that names these devices, of which there is one or more; none for apart.
pub(crate) fn strength_of(table: &Table, devices: &Devices) -> Option<u16>
    ensures { (l : List ℕ) (x : ℕ) → Names l (set_of devices.now) → member l x ≡ true → StrengthIs (table_cables table.now) l result }
{
    let figure = figure_of(table, devices);
    (figure > 0).then_some(figure)
}
