// What a closed plan answers of a list of devices.
ghost use Rattle.network.specs.Sets.{DeviceSet};
ghost use Rattle.cuts.specs.Members.{set_of};
ghost use Rattle.plan.specs.Questions.{StrengthAnswer, GroupAnswer, RunIs, RunAnswer};
ghost use Rattle.plan.specs.Tables.{table_cables, closed_cables};

use crate::buffer::has_room;
use crate::grading::Ruled;
use crate::group::{count_of, group_of, write_bytes};
use crate::list::listed;
use crate::plan::Closed;
use crate::strength::strength_of;
use crate::table::Table;
use cuts::devices::Devices;
use forest::bottleneck::poorest;
use forest::grade::Grade;
use forest::several::one_of_several;
use forest::yardstick::Yardstick;
use houses::house::House;
use network::refusal::Refusal;

// The best grade whose cables join the devices; none where all cables together do not join them.
fn poorest_run<Y: Yardstick>(table: &Table, yardstick: &Y, devices: &Devices) -> Option<Y::Grade>
    requires { DeviceSet (set_of devices.now) }
    ensures { RunIs Y.Grade.Grade.over Y.Yardstick.graded (table_cables table.now) (set_of devices.now) result }
{
    poorest(&Ruled { table, yardstick }, devices)
}

impl<H: House> Closed<H> {
    /// The strength of the list: the highest strength of a set of devices that contains it. Absent where the list is apart.
    /// Refused where the list is empty, has more than 128 entries, or names a number above 127.
    /// It costs one look at each cable for each cable of a spanning forest.
    pub fn strength(&self, list: &[u8]) -> Result<Option<u16>, Refusal>
        ensures { StrengthAnswer (closed_cables self.now) list.now result }
    {
        let devices = listed(list)?;
        Ok(strength_of(&self.table, &devices))
    }

    /// The strength of the list and the size of its group: the largest set of that strength that contains the list. Byte d
    /// of the buffer becomes 1 for a device d of the group, else 0, for the 128 devices, and later bytes stay. Absent, with
    /// 128 zeros, where the list is apart. Refused, with nothing written, where the list is empty, has more than 128
    /// entries, or names a number above 127, or the buffer has fewer than 128 bytes.
    /// It costs what `strength` costs, and one look at each cable more.
    pub fn group(&self, list: &[u8], buffer: &mut [u8]) -> Result<Option<(u16, u8)>, Refusal>
        ensures { GroupAnswer (closed_cables self.now) list.now buffer.old result buffer.new }
    {
        let devices = listed(list)?;
        has_room(buffer)?;
        let Some(strength) = strength_of(&self.table, &devices) else {
            write_bytes(&Devices::none(), buffer);
            return Ok(None);
        };
        let group = group_of(&self.table, &devices, strength);
        write_bytes(&group, buffer);
        Ok(Some((strength, count_of(&group))))
    }

    /// The poorest cable that the list needs, by the yardstick's grade of its run: the best grade whose cables, with all
    /// better ones, join the listed devices. Absent where all cables together do not join them. Refused where the list is
    /// empty, has more than 128 entries, names a number above 127, or names fewer than two different devices.
    /// It costs one look at each cable for each cable of a spanning forest.
    pub fn run<Y: Yardstick>(&self, list: &[u8], yardstick: &Y) -> Result<Option<Y::Grade>, Refusal>
        ensures { RunAnswer Y.Grade.Grade.over Y.Yardstick.graded (closed_cables self.now) list.now result }
    {
        let devices = listed(list)?;
        one_of_several(&devices).ok_or(Refusal::TooFewDevices)?;
        Ok(poorest_run(&self.table, yardstick, &devices))
    }
}
