// Cut sheets of a closed plan: a figure that another console can judge.
ghost use Rattle.plan.specs.Tables.{closed_cables};
ghost use Rattle.plan.specs.Questions.{CutAnswer};
ghost use Rattle.plan.specs.Judging.{Judges, OwnAccepted};

use crate::buffer::{has_room, write_first};
use crate::judging::{first_fault, parts_told};
use crate::list::listed;
use crate::plan::Closed;
use cuts::adjacency::MaxAdjacency;
use cutsheets::own_sheet;
use houses::house::House;
use network::refusal::Refusal;

impl<H: House> Closed<H> {
    // A plain strength, 0 for apart, and no `Option`: a cut of a list that is apart has a sheet too, good at 0.

    /// Writes a cut sheet of the list into the first 128 bytes of the buffer and answers the list's strength, 0 for apart. The sheet is good
    /// for the list at that strength, so a judge over the same cables accepts it; which good sheet it is, is left open. Refused, with
    /// the buffer left as it is, where the list is empty, has more than 128 entries or names no device, or the buffer has fewer than
    /// 128 bytes. It costs at most 127 least cuts.
    pub fn cut(&self, list: &[u8], buffer: &mut [u8]) -> Result<u16, Refusal>
        ensures answer { CutAnswer (closed_cables self.now) list.now buffer.old result buffer.new }
        ensures accepted { OwnAccepted (closed_cables self.now) list.now result buffer.new }
    {
        let devices = listed(list)?;
        has_room(buffer)?;
        let sheet = own_sheet(&MaxAdjacency, &self.table.rig(), &devices);
        write_first(buffer, &sheet.parts);
        Ok(sheet.strength)
    }

    /// Accepts a cut sheet that is good for the list at `k`: then no set that contains the list is stronger than `k`, whoever drew the
    /// sheet. Refused where the list is empty, has more than 128 entries or names no device, where the sheet is not 128 bytes of 127 at
    /// most, and else with the first fault, the parts taken in rising number: a part leads out with more than `k` cables, or it is
    /// several devices and holds the whole list. It costs one look at each cable for each part.
    pub fn judge(&self, list: &[u8], k: u16, sheet: &[u8]) -> Result<(), Refusal>
        ensures { Judges (closed_cables self.now) list.now k sheet.now result }
    {
        let devices = listed(list)?;
        let parts = parts_told(sheet)?;
        // A match, and no `map_or(Ok(()), Err)`, which hides that a fault is the refusal.
        match first_fault(&self.table, &devices, k, parts) {
            Some(fault) => Err(fault),
            None => Ok(()),
        }
    }
}
