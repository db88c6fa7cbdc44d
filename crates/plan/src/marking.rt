// What closing a plan does: it gathers the cables present and marks each.
ghost use Rattle.std.specs.Prelude.{◌≡◌, ◌++◌};
ghost use Rattle.network.specs.Marks.{Marks};
ghost use Rattle.cuts.specs.Rigs.{rig_cables};
ghost use Rattle.marks.specs.State.{number};
ghost use Rattle.plan.specs.Rows.{mark_rows};
ghost use Rattle.plan.specs.Tally.{laid, tour_cables};
ghost use Rattle.plan.specs.Tables.{rows_of, table_cables};

use crate::gathering::{add_all, house_rig};
use crate::table::Table;
use crate::tour::Tour;
use arrayvec::ArrayVec;
use cuts::adjacency::MaxAdjacency;
use cuts::rig::Rig;
use houses::house::House;
use marks::mark_all;
use network::cable::MarkedCable;

// The cables of a rig with their marks.
fn tabulate(rig: &Rig, marks: &[u16; 512]) -> Table
    requires { Marks (rig_cables rig.now) (number marks.now) }
    ensures { rows_of result ≡ mark_rows (number marks.now) (rig_cables rig.now) }
{
    let mut rows = ArrayVec::new();
    // With the index, and no `zip` with the marks: a stored cable's index is its place, and a mark is asked for by place.
    for (place, cable) in rig.cables().iter().enumerate() {
        rows.push(MarkedCable {
            cable: *cable,
            mark: marks[place],
        });
    }
    Table { rows }
}

/// The table of the house's cables by place, then the tour's in laying order.
pub(crate) fn marked<H: House>(house: &H, tour: &Tour) -> Table
    ensures { table_cables result ≡ H.House.cables house.now ++ tour_cables (laid tour.now) }
{
    let mut rig = house_rig(house);
    add_all(&mut rig, tour.rows.as_slice());
    let marks = mark_all(&MaxAdjacency, &rig);
    tabulate(&rig, &marks)
}
