ghost use Rattle.std.specs.Prelude.{◌≤◌};
ghost use Rattle.arrayvec.specs.ArrayVec.{array_vec_len};
ghost use Rattle.network.specs.Cables.{Lawful};
ghost use Rattle.plan.specs.Rows.{cables_in, Marked};

use arrayvec::ArrayVec;
use network::cable::MarkedCable;

/// The cables of a closed plan in order of their places, each with its mark: the strength of the list of its two ends.
#[derive(Drop)]
pub struct Table {
    pub(crate) rows: ArrayVec<MarkedCable, 512>,
    ghost few: { array_vec_len rows ≤ 512 },
    ghost lawful: { Lawful (cables_in rows.items) },
    ghost marked: { Marked rows.items },
}
