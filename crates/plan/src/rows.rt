// The rows of a table.
ghost use Rattle.std.specs.Prelude.{◌≡◌, ◌≤◌, length};
ghost use Rattle.std.specs.List.{slice_get};
ghost use Rattle.network.specs.Cables.{Lawful};
ghost use Rattle.cuts.specs.Rigs.{rig_cables};
ghost use Rattle.plan.specs.Rows.{cables_in};
ghost use Rattle.plan.specs.Tables.{rows_of, table_cables};

use crate::gathering::add_all;
use crate::table::Table;
use cuts::rig::Rig;
use network::cable::MarkedCable;

impl Table {
    /// The cables with their marks, in order of their places.
    pub(crate) fn rows(&self) -> &[MarkedCable]
        ensures rows { result.now ≡ rows_of self.now }
        ensures few { length result.now ≤ 512 }
        ensures lawful { Lawful (cables_in result.now) }
    {
        self.rows.as_slice()
    }

    /// How many cables there are.
    pub(crate) fn len(&self) -> u16
        ensures { result ≡ length (table_cables self.now) }
    {
        self.rows.len() as u16
    }

    /// The row at a place; none past the last.
    pub(crate) fn row(&self, place: u16) -> Option<MarkedCable>
        ensures { result ≡ slice_get (rows_of self.now) place }
    {
        // A test by `len`, and no `get`: a walk of the places up to `len` has made it already. With `get` a run question by length
        // takes half as long again.
        (place < self.len()).then(|| self.rows()[place as usize])
    }

    /// The cables as a rig.
    pub(crate) fn rig(&self) -> Rig
        ensures { rig_cables result ≡ table_cables self.now }
    {
        let mut rig = Rig::empty();
        add_all(&mut rig, self.rows());
        rig
    }
}
