ghost use Rattle.std.specs.Prelude.{◌≡◌, ◌≤◌, length, Some, MatchOption};
ghost use Rattle.std.specs.List.{slice_get};
ghost use Rattle.network.specs.Lists.{Mark};
ghost use Rattle.plan.specs.Tables.{closed_cables, marked_at};
ghost use Rattle.plan.specs.States.{Begins, Lays, Lifts, Closes, Reopens};

use crate::marking::marked;
use crate::plan::{Closed, Open};
use crate::tour::Tour;
use houses::house::House;
use network::cable::{Cable, MarkedCable, Run};
use network::refusal::Refusal;

impl<H: House> Open<H> {
    /// A plan over a house, with no tour cable.
    pub fn begin(house: H) -> Self
        ensures { Begins house result }
    {
        Open {
            house,
            tour: Tour::empty(),
        }
    }

    // A tag, two ends and a run, and no `TourCable`: the call is public, and stays as it was promised.

    /// Lays a tour cable after the others and answers the tour's new count. Refused, with nothing changed, where an end is no
    /// device, both ends are the same, the run is out of range, the tag is in the tour already, or the tour has 256 cables.
    pub fn lay(&mut self, tag: u16, a: u8, b: u8, run: Run) -> Result<u16, Refusal>
        ensures { Lays self.old tag a b run result self.new }
    {
        self.tour.lay(tag, Cable { a, b, run })
    }

    /// Lifts the tour cable with the tag, keeps the order of the rest and answers the new count. Refused, with nothing
    /// changed, where no tour cable has the tag.
    pub fn lift(&mut self, tag: u16) -> Result<u16, Refusal>
        ensures { Lifts self.old tag result self.new }
    {
        self.tour.lift(tag)
    }

    /// Closes the plan, always: gathers the cables present and marks each.
    pub fn close(self) -> Closed<H>
        ensures { Closes H.House.cables self result }
    {
        let Open { house, tour } = self;
        let table = marked(&house, &tour);
        Closed { house, tour, table }
    }
}

impl<H: House> Closed<H> {
    /// The open plan with the same house and the same tour.
    pub fn reopen(self) -> Open<H>
        ensures { Reopens self result }
    {
        let Closed { house, tour, table } = self;
        drop(table);
        Open { house, tour }
    }

    /// How many cables are present.
    pub fn count(&self) -> u16
        ensures { result ≡ length (closed_cables self.now) }
    {
        self.table.len()
    }

    /// The cable at a place with its mark, absent past the last. The mark is the strength of the list of the cable's two ends.
    pub fn mark(&self, place: u16) -> Option<MarkedCable>
        ensures answer { result ≡ marked_at (closed_cables self.now) place }
        ensures mark { MatchOption result (length (closed_cables self.now) ≤ place) (λ m. (slice_get (closed_cables self.now) place ≡ Some m.cable) × Mark (closed_cables self.now) m.cable m.mark) }
    {
        self.table.row(place)
    }
}
