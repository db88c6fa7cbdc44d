// A plan as it is meant to be used: open while cables are laid, closed while it is asked.
#![tactic(auto)]

ghost use Rattle.std.specs.Prelude.{◌≡◌, ◌+◌, ◌≤◌, true, length, Some, MatchOption};
ghost use Rattle.std.specs.List.{slice_get};
ghost use Rattle.network.specs.Lists.{Mark};
ghost use Rattle.plan.specs.Tables.{closed_cables};
ghost use Rattle.plan.specs.Tests.{buffer_check, Gives};

use houses::house::House;
use houses::ring::Ring;
use network::cable::{MarkedCable, Medium, Run};
use network::refusal::Refusal;
use plan::plan::{Closed, Open};

/// Counts the cables of a ring with one tour cable more, and again after that cable is lifted.
pub fn lay_and_lift(ring: Ring) -> (u16, u16)
    ensures { (result.0 ≡ ring.count + 1) × (result.1 ≡ ring.count) }
{
    // A crate that shows a plan's use shares no names with one that checks its figures.
    let run = Run {
        medium: Medium::Copper,
        length: 5,
    };
    let mut open = Open::begin(ring);
    let _ = open.lay(7, 0, 1, run);
    let closed = open.close();
    let with = closed.count();
    let mut open = closed.reopen();
    let _ = open.lift(7);
    let closed = open.close();
    let without = closed.count();
    (with, without)
}

/// The cable at a place of any house, with its mark where no tour cable is laid: the strength of the list of its two ends over the
/// house's cables. Absent past the last.
pub fn house_mark<H: House + Drop>(house: H, place: u16) -> Option<MarkedCable>
    ensures { MatchOption result (length (H.House.cables house) ≤ place) (λ m. (slice_get (H.House.cables house) place ≡ Some m.cable) × Mark (H.House.cables house) m.cable m.mark) }
{
    let closed = Open::begin(house).close();
    closed.mark(place)
}

// A `bool` in the answer, and no unit: its rule says that the second console accepts, and a refusal is the first console's.

/// One console writes the cut sheet of a list; another, whose plan has the same cables, judges it at the strength answered and accepts.
pub fn second_opinion<H: House, J: House>(
    first: &Closed<H>,
    second: &Closed<J>,
    list: &[u8],
    buffer: &mut [u8],
) -> Result<bool, Refusal>
    ensures { closed_cables first.now ≡ closed_cables second.now → Gives (buffer_check list.now (length buffer.old)) (λ accepted. accepted ≡ true) result }
{
    let strength = first.cut(list, buffer)?;
    let verdict = second.judge(list, strength, &buffer[0..128]);
    Ok(verdict.is_ok())
}
