ghost use Rattle.std.specs.Prelude.{◌≡◌, []};
ghost use Rattle.plan.specs.Tally.{laid, place, lay_answer, lay_after, lift_answer, lift_after};

use crate::tour::Tour;
use arrayvec::ArrayVec;
use network::cable::{Cable, TourCable};
use network::refusal::Refusal;

// The place of the cable with the tag.
fn find(rows: &[TourCable], tag: u16) -> Option<usize>
    ensures { result ≡ place rows.now tag }
{
    rows.iter().position(|row| row.tag == tag)
}

impl Tour {
    pub(crate) fn empty() -> Tour
        ensures { laid result ≡ [] }
    {
        Tour {
            rows: ArrayVec::new(),
        }
    }

    pub(crate) fn lay(&mut self, tag: u16, cable: Cable) -> Result<u16, Refusal>
        ensures answer { result ≡ lay_answer (laid self.old) tag cable }
        ensures after { laid self.new ≡ lay_after (laid self.old) tag cable }
    {
        cable.check()?;
        if find(self.rows.as_slice(), tag).is_some() {
            return Err(Refusal::TagTaken);
        }
        // A test, and no `try_push(..).map_err(..)?`: the rules of a lay stand one below the other, and a full tour is the last.
        if self.rows.is_full() {
            return Err(Refusal::TourFull);
        }
        self.rows.push(TourCable { tag, cable });
        Ok(self.rows.len() as u16)
    }

    pub(crate) fn lift(&mut self, tag: u16) -> Result<u16, Refusal>
        ensures answer { result ≡ lift_answer (laid self.old) tag }
        ensures after { laid self.new ≡ lift_after (laid self.old) tag }
    {
        let place = find(self.rows.as_slice(), tag).ok_or(Refusal::TagMissing)?;
        self.rows.remove(place);
        Ok(self.rows.len() as u16)
    }
}
