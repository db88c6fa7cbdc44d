ghost use Rattle.std.specs.Prelude.{◌≡◌, ◌+◌, ◌%◌, ◌<◌, ◌≤◌, List, Ok, Err, MatchResult};
ghost use Rattle.network.specs.Cables.{reach};
ghost use Rattle.houses.specs.Rings.{ring, ring_answer};
ghost use Rattle.houses.specs.RingRules.{few_ring, lawful_ring};

use crate::circle::counted_up;
use crate::house::House;
use network::cable::{Cable, Run};
use network::out_of_range;
use network::refusal::Refusal;

/// A house of cables in a ring: each of 3 to 128 devices, counted up from the first modulo 128, is joined to the next,
/// and the last to the first, all by the same run.
#[derive(Drop)]
pub struct Ring {
    first: u8,
    count: u8,
    run: Run,
    ghost device: { first < 128 },
    ghost least: { 3 ≤ count },
    ghost most: { count ≤ 128 },
    ghost longer: { 1 ≤ run.length },
    ghost shorter: { run.length ≤ reach run.medium },
}

impl Ring {
    /// A ring, or a refusal: the first device out of range, a count outside 3 to 128, a run out of range.
    pub fn new(first: u8, count: u8, run: Run) -> Result<Self, Refusal>
        ensures answer { MatchResult result (λ s. ring_answer first count run ≡ Ok (ring s.first s.count s.run)) (λ e. ring_answer first count run ≡ Err e) }
    {
        if out_of_range(first) {
            return Err(Refusal::DeviceOutOfRange);
        }
        if !(3..=128).contains(&count) {
            return Err(Refusal::RingCount);
        }
        if !run.fits() {
            return Err(Refusal::RunOutOfRange);
        }
        Ok(Ring { first, count, run })
    }
}

impl House for Ring {
    ghost cables = { λ r. ring r.first r.count r.run };

    ghost few = { λ r. few_ring r.first r.count r.run r.most };

    ghost lawful = { λ r. lawful_ring r.first r.count r.run r.least r.most (r.longer, r.shorter) };

    fn count(&self) -> u16 {
        u16::from(self.count)
    }

    fn cable(&self, place: u16) -> Option<Cable> {
        if place >= u16::from(self.count) {
            return None;
        }
        let place = place as u8;
        let next = counted_up(place, 1, self.count);
        Some(Cable {
            a: counted_up(self.first, place, 128),
            b: counted_up(self.first, next, 128),
            run: self.run,
        })
    }
}
