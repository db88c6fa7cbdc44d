// How a forest grows.
ghost use Rattle.std.specs.Prelude.{◌≡◌, ℕ, ◌<◌, ◌≤◌, length, slice_index, MatchOption};
ghost use Rattle.forest.specs.Forests.{place_of, Spans, Longer};

use crate::crossing::best_crossing;
use crate::forest::Forest;
use crate::graded::Graded;
use crate::labels::merge;
use cuts::labels::own_labels;

impl Forest {
    /// A forest of no cables.
    fn bare() -> Forest
        ensures { result.count ≡ 0 }
    {
        Forest {
            places: [0; 127],
            count: 0,
        }
    }

    /// Keeps one place more.
    fn keep(&mut self, place: u16)
        requires { self.old.count < 127 }
        ensures { Longer self.old place self.new }
    {
        self.places[self.count as usize] = place;
        self.count += 1;
    }

    /// The places that are kept.
    pub(crate) fn places(&self) -> &[u16]
        ensures len { length result.now ≡ self.now.count }
        ensures each { (j : ℕ) → j < self.now.count → slice_index result.now j ≡ place_of self.now j }
    {
        &self.places[..self.count as usize]
    }

    /// How many cables are kept.
    pub fn count(&self) -> u8
        ensures { result ≡ self.now.count }
    {
        self.count
    }

    /// The place of the k-th cable that is kept, counted from 0, the best first; none past the last.
    pub fn place(&self, k: u8) -> Option<u16>
        ensures { MatchOption result (self.now.count ≤ k) (λ place. (k < self.now.count) × (place ≡ place_of self.now k)) }
    {
        self.places().get(k as usize).copied()
    }
}

/// Grows the forest of the cables: again and again the best cable whose ends are not linked yet.
pub fn grow<E: Graded>(edges: &E) -> Forest
    ensures { Spans E.Grade.Grade.over (E.Graded.cables edges.now) (E.Graded.grade edges.now) (place_of result) result.count }
{
    let mut forest = Forest::bare();
    let mut labels = own_labels();
    while let Some(best) = best_crossing(edges, &labels) {
        merge(&mut labels, best.ends);
        forest.keep(best.place);
    }
    forest
}
