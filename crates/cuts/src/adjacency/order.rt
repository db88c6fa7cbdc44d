ghost use Rattle.std.specs.Prelude.{◌≡◌, ℕ, ◌<◌, ◌≤◌, MatchOption, ◌≢◌, slice_index};
ghost use Rattle.cuts.specs.Links.{Matrix};
ghost use Rattle.cuts.specs.Phases.{label_in, links_in, count_in};
ghost use Rattle.cuts.specs.Orders.{Most, Heaviest, under, labels_of, weights_of, Ordered};

use crate::adjacency::phase::Phase;
use crate::adjacency::weights::add_row;
use arrayvec::ArrayVec;

// The first n of a row, here, in `lightest` and in `roots`, and no slice: the words of a phase speak of the labels below n.

/// The greatest of the first n.
fn most(w: &[u16; 128], n: u8) -> Option<u16>
    requires { n ≤ 128 }
    ensures { MatchOption result (n ≡ 0) (Most w.now n) }
{
    w[..n as usize].iter().copied().max()
}

/// The first of the first n that is k.
fn first_of(w: &[u16; 128], n: u8, k: u16) -> Option<u8>
    requires { n ≤ 128 }
    ensures { MatchOption result ((v : ℕ) → v < n → slice_index w.now v ≢ k) (λ m. (m < n) × (slice_index w.now m ≡ k)) }
{
    w[..n as usize]
        .iter()
        .position(|x| *x == k)
        .map(|v| v as u8)
}

/// A greatest of the first n, if it is 2048 or more.
fn heaviest(w: &[u16; 128], n: u8) -> Option<u8>
    requires { n ≤ 128 }
    ensures { Heaviest w.now n result }
{
    let k = most(w, n).filter(|k| *k >= 2048)?;
    first_of(w, n, k)
}

// A type beside `Light`, which is a group and what leads from it: a weight when placed is no degree.

/// A label, and what it weighed when it was placed.
#[derive(Clone, Copy, Default)]
pub struct Place {
    pub label: u8,
    pub weight: u16,
}

/// A maximum adjacency order of the labels: each in its turn has the most links to those placed before it.
/// A label that is not placed yet has 2048 above its weight, so that one search for the greatest finds it.
pub fn order(phase: &Phase, m: &[[u16; 128]; 128]) -> ArrayVec<Place, 128>
    requires { Matrix (label_in phase.now) (links_in phase.now) m.now }
    ensures { Ordered (label_in phase.now) (links_in phase.now) (under (count_in phase.now)) (labels_of result.items) (weights_of result.items) (count_in phase.now) }
{
    let n = phase.groups.len();
    // Packed for speed: an order of 128 labels takes 6 us, with flags beside the weights 20, and with weights that are options 70.
    let mut w = [2048u16; 128];
    let mut places = ArrayVec::new();
    while let Some(label) = heaviest(&w, n) {
        places.push(Place {
            label,
            weight: w[label as usize] - 2048,
        });
        w[label as usize] = 0;
        add_row(m, label, &mut w);
    }
    places
}
