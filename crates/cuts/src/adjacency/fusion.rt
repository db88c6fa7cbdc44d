ghost use Rattle.std.specs.Prelude.{◌≡◌, ℕ, ◌-◌, ◌<◌, ◌≤◌, ◌&&◌, length, ◌==◌, nat_lt, slice_index};
ghost use Rattle.cuts.specs.Links.{label, cell, degree, flagged, Matrix};
ghost use Rattle.cuts.specs.Phases.{label_in, links_in, count_in};
ghost use Rattle.cuts.specs.Orders.{under, labels_of, weights_of, Ordered};
ghost use Rattle.cuts.specs.Fusions.{Fused, pairs, Moved};

use crate::adjacency::grouping::{number, relabel};
use crate::adjacency::order::{Place, order};
use crate::adjacency::phase::Phase;
use crate::adjacency::weights::{add_links, all_degrees};
use crate::labels::own_labels;
use arrayvec::ArrayVec;

// A type of its own beside `Groups`, which promises a label below the count for every device: `into` promises it for the labels of a phase alone.

/// What each label becomes, and the first label that became each.
#[derive(Drop)]
pub struct Fusion {
    pub into: [u8; 128],
    pub firsts: ArrayVec<u8, 128>,
}

/// Fuses each label that weighed as much as the best split or more with the one placed before it.
fn fuse(phase: &Phase, order: &ArrayVec<Place, 128>) -> Fusion
    requires { Ordered (label_in phase.now) (links_in phase.now) (under (count_in phase.now)) (labels_of order.now.items) (weights_of order.now.items) (count_in phase.now) }
    ensures { Fused (label_in phase.now) (links_in phase.now) (count_in phase.now) phase.now.best (slice_index (weights_of order.now.items) (count_in phase.now - 1)) result.into result.firsts.items (length result.firsts.items) }
{
    let mut into = [0u8; 128];
    let mut firsts = ArrayVec::new();
    for place in order.as_slice() {
        if firsts.is_empty() || place.weight < phase.best {
            firsts.push(place.label);
        }
        into[place.label as usize] = firsts.len() as u8 - 1;
    }
    Fusion { into, firsts }
}

/// Whether neither label is used yet, and half of the first one's links go to the second.
fn may_pair(m: &[[u16; 128]; 128], degrees: &[u16; 128], used: &[bool; 128], a: u8, b: u8) -> bool
    requires low { a < 128 }
    requires high { b < 128 }
    requires few { cell m.now a b ≤ 512 }
    ensures { result ≡ pairs m.now degrees.now used.now a b }
{
    let k = m[a as usize][b as usize];
    a != b && !used[a as usize] && !used[b as usize] && degrees[a as usize] <= k + k
}

/// Moves labels to others that half of their links go to.
fn pair_up(phase: &Phase, m: &[[u16; 128]; 128]) -> [u8; 128]
    requires { Matrix (label_in phase.now) (links_in phase.now) m.now }
    ensures moved { Moved (label_in phase.now) (links_in phase.now) (count_in phase.now) phase.now.best result }
    ensures low { (x : ℕ) → x < 128 → slice_index result x < 128 }
{
    let labels = &phase.groups.labels;
    let degrees = all_degrees(phase.links, phase.groups);
    // `used` beside `to`, and no `Option`: a label that another is moved to is used and not moved.
    let mut to = own_labels();
    let mut used = [false; 128];
    for l in phase.links.list.as_slice() {
        let a = labels[l.a as usize];
        let b = labels[l.b as usize];
        if may_pair(m, &degrees, &used, a, b) {
            to[a as usize] = b;
            used[a as usize] = true;
            used[b as usize] = true;
        }
    }
    to
}

/// The labels below n that are not moved.
fn roots(to: &[u8; 128], n: u8) -> [bool; 128]
    requires { n ≤ 128 }
    ensures { (d : ℕ) → d < 128 → flagged result d ≡ (nat_lt d n && slice_index to.now d == d) }
{
    let mut out = [false; 128];
    // Each flag is set by its label, as in `labelled`: of a loop over `iter_mut().zip(..)` a proof knows nothing of what was written.
    for (d, label) in to.iter().enumerate() {
        out[d] = d < n as usize && *label as usize == d;
    }
    out
}

/// Fewer labels, with no split lost that fewer links than the best cross. An order fuses most rigs fast; where it leaves
/// more than half of the labels, as in a ring, pairing may leave fewer.
pub fn shrink(phase: &Phase) -> Fusion
    ensures { Fused (label_in phase.now) (links_in phase.now) (count_in phase.now) phase.now.best phase.now.best result.into result.firsts.items (length result.firsts.items) }
{
    let n = phase.groups.len();
    let mut m = [[0u16; 128]; 128];
    add_links(phase.links, phase.groups, &mut m);
    let fused = fuse(phase, &order(phase, &m));
    if fused.firsts.len() <= n as usize / 2 {
        return fused;
    }
    let to = pair_up(phase, &m);
    let paired = number(&roots(&to, n));
    if paired.reps.len() >= fused.firsts.len() {
        return fused;
    }
    Fusion {
        into: relabel(&to, &paired.labels),
        firsts: paired.reps,
    }
}
