ghost use Rattle.std.specs.Prelude.{◌≡◌, ℕ, ◌<◌, length, slice_index};
ghost use Rattle.cuts.specs.Links.{flagged};
ghost use Rattle.cuts.specs.Groups.{Numbered};

use crate::adjacency::groups::Groups;
use arrayvec::ArrayVec;

/// Each flagged number a group of its own.
pub fn number(inside: &[bool; 128]) -> Groups
    ensures { Numbered (flagged inside.now) result.labels result.reps.items (length result.reps.items) }
{
    let mut labels = [0u8; 128];
    let mut reps = ArrayVec::new();
    for (d, is_in) in inside.iter().enumerate() {
        if *is_in {
            labels[d] = reps.len() as u8;
            reps.push(d as u8);
        }
    }
    Groups { labels, reps }
}

/// The labels, each in place of what it becomes.
pub fn relabel(labels: &[u8; 128], into: &[u8; 128]) -> [u8; 128]
    requires { (d : ℕ) → d < 128 → slice_index labels.now d < 128 }
    ensures { (d : ℕ) → d < 128 → slice_index result d ≡ slice_index into.now (slice_index labels.now d) }
{
    let mut out = [0u8; 128];
    // Each label is set by its device: an array's `map` takes thirty times as long.
    for (d, label) in labels.iter().enumerate() {
        out[d] = into[*label as usize];
    }
    out
}

/// A device of each label, from the first label that became it.
pub fn first_reps(reps: &ArrayVec<u8, 128>, firsts: &ArrayVec<u8, 128>) -> ArrayVec<u8, 128>
    requires { (y : ℕ) → y < length firsts.now.items → slice_index firsts.now.items y < length reps.now.items }
    ensures len { length result.items ≡ length firsts.now.items }
    ensures each { (y : ℕ) → y < length firsts.now.items → slice_index result.items y ≡ slice_index reps.now.items (slice_index firsts.now.items y) }
{
    let mut out = ArrayVec::new();
    for first in firsts.as_slice() {
        out.push(reps.as_slice()[*first as usize]);
    }
    out
}
