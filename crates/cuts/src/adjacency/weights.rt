ghost use Rattle.std.specs.Prelude.{◌≡◌, ℕ, ◌+◌, ◌<◌, ◌≤◌, ◌&&◌, ◌==◌, nat_eq, slice_index};
ghost use Rattle.cuts.specs.Links.{one, label, joins, cell, Matrix, spans, degree};

use crate::adjacency::groups::Groups;
use crate::adjacency::link::Link;
use crate::adjacency::links::Links;

// Rooms and what a matrix counts are required, and no type says them: while it is filled a matrix counts the links so far, and `order`
// and `pair_up` have a full one from the one call in `shrink`.

/// Adds one at column v of a row.
fn bump(row: &mut [u16; 128], v: u8)
    requires column { v < 128 }
    requires room { slice_index row.old v ≤ 1024 }
    ensures { (u : ℕ) → u < 128 → slice_index row.new u ≡ slice_index row.old u + one (u == v) }
{
    row[v as usize] += 1;
}

// The two labels of a link are looked up here, in `add_degree` and in `pair_up`: a function would have to say of its pair what `Groups` says of a label.

/// Counts a link into the matrix.
fn add_link(l: &Link, groups: &Groups, m: &mut [[u16; 128]; 128])
    requires room { (y u : ℕ) → y < 128 → u < 128 → cell m.old y u ≤ 1000 }
    ensures { (y u : ℕ) → y < 128 → u < 128 → cell m.new y u ≡ cell m.old y u + one (joins (label groups.now.labels) y u l.now) }
{
    let a = groups.labels[l.a as usize];
    let b = groups.labels[l.b as usize];
    bump(&mut m[a as usize], b);
    if a != b {
        bump(&mut m[b as usize], a);
    }
}

/// Counts the links between each two labels into a matrix of zeros, 128 rows of 128.
pub fn add_links(links: &Links, groups: &Groups, m: &mut [[u16; 128]; 128])
    requires empty { (y u : ℕ) → y < 128 → u < 128 → cell m.old y u ≡ 0 }
    ensures { Matrix (label groups.now.labels) links.now.list.items m.new }
{
    for l in links.list.as_slice() {
        add_link(l, groups, m);
    }
}

/// Adds row x of the matrix to the weights.
pub fn add_row(m: &[[u16; 128]; 128], x: u8, w: &mut [u16; 128])
    requires row { x < 128 }
    requires few { (v : ℕ) → v < 128 → cell m.now x v ≤ 512 }
    requires room { (v : ℕ) → v < 128 → slice_index w.old v ≤ 4096 }
    ensures { (v : ℕ) → v < 128 → slice_index w.new v ≡ slice_index w.old v + cell m.now x v }
{
    // By index: of a loop over `iter_mut().zip(..)` a proof knows nothing of what was written.
    for v in 0..128usize {
        w[v] += m[x as usize][v];
    }
}

/// Counts a link into the degrees of what it joins.
fn add_degree(l: &Link, groups: &Groups, degrees: &mut [u16; 128])
    requires room { (v : ℕ) → v < 128 → slice_index degrees.old v ≤ 1024 }
    ensures { (v : ℕ) → v < 128 → slice_index degrees.new v ≡ slice_index degrees.old v + one (spans (λ d. nat_eq (label groups.now.labels d) v) l.now) }
{
    let a = groups.labels[l.a as usize];
    let b = groups.labels[l.b as usize];
    if a != b {
        degrees[a as usize] += 1;
        degrees[b as usize] += 1;
    }
}

/// The degree of each label.
pub fn all_degrees(links: &Links, groups: &Groups) -> [u16; 128]
    ensures { (v : ℕ) → v < 128 → slice_index result v ≡ degree (label groups.now.labels) links.now.list.items v }
{
    let mut degrees = [0u16; 128];
    for l in links.list.as_slice() {
        add_degree(l, groups, &mut degrees);
    }
    degrees
}

/// One of the least of the first n.
pub fn lightest(w: &[u16; 128], n: u8) -> u8
    requires some { 1 ≤ n }
    requires fits { n ≤ 128 }
    ensures low { result < n }
    ensures least { (k : ℕ) → k < n → slice_index w.now result ≤ slice_index w.now k }
{
    (0..n).min_by_key(|v| w[*v as usize]).unwrap()
}
