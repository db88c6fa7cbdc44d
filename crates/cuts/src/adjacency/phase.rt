ghost use Rattle.std.specs.Prelude.{ℕ, ◌<◌, ◌≤◌, length};
ghost use Rattle.cuts.specs.Links.{label, degree};

use crate::adjacency::groups::Groups;
use crate::adjacency::links::Links;

/// A phase of the method: the links, the groups that the devices are in, and how many links cross the best split so far.
/// No group has fewer links that lead from it.
#[derive(Clone, Copy)]
pub struct Phase<'a> {
    pub links: &'a Links,
    pub groups: &'a Groups,
    pub best: u16,
    ghost two: { 2 ≤ length groups.now.reps.items },
    ghost least: { (k : ℕ) → k < length groups.now.reps.items → best ≤ degree (label groups.now.labels) links.now.list.items k },
}
