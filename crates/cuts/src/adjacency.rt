ghost use Rattle.std.specs.Prelude.{◌≡◌, ℕ, ◌<◌, ◌≤◌, ◌==◌, length};
ghost use Rattle.cuts.specs.Members.{set_of};
ghost use Rattle.cuts.specs.Links.{label, Ends};
ghost use Rattle.cuts.specs.Phases.{links_in};
ghost use Rattle.cuts.specs.Groups.{Numbered, Lightest, Coarser, Weakest};

use crate::devices::Devices;
use crate::finder::{Cut, Finder};
use crate::labels::labelled;
use crate::rig::Rig;
use fusion::shrink;
use grouping::{first_reps, number, relabel};
use groups::Groups;
use links::{Links, links_of};
use phase::Phase;
use weights::{all_degrees, lightest};

mod fusion;
mod grouping;
mod groups;
mod link;
mod links;
mod order;
mod phase;
mod weights;

/// A group that the fewest links lead from, and how many do.
#[derive(Clone, Copy)]
struct Light {
    label: u8,
    degree: u16,
}

// Links and groups, and no `Phase`: that asks for the best split so far, which is found from these.

fn lightest_group(links: &Links, groups: &Groups) -> Light
    requires { 2 ≤ length groups.now.reps.items }
    ensures { Lightest (label groups.now.labels) links.now.list.items (length groups.now.reps.items) result.label result.degree }
{
    let degrees = all_degrees(links, groups);
    let label = lightest(&degrees, groups.len());
    Light {
        label,
        degree: degrees[label as usize],
    }
}

/// The split of a group.
fn split_of(groups: &Groups, light: Light) -> Cut
    ensures crossings { result.crossings ≡ light.degree }
    ensures side { (d : ℕ) → d < 128 → set_of result.side d ≡ (label groups.now.labels d == light.label) }
{
    Cut {
        crossings: light.degree,
        side: labelled(&groups.labels, light.label),
    }
}

/// The groups after a phase: fewer, with no split lost that fewer links than the best cross.
fn coarser(phase: &Phase) -> Groups
    ensures { Coarser (links_in phase.now) phase.now.best phase.now.groups.now result }
{
    let fused = shrink(phase);
    Groups {
        labels: relabel(&phase.groups.labels, &fused.into),
        reps: first_reps(&phase.groups.reps, &fused.firsts),
    }
}

/// A split of the set that the fewest links cross, or one that no more than `floor` do. The groups are its devices, two or more.
fn weakest_split(links: &Links, set: &Devices, mut groups: Groups, floor: u16) -> Cut
    requires ends { Ends (λ d. d) (set_of set.now) links.now.list.items }
    requires numbered { Numbered (set_of set.now) groups.labels groups.reps.items (length groups.reps.items) }
    requires two { 2 ≤ length groups.reps.items }
    ensures { Weakest links.now.list.items (set_of set.now) floor result.crossings (set_of result.side) }
{
    let mut best = split_of(&groups, lightest_group(links, &groups));
    while floor < best.crossings {
        groups = coarser(&Phase {
            links,
            groups: &groups,
            best: best.crossings,
        });
        if groups.len() < 2 {
            return best;
        }
        let light = lightest_group(links, &groups);
        if light.degree < best.crossings {
            best = split_of(&groups, light);
        }
    }
    best
}

/// The Stoer-Wagner way to a least cut: devices are merged, by a maximum adjacency order, until no split is left that
/// could be lesser than the best one seen. A phase costs the square of the groups that are left; most rigs take few.
#[derive(Clone, Copy)]
pub struct MaxAdjacency;

impl Finder for MaxAdjacency {
    fn find(&self, rig: &Rig, set: &Devices, floor: u16) -> Option<Cut> {
        let groups = number(set.flags());
        if groups.len() < 2 {
            return None;
        }
        Some(weakest_split(&links_of(rig, set), set, groups, floor))
    }
}
