// The best cable whose ends have different labels.
ghost use Rattle.std.specs.Prelude.{◌≡◌, ◌≤◌, length, MatchOption};
ghost use Rattle.forest.specs.Crossings.{FoundAt, Best, Passed, Improves, Next, reached_by, beyond};

// Clauses here name what a bound's type has in full, `E.Grade.Grade.over` and so on: a definition of specs/ has no bound to take it from.
// Edges and labels go on side by side, and no struct of them: edges are a plan's, and labels a growth's that borrows them at each step.

use crate::ends::Ends;
use crate::grade::Grade;
use crate::graded::Graded;

/// A cable by its place, with its ends and its grade.
#[derive(Clone, Copy)]
pub(crate) struct Found<G> {
    pub(crate) place: u16,
    pub(crate) ends: Ends,
    pub(crate) grade: G,
}

/// The cable at a place; none past the last.
pub(crate) fn found_at<E: Graded>(edges: &E, place: u16) -> Option<Found<E::Grade>>
    ensures { FoundAt (E.Graded.cables edges.now) (E.Graded.grade edges.now) place result }
{
    let (a, b) = edges.ends(place)?;
    let grade = edges.grade_at(place)?;
    Some(Found {
        place,
        ends: Ends { a, b },
        grade,
    })
}

/// Whether the grade of the best so far reaches this one.
fn reached<G: Grade>(best: Option<Found<G>>, grade: G) -> bool
    ensures { result ≡ reached_by G.Grade.over best grade }
{
    best.is_some_and(|found| found.grade.reaches(grade))
}

/// The cable at a place, if it crosses and the best before it does not reach it.
fn improved_at<E: Graded>(
    edges: &E,
    labels: &[u8; 128],
    best: Option<Found<E::Grade>>,
    place: u16,
) -> Option<Found<E::Grade>>
    ensures { MatchOption result (Passed E.Grade.Grade.over (E.Graded.cables edges.now) (E.Graded.grade edges.now) labels.now best place) (Improves E.Grade.Grade.over (E.Graded.cables edges.now) (E.Graded.grade edges.now) labels.now best place) }
{
    let found = found_at(edges, place)?;
    // One test that seldom passes costs less than two that are hard to foretell: `|`, not `||`, and an early end, no `filter`.
    if (labels[found.ends.a as usize] == labels[found.ends.b as usize])
        | reached(best, found.grade)
    {
        return None;
    }
    Some(found)
}

/// The place past the best so far.
fn past<G: Grade>(best: Option<Found<G>>) -> u16
    requires { beyond best ≤ 512 }
    ensures { result ≡ beyond best }
{
    best.map_or(0, |found| found.place + 1)
}

/// The first cable past the best so far that crosses and that the best does not reach.
fn improved<E: Graded>(
    edges: &E,
    labels: &[u8; 128],
    best: Option<Found<E::Grade>>,
) -> Option<Found<E::Grade>>
    requires { Best E.Grade.Grade.over (E.Graded.cables edges.now) (E.Graded.grade edges.now) labels.now (beyond best) best }
    ensures { Next E.Grade.Grade.over (E.Graded.cables edges.now) (E.Graded.grade edges.now) labels.now best result }
{
    (past(best)..edges.count()).find_map(|place| improved_at(edges, labels, best, place))
}

/// The best cable whose ends have different labels; none where none crosses.
pub(crate) fn best_crossing<E: Graded>(edges: &E, labels: &[u8; 128]) -> Option<Found<E::Grade>>
    ensures { Best E.Grade.Grade.over (E.Graded.cables edges.now) (E.Graded.grade edges.now) labels.now (length (E.Graded.cables edges.now)) result }
{
    let mut best = improved(edges, labels, None)?;
    while let Some(found) = improved(edges, labels, Some(best)) {
        best = found;
    }
    Some(best)
}
