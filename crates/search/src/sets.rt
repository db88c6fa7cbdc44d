// Strengths by a search through all sets and all their splits.
use crate::small::Small;

// Whether the cable belongs to the set and joins the side to the rest of it.
fn crosses(cable: &Small, set: u8, side: u8) -> bool {
    let ends = cable.ends;
    ends & set == ends && ends & side != 0 && ends & side != ends
}

// How many cables of the set cross the split.
fn crossings(rig: &[Small], set: u8, side: u8) -> usize {
    rig.iter().filter(|cable| crosses(cable, set, side)).count()
}

// The fewest cables that cross a split of the set; none where it has no split. The sides are all sets within it, but none and
// all of it.
fn strength(rig: &[Small], set: u8) -> Option<usize> {
    (1..set)
        .filter(|side| *side & set == *side)
        .map(|side| crossings(rig, set, side))
        .min()
}

// The devices of all cables.
fn devices_of(rig: &[Small]) -> u8 {
    rig.iter().fold(0, |devices, cable| devices | cable.ends)
}

/// The highest strength of the sets of the rig's devices that contain both ends.
pub fn highest_strength(rig: &[Small], ends: u8) -> usize {
    let devices = devices_of(rig);
    (1..=devices)
        .filter(|set| *set & devices == *set && *set & ends == ends)
        .filter_map(|set| strength(rig, set))
        .max()
        .unwrap_or(0)
}
