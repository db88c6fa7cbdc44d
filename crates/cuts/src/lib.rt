// Cuts of a set of devices: a rig of cables, sets, and what finds a split that the fewest cables cross.
#![tactic(auto)]

pub mod adjacency;
pub mod devices;
pub mod finder;
pub mod labels;
pub mod rig;
