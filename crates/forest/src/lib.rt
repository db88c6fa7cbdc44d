// One text of the spanning forest, and of the poorest cable that a set of devices needs, for every grade of cables.
//   grade, yardstick    what tells a good cable from a poor one, and how runs are graded
//   graded              cables in order, each with a grade
//   forest, growth      a forest, and how it grows
//   bottleneck          the poorest cable that a set of devices needs
//   reach               what the cables of a grade link
//   several             whether a set has two devices or more
#![tactic(auto)]

pub mod bottleneck;
mod crossing;
mod ends;
pub mod forest;
pub mod grade;
pub mod graded;
pub mod growth;
mod labels;
pub mod reach;
pub mod several;
pub mod yardstick;
