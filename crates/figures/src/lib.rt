// Known figures: small rigs whose answers can be worked out by hand, each asked through the calls of a plan and proved to come out.
//   rigs       the rigs as house sheets, and plans over them
//   told       what a plan tells of a list
//   lists      strengths and groups
//   cliques    strengths and groups over the life of a plan
//   runs       the poorest cable that a list needs
//   verdicts   cut sheets judged
//   rings      the cables of a ring
#![tactic(auto)]

pub mod cliques;
pub mod lists;
mod rigs;
pub mod rings;
pub mod runs;
pub mod told;
pub mod verdicts;
