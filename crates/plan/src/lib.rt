// A plan: a house's cables and the tour's, open while the tour is laid, closed while it is questioned.
//   plan, states, state     its two states, and the calls that lead from one to the other
//   tour, tally             the tour's cables, and how they are laid and lifted
//   table, rows             the cables of a closed plan with their marks
//   gathering, marking      how closing makes them: rigs from houses and records, and their marks
//   list, questions         lists of devices: strength, group and run, from what strength, group and grading find
//   sheets                  cut sheets: cut and judge, from gathering and judging
#![tactic(auto)]

mod buffer;
mod gathering;
mod grading;
mod group;
mod judging;
mod list;
mod marking;
pub mod plan;
pub mod questions;
mod rows;
pub mod sheets;
pub mod state;
pub mod states;
mod strength;
pub mod table;
pub mod tally;
pub mod tour;
