// What a console does with the commands of a script: first the house is set up, then a plan over it is played.
#![tactic(auto)]

pub mod questions;
pub mod reply;
pub mod score;
pub mod setup;
pub mod stage;
pub mod state;
