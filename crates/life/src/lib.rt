// The law over every life of a plan, and a call that performs a life.
#![tactic(auto)]

pub mod call;
pub mod law;
pub mod replay;
