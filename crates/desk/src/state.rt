/// A plan in one of its two states, as the console plays commands on it.
pub use plan::state::Plan;
