use crate::plan::{Closed, Open};
use houses::house::House;

/// A plan in one of its two states.
#[derive(Drop)]
pub enum Plan<H: House> {
    Open(Open<H>),
    Closed(Closed<H>),
}
