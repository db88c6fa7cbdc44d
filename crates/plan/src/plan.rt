use crate::table::Table;
use crate::tour::Tour;
use houses::house::House;

/// A plan that takes tour cables and is asked nothing.
#[derive(Drop)]
pub struct Open<H: House> {
    pub(crate) house: H,
    pub(crate) tour: Tour,
}

// No `impl Model`: what the rules of a question speak of is `closed_cables`, and a model would be a second name of it.

/// A plan that is questioned and does not change.
#[derive(Drop)]
pub struct Closed<H: House> {
    pub(crate) house: H,
    pub(crate) tour: Tour,
    pub(crate) table: Table,
}
