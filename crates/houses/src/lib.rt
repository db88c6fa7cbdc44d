// Houses: a theatre's own cables, told by a sheet of bytes, by a ring, or by a shift over another house.
#![tactic(auto)]

mod circle;
pub mod house;
pub mod misread;
pub mod records;
pub mod ring;
pub mod sheet;
pub mod shift;
mod walk;
