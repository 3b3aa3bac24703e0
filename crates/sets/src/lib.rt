//! Sets of numbers below 128, a bit for each: the keys of a row that are set, or the wires of a board that are live. A
//! board walks the numbers of a set, and not all that there could be.
#![tactic(auto)]

mod number_set;
mod rest;
mod word;

pub use number_set::NumberSet;
pub use rest::Rest;
