//! What a wire means: where it leads, what wires want below, which wires a board takes, and what a number of ways is. How such a
//! number is kept is not said here.
#![tactic(auto)]

pub mod fault;
pub mod laws;
pub mod lead;
