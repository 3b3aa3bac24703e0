//! What all boards share: a board is a coupling over a chest below, and the coupling says what it wants below.
#![tactic(auto)]

pub mod board;
pub mod coupling;
pub mod fittable;
pub mod key_desk;
