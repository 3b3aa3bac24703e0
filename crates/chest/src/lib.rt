//! What a chest is: its faults, its meaning and the calls that every chest answers.
#![tactic(auto)]

pub mod chest;
pub mod fault;
pub mod laws;
pub mod place;
pub mod positions;
pub mod reaches;
pub mod sender;
pub mod setting;
pub mod walks;
