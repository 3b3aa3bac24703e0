//! The relay: a coupling that plays the chest below through wires, and counts the ways to each place.
#![tactic(auto)]

mod outlets;
pub mod relay;
mod swing;
mod turn;
mod waiting;
mod ways;
mod wiring;
