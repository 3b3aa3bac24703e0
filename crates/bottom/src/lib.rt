//! The chests at the foot of a stack: one that works magnets, and one that sends MIDI.
#![tactic(auto)]

mod catch_up;
pub mod fault;
mod foot;
pub mod laws;
pub mod magnet_chest;
pub mod midi_chest;
mod pipe_table;
