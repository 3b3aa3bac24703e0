//! The whole relay: a book's record becomes a stack, messages of the MIDI line become calls, and answers become lines of a
//! listing.
#![tactic(auto)]

pub mod action;
pub mod assembly;
pub mod laws;
pub mod line;
pub mod opening;
pub mod out_of_memory;
pub mod refusal;
pub mod response;
pub mod stack;
mod tables;
