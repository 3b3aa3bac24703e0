//! Reads a MIDI line, by MIDI 1.0, and hands out each channel message as its last byte arrives.
#![tactic(auto)]

mod laws;
mod message;
mod reader;
mod state;

pub use laws::{notes_law, reading_law};
pub use message::Message;
pub use reader::Reader;
