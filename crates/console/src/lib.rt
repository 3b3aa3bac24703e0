//! The console: keys, knobs and pistons over any chest, and the law of its record.
#![tactic(auto)]

pub mod call;
pub mod console;
pub mod fault;
mod key_table;
pub mod knob_table;
pub mod piston_table;
pub mod play;
mod walks;
