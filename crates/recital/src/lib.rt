//! The parts put together: an organ that is opened from a book and played from a MIDI line, and one call for both.
#![tactic(auto)]

mod laws;
mod performing;
mod recital;

pub use laws::listing_law;
pub use performing::perform;
pub use recital::{MagnetRecital, Recital};
