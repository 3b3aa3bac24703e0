//! Reads the file of an organ's book, for every program that plays or looks at one.
#![tactic(auto)]

mod reading;
mod unreadable;

pub use reading::{MOST_READ, first_bytes, read_book, text_of};
pub use unreadable::Unreadable;
