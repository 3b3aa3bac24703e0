//! Reads organ books: the text in which a fitter describes an organ, and the record that it comes to.
#![tactic(auto)]

mod board;
mod book;
mod book_fault;
mod classes;
mod form;
mod head;
mod laws;
mod limits;
mod numerals;
mod parts;
mod passage;
mod tables;
mod token;
mod unknown;

pub use board::Board;
pub use book::{Book, BookWire};
pub use book_fault::BookFault;
pub use fittings::{Knob, Scope, Wire};
pub use laws::{forms_law, limits_law};
pub use limits::{KNOBS, MOST_BYTES, MOST_WIRES, PISTONS, ROWS};
pub use unknown::Unknown;
