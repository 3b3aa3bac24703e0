//! Why the program stops before the end of its input.
ghost use Rattle.pipes.specs.Stopped.{words_of};

use book_file::Unreadable;
use std::{fmt, io};

/// Each case ends the program with status 2.
#[derive(Debug, Drop)]
pub enum Stopped {
    /// there is no book to play
    Book(Unreadable),
    /// there is no memory for the listing
    Memory,
    /// the input gives no more
    Input(io::Error),
    /// the output takes no more
    Output(io::Error),
}

impl fmt::Display for Stopped {
    ghost output = { words_of };

    fn fmt<W: fmt::Write>(&self, f: &mut fmt::Formatter<W>) -> fmt::Result {
        match self {
            Stopped::Book(unreadable) => write!(f, "{unreadable}"),
            Stopped::Memory => f.write_str(
                "pipes: there is no memory for the listing; end other programs",
            ),
            Stopped::Input(error) => write!(f, "pipes: the input cannot be read: {error}"),
            Stopped::Output(error) => write!(f, "pipes: the listing cannot be written: {error}"),
        }
    }
}
