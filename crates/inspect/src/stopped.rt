//! Why the program ends without having said what the book is.
ghost use Rattle.inspect.specs.Stopped.{words_of};

use book_file::Unreadable;
use std::{fmt, io};

/// Each case ends the program with status 2.
#[derive(Debug, Drop)]
pub enum Stopped {
    /// there is no book to look at
    Book(Unreadable),
    /// the standard output takes no more
    Output(io::Error),
}

impl fmt::Display for Stopped {
    ghost output = { words_of };

    fn fmt<W: fmt::Write>(&self, f: &mut fmt::Formatter<W>) -> fmt::Result {
        match self {
            Stopped::Book(unreadable) => write!(f, "{unreadable}"),
            Stopped::Output(error) => write!(f, "inspect: the report cannot be written: {error}"),
        }
    }
}
