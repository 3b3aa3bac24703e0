//! Why the file of a book cannot be read.
ghost use Rattle.book_file.specs.Unreadable.{Reason, sentence_of};

use std::error::Error;
use std::{fmt, io};

/// Each case says what to do about it.
#[derive(Clone, Copy, Debug, Drop)]
pub enum Unreadable {
    /// it is a directory
    Directory,
    /// the program has no leave to read it
    NoLeave,
    /// there is no memory for its bytes
    NoMemory,
    /// something else, which the system has words for
    Other(io::Error),
}

impl Unreadable {
    /// The case of what the system says.
    pub fn new(error: io::Error) -> Unreadable
        ensures { Reason error result }
    {
        let kind = error.kind();
        if kind == io::ErrorKind::IsADirectory {
            Unreadable::Directory
        } else if kind == io::ErrorKind::PermissionDenied {
            Unreadable::NoLeave
        } else if kind == io::ErrorKind::OutOfMemory {
            Unreadable::NoMemory
        } else {
            Unreadable::Other(error)
        }
    }
}

// What is wrong, and what to do.
impl fmt::Display for Unreadable {
    ghost output = { sentence_of };

    fn fmt<W: fmt::Write>(&self, f: &mut fmt::Formatter<W>) -> fmt::Result {
        match self {
            Unreadable::Directory => f.write_str(
                "organ.book: it is a directory; a book is a file of text",
            ),
            Unreadable::NoLeave => f.write_str(
                "organ.book: no leave to read it; change its permissions",
            ),
            Unreadable::NoMemory => f.write_str(
                "organ.book: there is no memory to read it; end other programs",
            ),
            Unreadable::Other(error) => write!(f, "organ.book: it cannot be read: {error}"),
        }
    }
}

impl Error for Unreadable {}
