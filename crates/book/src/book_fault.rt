//! What can be wrong with a book, each case with the line where it is.
ghost use Rattle.std.specs.Prelude.{◌≡◌, Some};
ghost use Rattle.book.specs.BookFault.{number_of, line_of};
ghost use Rattle.book.specs.Sentences.{sentence_of};

use std::error::Error;
use std::fmt;

/// The first faulty line decides, and in it the first of these in their order.
#[derive(Clone, Copy, Debug, PartialEq)]
pub enum BookFault {
    /// the book has more bytes than a book may have
    TooLong,
    /// the first byte of the line that no line may hold, and how many bytes stand before it there
    Byte { line: usize, at: usize },
    /// the line is neither empty nor built as a form, or it is not ended
    Shape { line: usize },
    /// no form has this word with this many numbers
    Form { line: usize },
    /// a number is out of its range
    Range { line: usize },
    /// the row, knob or piston was given before, or there are too many wires
    Repeat { line: usize },
}

impl BookFault {
    /// The number under which docs/FAULTS.md has it.
    pub fn number(self) -> u8
        ensures { result ≡ number_of self }
    {
        match self {
            BookFault::TooLong => 31,
            BookFault::Byte { .. } => 32,
            BookFault::Shape { .. } => 33,
            BookFault::Form { .. } => 34,
            BookFault::Range { .. } => 35,
            BookFault::Repeat { .. } => 36,
        }
    }

    /// The line, counted from 1, or 0 where no line is at fault: what prints a fault prints that 0, so it is no option.
    pub fn line(self) -> usize
        ensures { result ≡ line_of self }
    {
        match self {
            BookFault::TooLong => 0,
            BookFault::Byte { line, .. }
            | BookFault::Shape { line }
            | BookFault::Form { line }
            | BookFault::Range { line }
            | BookFault::Repeat { line } => line,
        }
    }
}

// What is wrong, in one sentence.
impl fmt::Display for BookFault {
    ghost output = { λ f. Some (sentence_of f) };

    fn fmt<W: fmt::Write>(&self, f: &mut fmt::Formatter<W>) -> fmt::Result {
        f.write_str(match self {
            BookFault::TooLong => "The book has more than 65536 bytes.",
            BookFault::Byte { .. } =>
                "A byte is neither a space, a digit, a small letter, a minus nor a bracket.",
            BookFault::Shape { .. } => "The line is not built as a form, or it has no end.",
            BookFault::Form { .. } => "No form has this word with this many numbers.",
            BookFault::Range { .. } => "A number is out of its range.",
            BookFault::Repeat { .. } => "This was given before, or the book has too many wires.",
        })
    }
}

impl Error for BookFault {}
