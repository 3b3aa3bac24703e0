//! The line that the program prints for a refused book.
ghost use Rattle.std.specs.Prelude.{◌++◌, Some, codes, decimal};
ghost use Rattle.book.specs.BookFault.{line_of, number_of};
ghost use Rattle.book.specs.Sentences.{sentence_of};

use book::BookFault;
use std::fmt;

/// A refused book, by its fault.
#[derive(Clone, Copy, Debug)]
pub struct Refused(pub BookFault);

// The fault's number and line, and what is wrong.
impl fmt::Display for Refused {
    ghost output = { λ r. Some (codes "Fault " ++ (decimal (number_of r.0) ++ (codes " on line " ++ (decimal (line_of r.0) ++ (codes ": " ++ sentence_of r.0))))) };

    fn fmt<W: fmt::Write>(&self, f: &mut fmt::Formatter<W>) -> fmt::Result {
        let fault = self.0;
        let number = fault.number();
        let line = fault.line();
        write!(f, "Fault {number} on line {line}: {fault}")
    }
}
