//! A wire of a book that its board refuses.
ghost use Rattle.std.specs.Prelude.{◌≡◌};
ghost use Rattle.organ.specs.Assembly.{refusal_number};

use wires::fault::BoardFault;

/// Has the line where the book has the wire, and why its board takes none such.
#[derive(Clone, Copy, Debug, PartialEq)]
pub struct Refusal {
    pub line: usize,
    pub fault: BoardFault,
}

impl Refusal {
    /// The number under which docs/FAULTS.md has a refused wire; the board's own fault says why.
    pub fn number(self) -> u8
        ensures { result ≡ refusal_number self }
    {
        37
    }
}
