//! The worked cases of the rules, as a contract.
#![tactic(auto)]

ghost use Rattle.cases.specs.Worked.{WorkedCases};
ghost use Rattle.cases.specs.Recitals.{RecitalCases};
ghost use Rattle.cases.specs.Refusals.{RefusedBooks};

/// What the rules come to on a small organ, on single wires, on a line of bytes and on a chest that is drained.
pub fn worked_cases()
    ensures { WorkedCases }
{}

/// What is listed for whole books and MIDI lines, byte for byte, and for books that are refused.
pub fn recital_cases()
    ensures recitals { RecitalCases }
    ensures refusals { RefusedBooks }
{}
