//! The laws of what a MIDI line asks for, of what a console is given, of the faults' numbers and of a listing's lines, as
//! contracts.
ghost use Rattle.book.specs.declared.book.Book.{Book};
ghost use Rattle.organ.specs.Asking.{AskingLaw};
ghost use Rattle.organ.specs.BookSetup.{BookSetup};
ghost use Rattle.organ.specs.FaultTable.{FaultTable};
ghost use Rattle.organ.specs.ListingLines.{ListingLines};

/// Which calls a MIDI line can ask for: each message at most one, and each such call by exactly the messages that are named.
pub fn asking_law()
    ensures { AskingLaw }
{}

/// The console of a book is given just the divisions, knobs and pistons that the book has.
pub fn setup_law()
    ensures { (b : Book) → BookSetup b }
{}

/// Every fault has its number, in one table; and every line of a listing its bytes.
pub fn listing_lines_law()
    ensures numbers { FaultTable }
    ensures lines { ListingLines }
{}
