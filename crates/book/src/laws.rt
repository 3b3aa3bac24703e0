//! The rules of a book a second time, by their numbers and by books written out.
ghost use Rattle.book.specs.ByteLimits.{ByteLaw, LengthLaw};
ghost use Rattle.book.specs.FaultCases.{FaultOrder};
ghost use Rattle.book.specs.FormCases.{CountCases, FormCases};
ghost use Rattle.book.specs.FormLaws.{FormsLaw};
ghost use Rattle.book.specs.LineByLine.{LinesLaw};
ghost use Rattle.book.specs.NumberCases.{NumberCases, ShapeCases};
ghost use Rattle.book.specs.RangeCases.{KnobCases, PistonCases, RowCases, WireCases};
ghost use Rattle.book.specs.RepeatCases.{RepeatCases};
ghost use Rattle.book.specs.WireLimits.{WireLaw};

/// The limits of a book from both sides: its bytes, its wires, and each number of a form.
pub fn limits_law()
    ensures length { LengthLaw }
    ensures bytes { ByteLaw }
    ensures wires { WireLaw }
    ensures row { RowCases }
    ensures knob { KnobCases }
    ensures piston { PistonCases }
    ensures wire { WireCases }
{}

/// What a line of a book says, what it adds to the lines before it, and which fault comes first.
pub fn forms_law()
    ensures line { FormsLaw }
    ensures lines { LinesLaw }
    ensures says { FormCases }
    ensures count { CountCases }
    ensures number { NumberCases }
    ensures shape { ShapeCases }
    ensures repeat { RepeatCases }
    ensures order { FaultOrder }
{}
