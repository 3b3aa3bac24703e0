//! The faults of a board that refuses a wire.
ghost use Rattle.std.specs.Prelude.{◌≡◌};
ghost use Rattle.wires.specs.BoardFault.{number_of};
ghost use Rattle.wires.specs.declared.fault.BoardFault.TheVariants.{ToRow};

use chest::fault::ChestFault;

/// The to-row of an offered wire, with the fault that the chest below gives to it.
#[derive(Clone, Copy, Debug, PartialEq)]
pub struct RowRefused {
    pub from: u16,
    pub to: u16,
    pub fault: ChestFault,
}

/// Why a board does not take a wire.
#[derive(Clone, Copy, Debug, PartialEq)]
pub enum BoardFault {
    /// Some place of the board's register is set.
    Held,
    /// The board has as many wires as it takes.
    Full,
    /// The from-row is 16 or more, the lowest key above the highest, or the highest not below the reach.
    Keys { from: u16, to: u16 },
    /// The chest below has no such to-row.
    ToRow(RowRefused),
    /// The to-row has no places.
    NoPlaces { from: u16, to: u16 },
    /// The shift is outside -96 to 96.
    Shift { from: u16, to: u16 },
    /// The knob is 65 or more.
    Knob { knob: u16 },
    /// The position is 16 or more.
    Position { knob: u16 },
}

impl From<RowRefused> for BoardFault {
    ghost from_gives = { λ e r. r ≡ ToRow e };

    fn from(e: RowRefused) -> BoardFault {
        BoardFault::ToRow(e)
    }
}

impl BoardFault {
    /// The number under which docs/FAULTS.md has it.
    pub fn number(self) -> u8
        ensures { result ≡ number_of self }
    {
        match self {
            BoardFault::Held => 15,
            BoardFault::Full => 16,
            BoardFault::Keys { .. } => 17,
            BoardFault::ToRow(_) => 11,
            BoardFault::NoPlaces { .. } => 18,
            BoardFault::Shift { .. } => 19,
            BoardFault::Knob { .. } => 13,
            BoardFault::Position { .. } => 14,
        }
    }
}
