//! The faults that a chest gives to whoever wires it.
ghost use Rattle.std.specs.Prelude.{◌≡◌};
ghost use Rattle.chest.specs.ChestFault.{number_of};

/// Why a chest does not do a call.
#[derive(Clone, Copy, Debug, PartialEq)]
pub enum ChestFault {
    /// The row is 16 or more.
    Row { row: usize },
    /// The place is not below the reach of its row.
    Place { row: usize, place: usize },
    /// The knob is 64 or more.
    Knob { knob: usize },
    /// The position is 16 or more.
    Position { knob: usize, position: usize },
}

impl ChestFault {
    /// The number under which docs/FAULTS.md has it.
    pub fn number(self) -> u8
        ensures { result ≡ number_of self }
    {
        match self {
            ChestFault::Row { .. } => 11,
            ChestFault::Place { .. } => 12,
            ChestFault::Knob { .. } => 13,
            ChestFault::Position { .. } => 14,
        }
    }
}
