//! A place by its row and its number in it.
ghost use Rattle.std.specs.Prelude.{◌≡◌, ◌+◌, ◌*◌, ◌<◌};

use crate::chest::PLACES;

/// A place that a chest can have: one of 128 in one of 16 rows.
// public fields: a board's walk makes one for each way, and need not ask again what it knows
#[derive(Clone, Copy)]
pub struct Place {
    pub row: usize,
    pub place: usize,
    ghost row_in: { row < 16 },
    ghost place_in: { place < 128 },
}

impl Place {
    /// Where it stands in a table of all places, row after row.
    pub fn index(self) -> usize
        ensures value { result ≡ 128 * self.row + self.place }
        ensures bound { result < 2048 }
    {
        PLACES * self.row + self.place
    }
}
