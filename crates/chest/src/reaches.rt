//! How many places each row has.
ghost use Rattle.std.specs.Prelude.{◌≡◌, ℕ, ◌<◌, ◌≤◌, min, nat_lt, Ok, Err, MatchResult, slice_index};

use crate::chest::{PLACES, ROWS};
use crate::fault::ChestFault;
use crate::place::Place;

/// How many places each row has.
#[derive(Clone, Copy)]
pub struct Reaches {
    table: [u8; ROWS],
    ghost low: { (r : ℕ) → slice_index table r ≤ 128 },
}

// The most that a reach can be, as the byte that keeps it.
const MOST: u8 = PLACES as u8;

// Each number above 128 as 128.
fn capped(table: [u8; ROWS]) -> [u8; ROWS]
    ensures { (k : ℕ) → slice_index result k ≡ min (slice_index table k) 128 }
{
    table.map(|reach| reach.min(MOST))
}

impl Reaches {
    ghost use Rattle.chest.specs.Reaches.{reach_of, reaches_of, reach_in, place_in};

    /// A reach above 128 counts as 128.
    pub fn new(table: [u8; ROWS]) -> Reaches
        ensures { reaches_of result ≡ reach_of table }
    {
        Reaches {
            table: capped(table),
        }
    }

    /// The reach of a row, 0 where there is no such row.
    pub fn of(&self, row: usize) -> usize
        ensures value { result ≡ reaches_of self.now row }
        ensures bound { result ≤ 128 }
    {
        self.table.get(row).map_or(0, |reach| usize::from(*reach))
    }

    /// The reach of a row that there is.
    pub fn reach(&self, row: usize) -> Result<usize, ChestFault>
        ensures { result ≡ reach_in (reaches_of self.now) row }
    {
        let reach = self.table.get(row).ok_or(ChestFault::Row { row })?;
        Ok(usize::from(*reach))
    }

    /// Whether there is such a place.
    pub fn has(&self, at: Place) -> bool
        ensures { result ≡ nat_lt at.place (reaches_of self.now at.row) }
    {
        at.place < usize::from(self.table[at.row])
    }

    /// A place that there is.
    pub fn place(&self, row: usize, place: usize) -> Result<Place, ChestFault>
        ensures { MatchResult result (λ at. (place_in (reaches_of self.now) row place ≡ Ok tt) × (at.row ≡ row) × (at.place ≡ place) × (place < reaches_of self.now row)) (λ fault. place_in (reaches_of self.now) row place ≡ Err fault) }
    {
        if place >= self.reach(row)? {
            return Err(ChestFault::Place { row, place });
        }
        Ok(Place { row, place })
    }
}
