//! Walks over the places and the knobs of any chest.
ghost use Rattle.std.specs.Prelude.{◌≡◌, ℕ, ◌<◌, ◌≤◌, slice_index};
ghost use Rattle.chest.specs.Places.{Places, none};
ghost use Rattle.chest.specs.Meaning.{Becomes, with_register};
ghost use Rattle.chest.specs.Reaches.{reaches_of};
ghost use Rattle.chest.specs.Walks.{row_shown};

use crate::chest::{Chest, KNOBS, ROWS};
use crate::place::Place;
use crate::reaches::Reaches;
use std::array;

/// Which places are to be set. A trait and no closure: a walk need not ask that it can be called.
pub trait Rule {
    ghost set: { Self → Places };

    fn sets(&self, at: Place) -> bool
        ensures { result ≡ set self.now at.row at.place };
}

// No place is.
struct Nowhere;

impl Rule for Nowhere {
    ghost set = { λ _. none };

    fn sets(&self, _at: Place) -> bool {
        false
    }
}

/// Puts each place of a row on or off, as a rule says of it.
pub fn show_row<C: Chest, R: Rule>(chest: &mut C, row: usize, rule: &R)
    ensures { Becomes C.meaning C.settled chest.old chest.new (row_shown (C.meaning chest.old) (R.set rule.now) row ((C.meaning chest.old).reach row)) }
{
    for place in 0..chest.reach(row).unwrap_or(0) {
        let _ = chest.set(row, place, rule.sets(Place { row, place }));
    }
}

/// Puts off every place.
pub fn clear<C: Chest>(chest: &mut C)
    ensures { Becomes C.meaning C.settled chest.old chest.new (with_register (C.meaning chest.old) none) }
{
    for row in 0..ROWS {
        show_row(chest, row, &Nowhere);
    }
}

// The reach of a row, 0 where there is none. It is 128 at most, so narrowing loses nothing.
fn reach_at<C: Chest>(chest: &C, row: usize) -> u8
    ensures value { result ≡ (C.meaning chest.now).reach row }
    ensures bound { result ≤ 128 }
{
    chest.reach(row).unwrap_or(0) as u8
}

// The position of a knob, 0 where there is none. It is below 16, so narrowing loses nothing.
fn position_at<C: Chest>(chest: &C, knob: usize) -> u8
    ensures value { result ≡ (C.meaning chest.now).panel knob }
    ensures bound { result < 16 }
{
    chest.position(knob).unwrap_or(0) as u8
}

/// The reaches of all rows.
pub fn reaches<C: Chest>(chest: &C) -> Reaches
    ensures { reaches_of result ≡ (C.meaning chest.now).reach }
{
    Reaches::new(array::from_fn(|row| reach_at(chest, row)))
}

/// The positions of all knobs, as the table that a piston keeps.
pub fn positions<C: Chest>(chest: &C) -> [u8; KNOBS]
    ensures value { (k : ℕ) → k < 64 → slice_index result k ≡ (C.meaning chest.now).panel k }
    ensures bound { (k : ℕ) → slice_index result k < 16 }
{
    array::from_fn(|knob| position_at(chest, knob))
}
