//! Which wires lead somewhere from a key, so that a relay walks no wire that a key does not touch.
ghost use Rattle.std.specs.Prelude.{◌≡◌, ℕ, ◌<◌, ◌==◌, cond, ◌&&◌, true, length};
ghost use Rattle.sets.specs.Numbers.{nothing, both};
ghost use Rattle.sets.specs.NumberSet.{members};
ghost use Rattle.chest.specs.Reaches.{reaches_of};
ghost use Rattle.board.specs.Among.{leads_from, lands};

use chest::chest::{PLACES, ROWS};
use chest::place::Place;
use chest::reaches::Reaches;
use sets::NumberSet;
use wires::lead::Lead;

// The numbers of the wires by the row that they lead from, and by the keys that land somewhere through them. Two small tables
// and not one of all rows and keys: a wire leads from one row alone.
#[derive(Clone, Copy)]
pub(crate) struct Outlets {
    pub rows: [NumberSet; ROWS],
    pub keys: [NumberSet; PLACES],
    ghost by_row: { length rows ≡ 16 },
    ghost by_key: { length keys ≡ 128 },
}

impl Outlets {
    ghost use Rattle.board.specs.Outlets.{row_of, key_of};

    pub(crate) fn none() -> Outlets
        ensures rows { (r : ℕ) → row_of result r ≡ nothing }
        ensures keys { (p : ℕ) → key_of result p ≡ nothing }
    {
        Outlets {
            rows: [NumberSet::none(); ROWS],
            keys: [NumberSet::none(); PLACES],
        }
    }

    // The wires that lead somewhere from a key.
    pub(crate) fn of(&self, key: Place) -> NumberSet
        ensures { members result ≡ both (row_of self.now key.row) (key_of self.now key.place) }
    {
        self.rows[key.row].both(self.keys[key.place])
    }

    // Adds a wire by its number.
    pub(crate) fn add(&mut self, number: usize, w: Lead, below: &Reaches)
        requires { number < 128 }
        ensures rows { (r i : ℕ) → r < 16 → row_of self.new r i ≡ cond (i == number && leads_from r w) true (row_of self.old r i) }
        ensures keys { (p i : ℕ) → p < 128 → key_of self.new p i ≡ cond (i == number && lands (reaches_of below.now) p w) true (key_of self.old p i) }
    {
        self.add_keys(number, w, below);
        let row = usize::from(w.from);
        if row < ROWS {
            self.rows[row] = self.rows[row].with(number, true);
        }
    }

    fn add_keys(&mut self, number: usize, w: Lead, below: &Reaches)
        requires { number < 128 }
        ensures keys { (p i : ℕ) → p < 128 → key_of self.new p i ≡ cond (i == number && lands (reaches_of below.now) p w) true (key_of self.old p i) }
        ensures rows { self.new.rows ≡ self.old.rows }
    {
        for key in 0..PLACES {
            if w.lands(below, key).is_some() {
                self.keys[key] = self.keys[key].with(number, true);
            }
        }
    }
}
