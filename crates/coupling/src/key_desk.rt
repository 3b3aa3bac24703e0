//! The key desk of a coupling: what every coupling keeps, whatever it does to keys.
ghost use Rattle.std.specs.Prelude.{◌≡◌, ℕ, ◌<◌, true, length, slice_index_or};
ghost use Rattle.sets.specs.NumberSet.{members, empty};
ghost use Rattle.chest.specs.Reaches.{reaches_of};

use chest::chest::ROWS;
use chest::fault::ChestFault;
use chest::place::Place;
use chest::positions::Positions;
use chest::reaches::Reaches;
use chest::setting::Setting;
use sets::NumberSet;

/// The board's own reaches and those of the chest below, the keys that are set and the knobs' positions as the coupling
/// knows them. Each set key is below the reach of its row.
#[derive(Drop)]
pub struct KeyDesk {
    reaches: Reaches,
    below: Reaches,
    keys: [NumberSet; ROWS],
    positions: Positions,
    ghost manual: { length keys ≡ 16 },
    ghost held: { (r p : ℕ) → members (slice_index_or keys r empty) p ≡ true → p < reaches_of reaches r },
}

impl KeyDesk {
    ghost use Rattle.std.specs.Prelude.{◌≤◌, Ok, Err, MatchResult};
    ghost use Rattle.chest.specs.Positions.{positions_of};
    ghost use Rattle.chest.specs.Reaches.{reach_in, place_in};
    ghost use Rattle.chest.specs.Setting.{knob_of, position_of};
    ghost use Rattle.coupling.specs.Some.{some, is_free};
    ghost use Rattle.coupling.specs.Layout.{Image, new_layout, key_put, key_moves, with_knob};
    ghost use Rattle.coupling.specs.KeyDesk.{layout_of, own, register, panel};

    /// No key is set. A reach above 128 counts as 128.
    pub fn new(reaches: [u8; ROWS], below: Reaches, positions: Positions) -> KeyDesk
        ensures { (image : Image) → layout_of result image ≡ new_layout image reaches (reaches_of below) (positions_of positions) }
    {
        KeyDesk {
            reaches: Reaches::new(reaches),
            below,
            keys: [NumberSet::none(); ROWS],
            positions,
        }
    }

    /// How many keys a row has.
    pub fn reach(&self, row: usize) -> Result<usize, ChestFault>
        ensures { result ≡ reach_in (own self.now) row }
    {
        self.reaches.reach(row)
    }

    /// A key that there is.
    pub fn key(&self, row: usize, place: usize) -> Result<Place, ChestFault>
        ensures { MatchResult result (λ at. (place_in (own self.now) row place ≡ Ok tt) × (at.row ≡ row) × (at.place ≡ place) × (place < own self.now row)) (λ fault. place_in (own self.now) row place ≡ Err fault) }
    {
        self.reaches.place(row, place)
    }

    /// How many keys a row has, 0 where there is no such row.
    pub fn own_reach(&self, row: usize) -> usize
        ensures value { result ≡ own self.now row }
        ensures bound { result ≤ 128 }
    {
        self.reaches.of(row)
    }

    /// The reaches of the chest below.
    pub fn below(&self) -> &Reaches
        ensures { result.now ≡ self.now.below }
    {
        &self.below
    }

    /// The knobs' positions.
    pub fn positions(&self) -> &Positions
        ensures { result.now ≡ self.now.positions }
    {
        &self.positions
    }

    /// Where a knob stands.
    pub fn position(&self, knob: usize) -> usize
        ensures { result ≡ panel self.now knob }
    {
        self.positions.of(knob)
    }

    /// The keys of a row that are set.
    pub fn row(&self, row: usize) -> NumberSet
        ensures { members result ≡ register self.now row }
    {
        if row < ROWS {
            self.keys[row]
        } else {
            NumberSet::none()
        }
    }

    // Whether some key of a row is set.
    fn has_key(&self, row: usize) -> bool
        ensures { result ≡ some 128 (register self.now row) }
    {
        let keys = self.row(row);
        (0..self.reaches.of(row)).any(|key| keys.has(key))
    }

    /// Whether no key is set.
    pub fn is_free(&self) -> bool
        ensures { result ≡ is_free (register self.now) }
    {
        !(0..ROWS).any(|row| self.has_key(row))
    }

    /// Whether there is such a key and it stands the other way.
    pub fn moves(&self, at: Place, on: bool) -> bool
        ensures { (image : Image) → result ≡ key_moves (layout_of self.now image) at.row at.place on }
    {
        self.reaches.has(at) && self.keys[at.row].has(at.place) != on
    }

    /// Puts a key on or off, if there is such a key.
    pub fn put(&mut self, at: Place, on: bool)
        ensures { (image : Image) → layout_of self.new image ≡ key_put (layout_of self.old image) at.row at.place on }
    {
        if self.reaches.has(at) {
            self.keys[at.row] = self.keys[at.row].with(at.place, on);
        }
    }

    /// Turns a knob.
    pub fn turn(&mut self, to: Setting)
        ensures { (image : Image) → layout_of self.new image ≡ with_knob (layout_of self.old image) (knob_of to) (position_of to) }
    {
        self.positions.turn(to);
    }
}
