//! A knob with a position.
ghost use Rattle.std.specs.Prelude.{◌≡◌, ◌<◌, Ok, Err, MatchResult};

use crate::chest::{KNOBS, POSITIONS};
use crate::fault::ChestFault;

/// A position that a knob can have: one of 16 of one of 64 knobs. `new` alone makes one.
#[derive(Clone, Copy)]
pub struct Setting {
    knob: usize,
    position: usize,
    ghost knob_in: { knob < 64 },
    ghost position_in: { position < 16 },
}

impl Setting {
    ghost use Rattle.chest.specs.Meaning.{turn_answer};
    ghost use Rattle.chest.specs.Setting.{knob_of, position_of};

    /// The knob at the position, or why there is none such.
    pub fn new(knob: usize, position: usize) -> Result<Setting, ChestFault>
        ensures { MatchResult result (λ s. (turn_answer knob position ≡ Ok tt) × (knob_of s ≡ knob) × (position_of s ≡ position)) (λ fault. turn_answer knob position ≡ Err fault) }
    {
        if knob >= KNOBS {
            return Err(ChestFault::Knob { knob });
        }
        if position >= POSITIONS {
            return Err(ChestFault::Position { knob, position });
        }
        Ok(Setting { knob, position })
    }

    /// The number of the knob.
    pub fn knob(self) -> usize
        ensures value { result ≡ knob_of self }
        ensures bound { result < 64 }
    {
        self.knob
    }

    /// Where it is to stand.
    pub fn position(self) -> usize
        ensures value { result ≡ position_of self }
        ensures bound { result < 16 }
    {
        self.position
    }
}
