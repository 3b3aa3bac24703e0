//! The trait of a chest: what it means, the laws that it keeps, and its calls.
ghost use Rattle.std.specs.Prelude.{◌≡◌, ℕ, Bool, false, is_ok, OnErr};
ghost use Rattle.chest.specs.Places.{none, changed};
ghost use Rattle.chest.specs.Meaning.{Meaning, Panel, Bounded, Becomes, reach_answer, position_answer, set_answer, set_after, turn_answer, turn_after, strobe_after};

use crate::fault::ChestFault;
use crate::place::Place;
pub use fittings::{KNOBS, PLACES, POSITIONS, ROWS};

/// A chest stands by its meaning, a record of six parts, and each call says what it answers and what it makes of them.
///
/// `settled` is what a chest has to be for its meaning to follow its calls: a board is settled while the register below
/// stands at the image of its own. Every making gives a settled chest and every call keeps it so.
pub trait Chest {
    ghost meaning: { Self → Meaning };

    ghost settled: { Self → Type 0 };

    fn reach(&self, row: usize) -> Result<usize, ChestFault>
        ensures { result ≡ reach_answer (meaning self.now) row };

    fn position(&self, knob: usize) -> Result<usize, ChestFault>
        ensures { result ≡ position_answer (meaning self.now) knob };

    /// Puts one place of the register on or off.
    fn set(&mut self, row: usize, place: usize, on: bool) -> Result<(), ChestFault>
        ensures answer { result ≡ set_answer (meaning self.old) row place }
        ensures same { OnErr result (self.new ≡ self.old) }
        ensures after { Becomes meaning settled self.old self.new (set_after (meaning self.old) row place on) };

    /// Puts a place on or off, if the chest has it: for who has a `Place` at hand and need not be told why there is none.
    fn put(&mut self, at: Place, on: bool)
        ensures same { is_ok (set_answer (meaning self.old) at.row at.place) ≡ false → self.new ≡ self.old }
        ensures after { Becomes meaning settled self.old self.new (set_after (meaning self.old) at.row at.place on) }
    {
        let _ = self.set(at.row, at.place, on);
    }

    /// Turns one knob of the panel to a position.
    fn turn(&mut self, knob: usize, position: usize) -> Result<(), ChestFault>
        ensures answer { result ≡ turn_answer knob position }
        ensures same { OnErr result (self.new ≡ self.old) }
        ensures after { Becomes meaning settled self.old self.new (turn_after (meaning self.old) knob position) };

    /// Lets the pipes of the rule speak, and answers how many pipes changed.
    fn strobe(&mut self) -> u32
        ensures answer { result ≡ changed (meaning self.old).speaking (meaning self.new).speaking }
        ensures after { Becomes meaning settled self.old self.new (strobe_after (meaning self.old)) };

    // An empty register lets no pipe speak, under any panel.
    ghost quiet: { (c : Self) (panel : Panel) → (meaning c).rule panel none ≡ none };

    ghost bounded: { (c : Self) → Bounded (meaning c) };
}
