//! A board: a chest that plays the chest below through a coupling.
ghost use Rattle.std.specs.Prelude.{◌≡◌};

use crate::coupling::Coupling;
use crate::fittable::Fittable;
use crate::key_desk::KeyDesk;
use chest::chest::{Chest, ROWS};
use chest::fault::ChestFault;
use chest::place::Place;
use chest::positions::Positions;
use chest::sender::Sender;
use chest::setting::Setting;
use chest::walks;

/// Its reaches and its register are its own; its pipes are those that the chest below lets speak for the image of its register.
/// What that image is, is the coupling's; all else that a board is stands here, for every coupling over every chest.
#[derive(Drop)]
pub struct Board<K, C> {
    pub(crate) coupling: K,
    pub(crate) below: C,
}

impl<K: Coupling, C: Chest> Board<K, C> {
    ghost use Rattle.chest.specs.Places.{none};
    ghost use Rattle.chest.specs.Meaning.{Becomes, with_register};
    ghost use Rattle.coupling.specs.Making.{new_over, Made};

    /// A board over a chest whose register it clears, with nothing fitted. A reach above 128 counts as 128.
    pub fn new(mut below: C, reaches: [u8; ROWS]) -> Board<K, C>
        ensures items { K.Coupling.layout result.coupling ≡ new_over K.Coupling.bare_image reaches (C.Chest.meaning result.below) }
        ensures bare { K.Coupling.bare result.coupling }
        ensures cleared { Becomes C.Chest.meaning C.Chest.settled below result.below (with_register (C.Chest.meaning below) none) }
        ensures after { Made K.Coupling.layout C.Chest.meaning C.Chest.settled K.Coupling.bare_image reaches below result }
    {
        walks::clear(&mut below);
        let positions = Positions::new(walks::positions(&below));
        let desk = KeyDesk::new(reaches, walks::reaches(&below), positions);
        Board {
            coupling: K::over(desk),
            below,
        }
    }

    /// The chest below, to look at.
    pub fn below(&self) -> &C
        ensures { result.now ≡ self.now.below }
    {
        &self.below
    }
}

impl<K: Fittable, C: Chest> Board<K, C> {
    ghost use Rattle.std.specs.Prelude.{OnErr, OnOk};
    ghost use Rattle.coupling.specs.Board.{BoardBecomes};
    ghost use Rattle.coupling.specs.Fitting.{fit_after};

    /// Fits what is offered, while no key is set.
    pub fn fit(&mut self, offer: K::Offer) -> Result<(), K::Fault>
        ensures answer { result ≡ K.Fittable.fit_answer self.old.coupling (C.Chest.meaning self.old.below) offer }
        ensures same { OnErr result (self.new ≡ self.old) }
        ensures items { OnOk result ((self.new.below ≡ self.old.below) × K.Fittable.takes self.old.coupling offer self.new.coupling) }
        ensures after { BoardBecomes K.Coupling.layout C.Chest.meaning C.Chest.settled self.old self.new (fit_after (K.Fittable.fit_answer self.old.coupling (C.Chest.meaning self.old.below) offer) (K.Coupling.layout self.old.coupling) (K.Fittable.fitted_image self.old.coupling offer) (C.Chest.meaning self.old.below)) }
    {
        self.coupling.fit(&self.below, offer)
    }
}

// Beside what every chest promises: what does not move leaves the whole board as it was, and nothing that is fitted changes.
impl<K: Coupling, C: Chest> Chest for Board<K, C> {
    ghost use Rattle.std.specs.Prelude.{OnErr, OnOk, is_ok, false};
    ghost use Rattle.chest.specs.Places.{changed};
    ghost use Rattle.chest.specs.Meaning.{set_answer, set_after, turn_answer, turn_after, strobe_after};
    ghost use Rattle.coupling.specs.Layout.{key_moves};
    ghost use Rattle.coupling.specs.Board.{meaning_of, Settled, BoardBecomes, board_quiet, board_bounded};

    ghost meaning = { meaning_of K.Coupling.layout C.Chest.meaning };

    ghost settled = { Settled K.Coupling.layout C.Chest.meaning C.Chest.settled };

    ghost quiet = { λ c panel. board_quiet (K.Coupling.layout c.coupling) (C.Chest.meaning c.below) panel (K.Coupling.sound c.coupling) (C.Chest.quiet c.below panel) };

    ghost bounded = { λ c. board_bounded (K.Coupling.layout c.coupling) (C.Chest.meaning c.below) (K.Coupling.sound c.coupling) (C.Chest.bounded c.below) };

    fn reach(&self, row: usize) -> Result<usize, ChestFault> {
        self.coupling.desk().reach(row)
    }

    fn position(&self, knob: usize) -> Result<usize, ChestFault> {
        self.below.position(knob)
    }

    fn set(&mut self, row: usize, place: usize, on: bool) -> Result<(), ChestFault>
        ensures answer { result ≡ set_answer (meaning_of K.Coupling.layout C.Chest.meaning self.old) row place }
        ensures same { OnErr result (self.new ≡ self.old) }
        ensures after { BoardBecomes K.Coupling.layout C.Chest.meaning C.Chest.settled self.old self.new (set_after (meaning_of K.Coupling.layout C.Chest.meaning self.old) row place on) }
        ensures still { key_moves (K.Coupling.layout self.old.coupling) row place on ≡ false → self.new ≡ self.old }
        ensures kept { OnOk result (K.Coupling.same_fitted self.old.coupling self.new.coupling) }
    {
        let at = self.coupling.desk().key(row, place)?;
        self.put(at, on);
        Ok(())
    }

    fn put(&mut self, at: Place, on: bool)
        ensures same { is_ok (set_answer (meaning_of K.Coupling.layout C.Chest.meaning self.old) at.row at.place) ≡ false → self.new ≡ self.old }
        ensures after { BoardBecomes K.Coupling.layout C.Chest.meaning C.Chest.settled self.old self.new (set_after (meaning_of K.Coupling.layout C.Chest.meaning self.old) at.row at.place on) }
        ensures still { key_moves (K.Coupling.layout self.old.coupling) at.row at.place on ≡ false → self.new ≡ self.old }
        ensures kept { K.Coupling.same_fitted self.old.coupling self.new.coupling }
    {
        self.coupling.put(&mut self.below, at, on);
    }

    fn turn(&mut self, knob: usize, position: usize) -> Result<(), ChestFault>
        ensures answer { result ≡ turn_answer knob position }
        ensures same { OnErr result (self.new ≡ self.old) }
        ensures after { BoardBecomes K.Coupling.layout C.Chest.meaning C.Chest.settled self.old self.new (turn_after (meaning_of K.Coupling.layout C.Chest.meaning self.old) knob position) }
        ensures still { (K.Coupling.layout self.old.coupling).panel knob ≡ position → self.new ≡ self.old }
        ensures kept { OnOk result (K.Coupling.same_fitted self.old.coupling self.new.coupling) }
    {
        let to = Setting::new(knob, position)?;
        if self.coupling.turn(&mut self.below, to) {
            let _ = self.below.turn(knob, position);
        }
        Ok(())
    }

    fn strobe(&mut self) -> u32
        ensures answer { result ≡ changed (meaning_of K.Coupling.layout C.Chest.meaning self.old).speaking (meaning_of K.Coupling.layout C.Chest.meaning self.new).speaking }
        ensures after { BoardBecomes K.Coupling.layout C.Chest.meaning C.Chest.settled self.old self.new (strobe_after (meaning_of K.Coupling.layout C.Chest.meaning self.old)) }
        ensures coupling { self.new.coupling ≡ self.old.coupling }
    {
        self.below.strobe()
    }
}

// A board over a sender hands on what the chest below sends.
impl<K: Coupling, C: Sender> Sender for Board<K, C> {
    ghost use Rattle.coupling.specs.Sending.{HandsOn};

    ghost sends = { HandsOn C.Sender.sends };

    fn send(&mut self, buffer: &mut [u8]) -> usize {
        self.below.send(buffer)
    }
}
