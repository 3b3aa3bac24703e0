//! The positions of all knobs. Any table may be one: what keeps them below 16 is that a knob is turned by a `Setting`. `Reaches`
//! is a type of its own: it refuses by other faults, has a bound and answers for places.
ghost use Rattle.std.specs.Prelude.{◌≡◌, ◌<◌};

use crate::chest::KNOBS;
use crate::fault::ChestFault;
use crate::setting::Setting;

/// Where each knob stands.
#[derive(Clone, Copy)]
pub struct Positions {
    table: [u8; KNOBS],
}

impl Positions {
    ghost use Rattle.chest.specs.Meaning.{knob_to};
    ghost use Rattle.chest.specs.Positions.{panel_of, positions_of, position_in};
    ghost use Rattle.chest.specs.Setting.{knob_of, position_of};

    /// The position of knob k is number k of the table.
    pub fn new(table: [u8; KNOBS]) -> Positions
        ensures { positions_of result ≡ panel_of table }
    {
        Positions { table }
    }

    /// The position of a knob, 0 where there is no such knob.
    pub fn of(&self, knob: usize) -> usize
        ensures { result ≡ positions_of self.now knob }
    {
        self.table
            .get(knob)
            .map_or(0, |position| usize::from(*position))
    }

    /// The position of a knob that there is.
    pub fn position(&self, knob: usize) -> Result<usize, ChestFault>
        ensures { result ≡ position_in (positions_of self.now) knob }
    {
        let position = self.table.get(knob).ok_or(ChestFault::Knob { knob })?;
        Ok(usize::from(*position))
    }

    /// Turns a knob.
    pub fn turn(&mut self, to: Setting)
        ensures { positions_of self.new ≡ knob_to (positions_of self.old) (knob_of to) (position_of to) }
    {
        // a position is below 16, so narrowing loses nothing
        self.table[to.knob()] = to.position() as u8;
    }
}
