//! The magnet chest: its speaking pipes are bits that a host copies to the magnets' drivers.
ghost use Rattle.std.specs.Prelude.{◌≡◌, length, MatchResult};
ghost use Rattle.bottom.specs.BufferFault.{write_answer};
ghost use Rattle.bottom.specs.BufferNumber.{Numbered};
ghost use Rattle.bottom.specs.Foot.{new_bottom};
ghost use Rattle.bottom.specs.PipeTable.{shown};
ghost use Rattle.bottom.specs.MagnetChest.{magnet_meaning, MagnetSettled};
ghost use Rattle.std.proofs.Common.{rules};

use crate::fault::BufferFault;
use crate::foot::Foot;
use crate::pipe_table::BYTES;
use chest::chest::{Chest, ROWS};
use chest::fault::ChestFault;
use chest::place::Place;

/// A chest at the foot of a stack that works magnets.
#[derive(Drop)]
pub struct MagnetChest {
    foot: Foot,
}

impl MagnetChest {
    /// An empty chest with these reaches, of which one above 128 counts as 128.
    pub fn new(reaches: [u8; ROWS]) -> MagnetChest
        ensures value { magnet_meaning result ≡ new_bottom reaches }
        ensures settled { MagnetSettled result }
    {
        MagnetChest {
            foot: Foot::new(reaches),
        }
    }

    /// Writes the speaking pipes into a buffer of 256 bytes.
    pub fn write(&self, buffer: &mut [u8]) -> Result<(), BufferFault>
        ensures answer { result ≡ write_answer (length buffer.old) }
        ensures after { MatchResult result (λ _. shown buffer.new ≡ (magnet_meaning self.now).speaking) (λ _. buffer.new ≡ buffer.old) }
        ensures number { Numbered (magnet_meaning self.now).speaking buffer.old buffer.new result }
        ensures len { length buffer.new ≡ length buffer.old }
    {
        if buffer.len() != BYTES {
            return Err(BufferFault::Length { len: buffer.len() });
        }
        buffer.copy_from_slice(&self.foot.pipes.speaking);
        Ok(())
    }
}

impl Chest for MagnetChest {
    ghost meaning = { magnet_meaning };

    ghost settled = { MagnetSettled };

    ghost quiet = { Prim.search rules };

    ghost bounded = { Prim.search rules };

    fn reach(&self, row: usize) -> Result<usize, ChestFault> {
        self.foot.reach(row)
    }

    fn position(&self, knob: usize) -> Result<usize, ChestFault> {
        self.foot.position(knob)
    }

    fn set(&mut self, row: usize, place: usize, on: bool) -> Result<(), ChestFault> {
        self.foot.set(row, place, on)
    }

    fn put(&mut self, at: Place, on: bool) {
        self.foot.put(at, on);
    }

    fn turn(&mut self, knob: usize, position: usize) -> Result<(), ChestFault> {
        self.foot.turn(knob, position)
    }

    fn strobe(&mut self) -> u32 {
        self.foot.strobe()
    }
}
