//! What both bottom chests keep: the reaches, the knobs' positions, the pipes and the number of strobes.
ghost use Rattle.std.specs.Prelude.{◌≡◌, ℕ, ◌^◌, ◌<◌, true, false, is_ok, OnErr};
ghost use Rattle.chest.specs.Places.{changed};
ghost use Rattle.chest.specs.Positions.{positions_of};
ghost use Rattle.chest.specs.Reaches.{reaches_of};
ghost use Rattle.bottom.specs.PipeTable.{shown};

use crate::pipe_table::{BYTES, has, put};
use chest::chest::{KNOBS, ROWS};
use chest::fault::ChestFault;
use chest::place::Place;
use chest::positions::Positions;
use chest::reaches::Reaches;
use chest::setting::Setting;

// The pipes that are set, and those that speak. Plain arrays: a strobe copies one onto the other.
#[derive(Drop)]
pub(crate) struct Pipes {
    pub(crate) set: [u8; BYTES],
    pub(crate) speaking: [u8; BYTES],
}

#[derive(Drop)]
pub(crate) struct Foot {
    reaches: Reaches,
    positions: Positions,
    strobes: u32,
    pub(crate) pipes: Pipes,
    // at how many places the two tables differ, counted at each set, so that a strobe need not compare them
    apart: u32,
    ghost stands: { (k : ℕ) → positions_of positions k < 16 },
    ghost inside: { (r p : ℕ) → shown pipes.set r p ≡ true → p < reaches_of reaches r },
    ghost counted: { strobes < 2 ^ 32 },
    ghost exact: { changed (shown pipes.speaking) (shown pipes.set) ≡ apart },
}

impl Foot {
    ghost use Rattle.chest.specs.Meaning.{reach_answer, position_answer, set_answer, set_after, turn_answer, turn_after, strobe_after};
    ghost use Rattle.bottom.specs.Foot.{foot_meaning, new_bottom};

    pub(crate) fn new(reaches: [u8; ROWS]) -> Foot
        ensures { foot_meaning result ≡ new_bottom reaches }
    {
        Foot {
            reaches: Reaches::new(reaches),
            positions: Positions::new([0; KNOBS]),
            strobes: 0,
            pipes: Pipes {
                set: [0u8; BYTES],
                speaking: [0u8; BYTES],
            },
            apart: 0,
        }
    }

    pub(crate) fn reach(&self, row: usize) -> Result<usize, ChestFault>
        ensures { result ≡ reach_answer (foot_meaning self.now) row }
    {
        self.reaches.reach(row)
    }

    pub(crate) fn position(&self, knob: usize) -> Result<usize, ChestFault>
        ensures { result ≡ position_answer (foot_meaning self.now) knob }
    {
        self.positions.position(knob)
    }

    // A toggle brings the two tables one place nearer, or takes them one further apart.
    pub(crate) fn set(&mut self, row: usize, place: usize, on: bool) -> Result<(), ChestFault>
        ensures answer { result ≡ set_answer (foot_meaning self.old) row place }
        ensures same { OnErr result (self.new ≡ self.old) }
        ensures after { foot_meaning self.new ≡ set_after (foot_meaning self.old) row place on }
    {
        let at = self.reaches.place(row, place)?;
        if has(&self.pipes.set, at) == on {
            return Ok(());
        }
        put(&mut self.pipes.set, at, on);
        if has(&self.pipes.speaking, at) == on {
            self.apart -= 1;
        } else {
            self.apart += 1;
        }
        Ok(())
    }

    // The same of a pipe by a place at hand: its row is not asked for, and no fault is answered.
    pub(crate) fn put(&mut self, pipe: Place, on: bool)
        ensures same { is_ok (set_answer (foot_meaning self.old) pipe.row pipe.place) ≡ false → self.new ≡ self.old }
        ensures after { foot_meaning self.new ≡ set_after (foot_meaning self.old) pipe.row pipe.place on }
    {
        if self.reaches.has(pipe) && has(&self.pipes.set, pipe) != on {
            put(&mut self.pipes.set, pipe, on);
            if has(&self.pipes.speaking, pipe) == on {
                self.apart -= 1;
            } else {
                self.apart += 1;
            }
        }
    }

    pub(crate) fn turn(&mut self, knob: usize, position: usize) -> Result<(), ChestFault>
        ensures answer { result ≡ turn_answer knob position }
        ensures same { OnErr result (self.new ≡ self.old) }
        ensures after { foot_meaning self.new ≡ turn_after (foot_meaning self.old) knob position }
    {
        let to = Setting::new(knob, position)?;
        self.positions.turn(to);
        Ok(())
    }

    pub(crate) fn strobe(&mut self) -> u32
        ensures answer { result ≡ changed (foot_meaning self.old).speaking (foot_meaning self.new).speaking }
        ensures after { foot_meaning self.new ≡ strobe_after (foot_meaning self.old) }
    {
        self.strobes = self.strobes.wrapping_add(1);
        self.pipes.speaking = self.pipes.set;
        let count = self.apart;
        self.apart = 0;
        count
    }
}
