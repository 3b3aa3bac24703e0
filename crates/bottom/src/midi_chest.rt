//! The MIDI chest: what changes among its speaking pipes is sent as notes to a receiver.
ghost use Rattle.std.specs.Prelude.{◌≡◌, ℕ, ◌≤◌, false, List, [], ◌++◌, length, take, drop, is_ok, OnErr};
ghost use Rattle.chest.specs.Places.{none, changed};
ghost use Rattle.chest.specs.Meaning.{Becomes, set_answer, set_after, turn_answer, turn_after, strobe_after};
ghost use Rattle.bottom.specs.Foot.{new_bottom};
ghost use Rattle.bottom.specs.MidiChest.{midi_meaning, MidiSettled, midi_sent, foot_of, NothingSent, midi_drained};
ghost use Rattle.bottom.specs.Receiver.{DrainLaw};
ghost use Rattle.bottom.specs.Notes.{NotesSent};
ghost use Rattle.bottom.specs.Run.{Run};
ghost use Rattle.bottom.specs.Sending.{MidiSends};
ghost use Rattle.std.proofs.Common.{rules};

use crate::catch_up::catch_up;
use crate::foot::Foot;
use crate::pipe_table::BYTES;
use chest::chest::{Chest, ROWS};
use chest::fault::ChestFault;
use chest::place::Place;
use chest::sender::Sender;

/// A chest at the foot of a stack that tells a receiver what starts and stops.
#[derive(Drop)]
pub struct MidiChest {
    foot: Foot,
    // what the receiver was told of each pipe
    sent: [u8; BYTES],
}

impl MidiChest {
    /// An empty chest with these reaches, of which one above 128 counts as 128; nothing is sent yet.
    pub fn new(reaches: [u8; ROWS]) -> MidiChest
        ensures value { midi_meaning result ≡ new_bottom reaches }
        ensures sent { midi_sent result ≡ none }
        ensures settled { MidiSettled result }
        ensures run { Run result [] }
    {
        MidiChest {
            foot: Foot::new(reaches),
            sent: [0u8; BYTES],
        }
    }

    /// Writes a start or a stop for each pending pipe, by rising row and then place, while three more bytes fit.
    pub fn drain(&mut self, out: &mut [u8]) -> usize
        ensures answer { result ≡ length (midi_drained self.old (length out.old)).bytes }
        ensures bound { result ≤ length out.new }
        ensures items { out.new ≡ (midi_drained self.old (length out.old)).bytes ++ drop result out.old }
        ensures sent { midi_sent self.new ≡ (midi_drained self.old (length out.old)).sent }
        ensures same { foot_of self.new ≡ foot_of self.old }
        ensures law { DrainLaw (midi_meaning self.old).speaking (midi_sent self.old) (midi_sent self.new) (length out.old) (take result out.new) }
        ensures notes { NotesSent (midi_meaning self.old).speaking (midi_sent self.old) (midi_sent self.new) out.old out.new result }
        ensures run { (line : List ℕ) → Run self.old line → Run self.new (line ++ take result out.new) }
    {
        // lent whole, so that a proof knows that it stays
        let foot = &self.foot;
        catch_up(&mut self.sent, &foot.pipes.speaking, out)
    }
}

// The same calls of the foot as a magnet chest's, but each that changes it promises two things more: that nothing is
// sent, and that a run goes on.
impl Chest for MidiChest {
    ghost meaning = { midi_meaning };

    ghost settled = { MidiSettled };

    ghost quiet = { Prim.search rules };

    ghost bounded = { Prim.search rules };

    fn reach(&self, row: usize) -> Result<usize, ChestFault> {
        self.foot.reach(row)
    }

    fn position(&self, knob: usize) -> Result<usize, ChestFault> {
        self.foot.position(knob)
    }

    fn set(&mut self, row: usize, place: usize, on: bool) -> Result<(), ChestFault>
        ensures answer { result ≡ set_answer (midi_meaning self.old) row place }
        ensures same { OnErr result (self.new ≡ self.old) }
        ensures after { Becomes midi_meaning MidiSettled self.old self.new (set_after (midi_meaning self.old) row place on) }
        ensures sent { NothingSent self.old self.new }
        ensures run { (line : List ℕ) → Run self.old line → Run self.new line }
    {
        self.foot.set(row, place, on)
    }

    fn put(&mut self, at: Place, on: bool)
        ensures same { is_ok (set_answer (midi_meaning self.old) at.row at.place) ≡ false → self.new ≡ self.old }
        ensures after { Becomes midi_meaning MidiSettled self.old self.new (set_after (midi_meaning self.old) at.row at.place on) }
        ensures sent { NothingSent self.old self.new }
        ensures run { (line : List ℕ) → Run self.old line → Run self.new line }
    {
        self.foot.put(at, on);
    }

    fn turn(&mut self, knob: usize, position: usize) -> Result<(), ChestFault>
        ensures answer { result ≡ turn_answer knob position }
        ensures same { OnErr result (self.new ≡ self.old) }
        ensures after { Becomes midi_meaning MidiSettled self.old self.new (turn_after (midi_meaning self.old) knob position) }
        ensures sent { NothingSent self.old self.new }
        ensures run { (line : List ℕ) → Run self.old line → Run self.new line }
    {
        self.foot.turn(knob, position)
    }

    fn strobe(&mut self) -> u32
        ensures answer { result ≡ changed (midi_meaning self.old).speaking (midi_meaning self.new).speaking }
        ensures after { Becomes midi_meaning MidiSettled self.old self.new (strobe_after (midi_meaning self.old)) }
        ensures sent { NothingSent self.old self.new }
        ensures run { (line : List ℕ) → Run self.old line → Run self.new line }
    {
        self.foot.strobe()
    }
}

// A sending is a drain.
impl Sender for MidiChest {
    ghost sends = { MidiSends };

    fn send(&mut self, buffer: &mut [u8]) -> usize {
        self.drain(buffer)
    }
}
