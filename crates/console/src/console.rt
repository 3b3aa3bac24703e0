//! The console over any chest: its making and its eight calls.
ghost use Rattle.std.specs.Prelude.{◌≡◌, ◌<◌, ◌≤◌, true, length, Ok, Err, IfOk, IfErr, OnErr};
ghost use Rattle.console.specs.Console.{chest_of};
ghost use Rattle.console.specs.Model.{key_check};
ghost use Rattle.console.specs.Sending.{Sends, StillTracks, Linked};
ghost use Rattle.console.specs.Tracks.{Follows, Makes};

use crate::call::Call;
use crate::fault::PlayFault;
use crate::key_table::KeyTable;
use crate::knob_table::KnobTable;
use crate::piston_table::PistonTable;
use crate::walks::{home_knobs, recall_knobs, reset_knobs};
use chest::chest::{Chest, ROWS};
use chest::place::Place;
use chest::sender::Sender;
use chest::walks::{Rule, clear, positions, show_row};

/// Keys, knobs and pistons over a chest.
#[derive(Drop)]
pub struct Console<C: Chest> {
    chest: C,
    knobs: KnobTable,
    pistons: PistonTable,
    keys: KeyTable,
}

impl<C: Chest> Console<C> {
    /// No key is down, every sustain is off, the knobs are at home and nothing is captured, whatever the chest held before.
    pub fn new(mut chest: C, knobs: KnobTable, pistons: PistonTable) -> Console<C>
        ensures { Makes C.Chest.meaning C.Chest.settled chest knobs pistons result }
    {
        clear(&mut chest);
        reset_knobs(&mut chest, &knobs);
        let _ = chest.strobe();
        let keys = KeyTable::new();
        Console {
            chest,
            knobs,
            pistons: pistons.released(),
            keys,
        }
    }

    /// Does any of the eight calls.
    pub fn perform(&mut self, call: Call) -> Result<u32, PlayFault>
        ensures follows { Follows C.Chest.meaning C.Chest.settled self.old call result self.new }
        ensures same { OnErr result (self.new ≡ self.old) }
    {
        match call {
            Call::Press { division, key } => self.press(division, key),
            Call::Lift { division, key } => self.lift(division, key),
            Call::Sustain { division, on } => self.sustain(division, on),
            Call::Clear { division } => self.clear(division),
            Call::Turn { knob, position } => self.turn(knob, position),
            Call::Capture { piston } => self.capture(piston),
            Call::Recall { piston } => self.recall(piston),
            Call::Cancel => Ok(self.cancel()),
        }
    }

    /// The chest that the console stands on, to be looked at.
    pub fn chest(&self) -> &C
        ensures { result.now ≡ chest_of self.now }
    {
        &self.chest
    }

    // A key that there is.
    fn check_key(&self, division: usize, key: usize) -> Result<Place, PlayFault>
        ensures refused { IfErr result (λ fault. key_check (C.Chest.meaning self.now.chest).reach division key (Ok tt) ≡ Err fault) }
        ensures passed { IfOk result (λ at. (at.row ≡ division) × (at.place ≡ key) × (key < (C.Chest.meaning self.now.chest).reach division)) }
    {
        let reach = self
            .chest
            .reach(division)
            .map_err(|_| PlayFault::Division { division })?;
        if key >= reach {
            return Err(PlayFault::Key { division, key });
        }
        Ok(Place {
            row: division,
            place: key,
        })
    }

    /// Presses a key.
    pub fn press(&mut self, division: usize, key: usize) -> Result<u32, PlayFault>
        ensures follows { Follows C.Chest.meaning C.Chest.settled self.old (Call.Press division key) result self.new }
        ensures same { OnErr result (self.new ≡ self.old) }
    {
        let at = self.check_key(division, key)?;
        if self.keys.is_down(at) {
            return Err(PlayFault::KeyDown { division, key });
        }
        self.keys.press(at);
        let _ = self.chest.set(division, key, true);
        Ok(self.chest.strobe())
    }

    /// Lifts a key; it sounds on if it is sustained.
    pub fn lift(&mut self, division: usize, key: usize) -> Result<u32, PlayFault>
        ensures follows { Follows C.Chest.meaning C.Chest.settled self.old (Call.Lift division key) result self.new }
        ensures same { OnErr result (self.new ≡ self.old) }
    {
        let at = self.check_key(division, key)?;
        if !self.keys.is_down(at) {
            return Err(PlayFault::KeyUp { division, key });
        }
        self.keys.lift(at);
        let sounds = self.keys.sets(at);
        let _ = self.chest.set(division, key, sounds);
        Ok(self.chest.strobe())
    }

    /// Switches a division's sustain on or off.
    pub fn sustain(&mut self, division: usize, on: bool) -> Result<u32, PlayFault>
        ensures follows { Follows C.Chest.meaning C.Chest.settled self.old (Call.Sustain division on) result self.new }
        ensures same { OnErr result (self.new ≡ self.old) }
    {
        if division >= ROWS {
            return Err(PlayFault::Division { division });
        }
        self.keys.switch_sustain(division, on);
        show_row(&mut self.chest, division, &self.keys);
        Ok(self.chest.strobe())
    }

    /// Ends a division's sustain and lifts all its keys.
    pub fn clear(&mut self, division: usize) -> Result<u32, PlayFault>
        ensures follows { Follows C.Chest.meaning C.Chest.settled self.old (Call.Clear division) result self.new }
        ensures same { OnErr result (self.new ≡ self.old) }
    {
        if division >= ROWS {
            return Err(PlayFault::Division { division });
        }
        self.keys.clear(division);
        // as `sustain` ends: a function for these two lines needs a clause for each part of the console
        show_row(&mut self.chest, division, &self.keys);
        Ok(self.chest.strobe())
    }

    /// Turns a knob to a position.
    pub fn turn(&mut self, knob: usize, position: usize) -> Result<u32, PlayFault>
        ensures follows { Follows C.Chest.meaning C.Chest.settled self.old (Call.Turn knob position) result self.new }
        ensures same { OnErr result (self.new ≡ self.old) }
    {
        // looked up first: a knob that is not there is fault 5, whatever the position
        let Some(steps) = self.knobs.steps(knob) else {
            return Err(PlayFault::Knob { knob });
        };
        if position >= steps {
            return Err(PlayFault::Position { knob, position });
        }
        let _ = self.chest.turn(knob, position);
        Ok(self.chest.strobe())
    }

    /// Stores the positions of a piston's knobs.
    pub fn capture(&mut self, piston: usize) -> Result<u32, PlayFault>
        ensures follows { Follows C.Chest.meaning C.Chest.settled self.old (Call.Capture piston) result self.new }
        ensures same { OnErr result (self.new ≡ self.old) }
    {
        self.pistons
            .scope(piston)
            .ok_or(PlayFault::Piston { piston })?;
        let positions = positions(&self.chest);
        self.pistons.store(piston, positions);
        Ok(0)
    }

    /// Turns a piston's knobs to what it stores.
    pub fn recall(&mut self, piston: usize) -> Result<u32, PlayFault>
        ensures follows { Follows C.Chest.meaning C.Chest.settled self.old (Call.Recall piston) result self.new }
        ensures same { OnErr result (self.new ≡ self.old) }
    {
        let scope = self
            .pistons
            .scope(piston)
            .ok_or(PlayFault::Piston { piston })?;
        let frame = self
            .pistons
            .frame(piston)
            .ok_or(PlayFault::NeverCaptured { piston })?;
        recall_knobs(&mut self.chest, &self.knobs, scope, &frame);
        Ok(self.chest.strobe())
    }

    /// Turns every defined knob home.
    pub fn cancel(&mut self) -> u32
        ensures { Follows C.Chest.meaning C.Chest.settled self.old Call.Cancel (Ok result) self.new }
    {
        home_knobs(&mut self.chest, &self.knobs);
        self.chest.strobe()
    }
}

impl<C: Sender> Console<C> {
    /// Has the chest write to a buffer what its receiver is to be told, and answers how many bytes it wrote. It is no call
    /// of the record: whatever model the console stood as, it stands as that.
    pub fn send(&mut self, buffer: &mut [u8]) -> usize
        ensures law { Sends C.Sender.sends self.old buffer.old result buffer.new self.new }
        ensures same { C.Chest.meaning (chest_of self.new) ≡ C.Chest.meaning (chest_of self.old) }
        ensures stands { StillTracks C.Chest.meaning C.Chest.settled self.old self.new }
        ensures links { Linked C.Chest.meaning C.Chest.settled self.old self.new }
        ensures bound { result ≤ length buffer.new }
    {
        self.chest.send(buffer)
    }
}
