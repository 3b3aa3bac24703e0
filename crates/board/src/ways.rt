//! The numbers of ways to the places below: walks over the wires that keep them right, and the chest below with them, where a
//! key is put or a knob turns.
ghost use Rattle.std.specs.Prelude.{◌≡◌, ℕ, ◌<◌, not, slice_index};
ghost use Rattle.chest.specs.Setting.{knob_of, position_of};
ghost use Rattle.coupling.specs.Layout.{Reaches};
ghost use Rattle.wires.specs.Wires.{span};
ghost use Rattle.wires.specs.Wired.{with_key, with_knob};
ghost use Rattle.board.specs.Wiring.{wired};
ghost use Rattle.board.specs.Swing.{starts};
ghost use Rattle.board.specs.Counts.{at_place, Exact, Fits, Moves, Room, one_at};

use crate::swing::Swing;
use crate::turn::Turn;
use crate::wiring::{ALL_PLACES, Wiring};
use chest::chest::Chest;
use chest::place::Place;
use wires::lead::Lead;

// Place p of row r has number 128 × r + p.
#[derive(Drop)]
pub(crate) struct Ways {
    pub table: [u8; ALL_PLACES],
}

impl Ways {
    ghost use Rattle.board.specs.Ways.{Keeps};

    // No way to any place.
    pub(crate) fn none() -> Ways
        ensures { (k : ℕ) → slice_index result.table k ≡ 0 }
    {
        Ways {
            table: [0; ALL_PLACES],
        }
    }

    // One way more to a place, or one less; answers how many there are then.
    fn count(&mut self, at: Place, swing: Swing) -> u8
        requires { Fits (starts swing) (at_place self.old.table at.row at.place) 1 }
        ensures value { result ≡ at_place self.new.table at.row at.place }
        ensures moves { Moves (starts swing) self.old.table self.new.table (one_at at.row at.place) }
    {
        let ways = &mut self.table[at.index()];
        match swing {
            Swing::Starts => *ways += 1,
            Swing::Stops => *ways -= 1,
        }
        *ways
    }

    // The same, and the first way puts the place on below, the last one off.
    fn bump<C: Chest>(&mut self, below: &mut C, at: Place, swing: Swing)
        requires { Fits (starts swing) (at_place self.old.table at.row at.place) 1 }
        ensures moves { Moves (starts swing) self.old.table self.new.table (one_at at.row at.place) }
        ensures keeps { (reach : Reaches) → at.place < reach at.row → Keeps C.Chest.meaning C.Chest.settled reach self.old.table below.old self.new.table below.new }
    {
        match (swing, self.count(at, swing)) {
            (Swing::Starts, 1) => below.put(at, true),
            (Swing::Stops, 0) => below.put(at, false),
            _ => {}
        }
    }

    // The ways that a key gives or takes, once the register has it put on or off.
    pub(crate) fn swing_key<C: Chest>(
        &mut self,
        below: &mut C,
        wiring: &Wiring,
        key: Place,
        swing: Swing,
    )
        requires exact { Exact self.old.table (wired wiring.now) }
        requires other { (wired wiring.now).register key.row key.place ≡ not (starts swing) }
        ensures exact { Exact self.new.table (with_key (wired wiring.now) key.row key.place (starts swing)) }
        ensures keeps { Keeps C.Chest.meaning C.Chest.settled (wired wiring.now).below self.old.table below.old self.new.table below.new }
    {
        let mut rest = wiring.wires_from(key).rest();
        while let Some(number) = rest.pop_first() {
            let at = wiring.outlet(wiring.lead(number), key);
            self.bump(below, at, swing);
        }
    }

    // The ways that the set keys of one wire are.
    fn swing_wire<C: Chest>(&mut self, below: &mut C, wiring: &Wiring, w: Lead, swing: Swing)
        requires { Room (starts swing) self.old.table (λ b q. span (wired wiring.now).below (wired wiring.now).register b q w) }
        ensures moves { Moves (starts swing) self.old.table self.new.table (λ b q. span (wired wiring.now).below (wired wiring.now).register b q w) }
        ensures keeps { Keeps C.Chest.meaning C.Chest.settled (wired wiring.now).below self.old.table below.old self.new.table below.new }
    {
        let mut rest = wiring.desk.row(usize::from(w.from)).rest();
        while let Some(key) = rest.pop_first() {
            if let Some(at) = wiring.lands(w, key) {
                self.bump(below, at, swing);
            }
        }
    }

    // The ways that the wires of a knob give and take, once that knob turns.
    pub(crate) fn swing_knob<C: Chest>(&mut self, below: &mut C, wiring: &Wiring, turn: Turn)
        requires exact { Exact self.old.table (wired wiring.now) }
        requires was { (wired wiring.now).panel (knob_of turn.to) ≡ turn.from }
        ensures exact { Exact self.new.table (with_knob (wired wiring.now) (knob_of turn.to) (position_of turn.to)) }
        ensures keeps { Keeps C.Chest.meaning C.Chest.settled (wired wiring.now).below self.old.table below.old self.new.table below.new }
    {
        let mut rest = wiring.waiting.of(turn.to.knob()).rest();
        while let Some(number) = rest.pop_first() {
            let w = *wiring.lead(number);
            if let Some(swing) = turn.swing(w) {
                self.swing_wire(below, wiring, w, swing);
            }
        }
    }
}
