//! The wires of a relay, and the keys and knobs that drive them.
ghost use Rattle.std.specs.Prelude.{◌≡◌, ℕ, ◌<◌, ◌≤◌, ◌&&◌, true, if◌then◌else◌, nat_le, None, IfSome, length, slice_index_or};
ghost use Rattle.sets.specs.NumberSet.{members};
ghost use Rattle.coupling.specs.KeyDesk.{beneath as beneath_desk, panel as panel_of_desk};
ghost use Rattle.wires.specs.Wires.{live};
ghost use Rattle.board.specs.Among.{among, leads_from, lands, waits};
ghost use Rattle.board.specs.Outlets.{row_of, key_of};
ghost use Rattle.board.specs.Waiting.{waiting_of};

use crate::outlets::Outlets;
use crate::waiting::Waiting;
use arrayvec::ArrayVec;
use chest::chest::{PLACES, ROWS};
use chest::place::Place;
use chest::setting::Setting;
use coupling::key_desk::KeyDesk;
use fittings::SHIFTS;
use sets::NumberSet;
use wires::lead::Lead;

// How many wires a relay takes.
pub(crate) const WIRES: usize = 128;

// How many places 16 rows of 128 have: place p of row r has the number 128 × r + p.
pub(crate) const ALL_PLACES: usize = ROWS * PLACES;

// `leads` are the wires in the order of their fitting. The last three say by number which wires are live, lead somewhere from
// a key and wait for a knob. They follow from the others, and no wire is missed by looking at them alone.
#[derive(Drop)]
pub(crate) struct Wiring {
    pub desk: KeyDesk,
    pub leads: ArrayVec<Lead, WIRES>,
    pub live: NumberSet,
    pub outlets: Outlets,
    pub waiting: Waiting,
    ghost few: { length leads.items ≤ 128 },
    ghost alive: { members live ≡ among (Rattle.wires.specs.Wires.live (panel_of_desk desk)) leads.items },
    ghost leading: { (r : ℕ) → r < 16 → row_of outlets r ≡ among (leads_from r) leads.items },
    ghost landing: { (p : ℕ) → p < 128 → key_of outlets p ≡ among (lands (beneath_desk desk) p) leads.items },
    ghost waits: { (k : ℕ) → k < 64 → waiting_of waiting k ≡ among (waits k) leads.items },
}

impl Wiring {
    ghost use Rattle.std.specs.Prelude.{is_some, Some, []};
    ghost use Rattle.chest.specs.Meaning.{knob_to};
    ghost use Rattle.chest.specs.Setting.{knob_of, position_of};
    ghost use Rattle.wires.specs.Wired.{with_key, with_knob, with_wire};
    ghost use Rattle.std.specs.Option.{option_map};
    ghost use Rattle.wires.specs.Wires.{landing, outlet, spot};
    ghost use Rattle.board.specs.Among.{blank};
    ghost use Rattle.board.specs.Wiring.{wired, beneath, panel, wires};

    // No wire.
    pub(crate) fn bare(desk: KeyDesk) -> Wiring
        ensures desk { result.desk ≡ desk }
        ensures wires { wires result ≡ [] }
    {
        Wiring {
            desk,
            leads: ArrayVec::new(),
            live: NumberSet::none(),
            outlets: Outlets::none(),
            waiting: Waiting::none(),
        }
    }

    // A wire by its number.
    pub(crate) fn lead(&self, number: usize) -> &Lead
        requires { number < length (wires self.now) }
        ensures { result.now ≡ slice_index_or (wires self.now) number blank }
    {
        &self.leads[number]
    }

    // Where a key leads through a wire that leads somewhere from it.
    pub(crate) fn outlet(&self, w: &Lead, key: Place) -> Place
        requires { is_some (outlet (beneath self.now) (panel self.now) w.now key.row key.place) ≡ true }
        ensures { outlet (beneath self.now) (panel self.now) w.now key.row key.place ≡ Some (spot result) }
    {
        Place {
            row: usize::from(w.to),
            place: key.place + usize::from(w.raise) - usize::from(SHIFTS),
        }
    }

    // Where a key lands through a wire, if it is one of the wire's.
    pub(crate) fn lands(&self, w: Lead, key: usize) -> Option<Place>
        ensures place { option_map (λ at. at.place) result ≡ (if nat_le w.lowest key && nat_le key w.highest then landing w.raise (beneath self.now w.to) key else None) }
        ensures row { IfSome result (λ at. at.row ≡ w.to) }
    {
        w.lands(self.desk.below(), key)
    }

    // The live wires that lead somewhere from a key.
    pub(crate) fn wires_from(&self, key: Place) -> NumberSet
        ensures { members result ≡ among (λ w. is_some (outlet (beneath self.now) (panel self.now) w key.row key.place)) (wires self.now) }
    {
        self.outlets.of(key).both(self.live)
    }

    // The wires that are live once a knob is turned.
    pub(crate) fn live_after(&self, to: Setting) -> NumberSet
        ensures { members result ≡ among (live (knob_to (panel self.now) (knob_of to) (position_of to))) (wires self.now) }
    {
        let mut positions = *self.desk.positions();
        positions.turn(to);
        let mut live = self.live;
        let mut rest = self.waiting.of(to.knob()).rest();
        while let Some(number) = rest.pop_first() {
            live = live.with(number, self.lead(number).is_live(&positions));
        }
        live
    }

    pub(crate) fn put(&mut self, at: Place, on: bool)
        requires { at.place < (wired self.old).reach at.row }
        ensures { wired self.new ≡ with_key (wired self.old) at.row at.place on }
    {
        self.desk.put(at, on);
    }

    pub(crate) fn turn(&mut self, to: Setting)
        ensures { wired self.new ≡ with_knob (wired self.old) (knob_of to) (position_of to) }
    {
        self.live = self.live_after(to);
        self.desk.turn(to);
    }

    pub(crate) fn add(&mut self, lead: Lead)
        requires { length (wired self.old).wires < 128 }
        ensures { wired self.new ≡ with_wire (wired self.old) lead }
    {
        let number = self.leads.len();
        self.live = self.live.with(number, lead.is_live(self.desk.positions()));
        self.outlets.add(number, lead, self.desk.below());
        self.waiting.add(number, lead);
        self.leads.push(lead);
    }
}
