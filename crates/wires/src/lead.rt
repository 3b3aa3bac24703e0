//! A wire as a board keeps it.
ghost use Rattle.std.specs.Prelude.{◌≡◌, ◌<◌, ◌&&◌, if◌then◌else◌, nat_le, None, IfSome, IfOk};
ghost use Rattle.std.specs.Option.{option_map};
ghost use Rattle.chest.specs.Positions.{positions_of};
ghost use Rattle.chest.specs.Reaches.{reaches_of};
ghost use Rattle.coupling.specs.KeyDesk.{own};
ghost use Rattle.wires.specs.Fitting.{setting_of, checked, wire_checks, lead_of, to_reach};
ghost use Rattle.wires.specs.Wires.{landing, live};
ghost use Rattle.wires.specs.Offered.{LeadsAlike};
ghost use Rattle.wires.specs.FirstFault.{WireAnswered};

use crate::fault::{BoardFault, RowRefused};
use chest::chest::{Chest, POSITIONS};
use chest::place::Place;
use chest::positions::Positions;
use chest::reaches::Reaches;
use coupling::key_desk::KeyDesk;
use fittings::{SHIFTS, Wire};

// The knob of an offered wire that is always live: a book writes a number there, and what it means is the board's to say.
const ALWAYS: u16 = 64;

/// The knob that a wire waits for, and the position at which it is live. Not the chest's `Setting`, whose type says that
/// there is such a position: the definitions write this one down for any wire that is offered.
#[derive(Clone, Copy, Debug, Default, PartialEq)]
pub struct Wait {
    pub knob: u8,
    pub position: u8,
}

impl Wait {
    // When the wire is live: with knob 64 always. The numbers were checked, so narrowing loses nothing.
    fn of(wire: Wire) -> Option<Wait>
        requires { (wire.knob < 65) × (wire.position < 16) }
        ensures { result ≡ setting_of wire }
    {
        if wire.knob == ALWAYS {
            return None;
        }
        Some(Wait {
            knob: wire.knob as u8,
            position: wire.position as u8,
        })
    }
}

/// A wire as a board keeps it. The shift is raised by 96, so that key + raise is place + 96. A list of fixed capacity asks for
/// a default.
#[derive(Clone, Copy, Debug, Default, PartialEq)]
pub struct Lead {
    pub from: u8,
    pub lowest: u8,
    pub highest: u8,
    pub to: u8,
    pub raise: u8,
    /// None where the wire is always live.
    pub setting: Option<Wait>,
}

impl Lead {
    // How many places the to-row of a wire has below.
    fn to_reach<C: Chest>(wire: Wire, below: &C) -> Result<usize, RowRefused>
        ensures { result ≡ to_reach (C.Chest.meaning below.now).reach wire }
    {
        below
            .reach(usize::from(wire.to))
            .map_err(|fault| RowRefused {
                from: wire.from,
                to: wire.to,
                fault,
            })
    }

    /// The wire as a board with this key desk keeps it over this chest, or why it takes none such.
    pub fn of<C: Chest>(wire: Wire, desk: &KeyDesk, below: &C) -> Result<Lead, BoardFault>
        ensures answer { result ≡ checked (wire_checks (own desk.now) (C.Chest.meaning below.now).reach wire) (lead_of wire) }
        ensures law { WireAnswered (own desk.now) (C.Chest.meaning below.now).reach wire result }
        ensures leads { IfOk result (λ lead. LeadsAlike lead wire) }
    {
        let Wire { from, to, knob, .. } = wire;
        let reach = desk.own_reach(usize::from(from));
        if wire.lowest > wire.highest || usize::from(wire.highest) >= reach {
            return Err(BoardFault::Keys { from, to });
        }
        if Lead::to_reach(wire, below)? == 0 {
            return Err(BoardFault::NoPlaces { from, to });
        }
        let most = i16::from(SHIFTS);
        if !(-most..=most).contains(&wire.shift) {
            return Err(BoardFault::Shift { from, to });
        }
        if knob > ALWAYS {
            return Err(BoardFault::Knob { knob });
        }
        if usize::from(wire.position) >= POSITIONS {
            return Err(BoardFault::Position { knob });
        }
        // narrowing loses nothing, since each number was checked, and `try_from` would add cases that cannot be
        Ok(Lead {
            from: from as u8,
            lowest: wire.lowest as u8,
            highest: wire.highest as u8,
            to: to as u8,
            raise: (wire.shift + most) as u8,
            setting: Wait::of(wire),
        })
    }

    /// Whether the wire is live: always where it waits for no knob, else while the knob stands where it waits.
    pub fn is_live(self, positions: &Positions) -> bool
        ensures { result ≡ live (positions_of positions.now) self }
    {
        self.setting.is_none_or(|s| positions.of(usize::from(s.knob)) == usize::from(s.position))
    }

    // Where a key would land.
    fn landing(self, below: &Reaches, key: usize) -> Option<Place>
        ensures place { option_map (λ at. at.place) result ≡ landing self.raise (reaches_of below.now self.to) key }
        ensures row { IfSome result (λ at. at.row ≡ self.to) }
    {
        let row = usize::from(self.to);
        let raised = key.checked_add(usize::from(self.raise))?;
        let place = raised.checked_sub(usize::from(SHIFTS))?;
        if place < below.of(row) {
            Some(Place { row, place })
        } else {
            None
        }
    }

    /// Where a key lands, if it is one of the wire's.
    pub fn lands(self, below: &Reaches, key: usize) -> Option<Place>
        ensures place { option_map (λ at. at.place) result ≡ (if nat_le self.lowest key && nat_le key self.highest then landing self.raise (reaches_of below.now self.to) key else None) }
        ensures row { IfSome result (λ at. at.row ≡ self.to) }
    {
        if (usize::from(self.lowest)..=usize::from(self.highest)).contains(&key) {
            self.landing(below, key)
        } else {
            None
        }
    }
}
