//! The keys that are down and sustained, and the divisions' sustains.
ghost use Rattle.std.specs.Prelude.{◌≡◌, ℕ, ◌<◌, false, None, if◌then◌else◌};
ghost use Rattle.console.specs.Keys.{sounding, no_keys, pressed, lifted, sustain_begun, sustain_ended, cleared};
ghost use Rattle.console.specs.KeyTable.{key_at, keys_of};

use chest::chest::{PLACES, ROWS};
use chest::place::Place;
use chest::walks::Rule;

// The keys that are down, and those that the sustain holds while it is on.
#[derive(Clone, Copy)]
struct Division {
    down: [bool; PLACES],
    sustained: Option<[bool; PLACES]>,
}

impl Division {
    // No key is down and the sustain is off.
    fn silent() -> Division
        ensures down { (k : ℕ) → key_at result.down k ≡ false }
        ensures sustain { result.sustained ≡ None }
    {
        Division {
            down: [false; PLACES],
            sustained: None,
        }
    }
}

#[derive(Drop)]
pub(crate) struct KeyTable {
    divisions: [Division; ROWS],
}

impl KeyTable {
    pub(crate) fn new() -> KeyTable
        ensures { keys_of result ≡ no_keys }
    {
        KeyTable {
            divisions: [Division::silent(); ROWS],
        }
    }

    pub(crate) fn is_down(&self, at: Place) -> bool
        ensures { result ≡ (keys_of self.now).down at.row at.place }
    {
        self.divisions[at.row].down[at.place]
    }

    pub(crate) fn press(&mut self, at: Place)
        ensures { keys_of self.new ≡ pressed (keys_of self.old) at.row at.place }
    {
        let division = &mut self.divisions[at.row];
        division.down[at.place] = true;
        if let Some(held) = &mut division.sustained {
            held[at.place] = true;
        }
    }

    pub(crate) fn lift(&mut self, at: Place)
        ensures { keys_of self.new ≡ lifted (keys_of self.old) at.row at.place }
    {
        self.divisions[at.row].down[at.place] = false;
    }

    // A sustain that begins holds the keys that are down; one that is on goes on as it was.
    pub(crate) fn switch_sustain(&mut self, division: usize, on: bool)
        requires { division < 16 }
        ensures { keys_of self.new ≡ (if on then sustain_begun (keys_of self.old) division else sustain_ended (keys_of self.old) division) }
    {
        let Division { down, sustained } = self.divisions[division];
        self.divisions[division].sustained = if on { sustained.or(Some(down)) } else { None };
    }

    pub(crate) fn clear(&mut self, division: usize)
        requires { division < 16 }
        ensures { keys_of self.new ≡ cleared (keys_of self.old) division }
    {
        self.divisions[division] = Division::silent();
    }
}

// What sounds is set in the chest.
impl Rule for KeyTable {
    ghost set = { λ keys. sounding (keys_of keys) };

    fn sets(&self, at: Place) -> bool {
        let division = &self.divisions[at.row];
        let sustained = division
            .sustained
            .as_ref()
            .is_some_and(|held| held[at.place]);
        division.down[at.place] || sustained
    }
}
