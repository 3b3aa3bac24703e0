//! Which wires wait for a knob, so that a relay walks no wire that a turn does not touch.
ghost use Rattle.std.specs.Prelude.{◌≡◌, ℕ, ◌<◌, ◌==◌, cond, ◌&&◌, true, length};
ghost use Rattle.sets.specs.Numbers.{nothing};
ghost use Rattle.sets.specs.NumberSet.{members};
ghost use Rattle.board.specs.Among.{waits};

use chest::chest::KNOBS;
use sets::NumberSet;
use wires::lead::Lead;

// By knob, the numbers of the wires that wait for it.
#[derive(Clone, Copy)]
pub(crate) struct Waiting {
    pub table: [NumberSet; KNOBS],
    ghost manual: { length table ≡ 64 },
}

impl Waiting {
    ghost use Rattle.board.specs.Waiting.{waiting_of};

    pub(crate) fn none() -> Waiting
        ensures { (k : ℕ) → waiting_of result k ≡ nothing }
    {
        Waiting {
            table: [NumberSet::none(); KNOBS],
        }
    }

    pub(crate) fn of(&self, knob: usize) -> NumberSet
        requires { knob < 64 }
        ensures { members result ≡ waiting_of self.now knob }
    {
        self.table[knob]
    }

    // Adds a wire by its number.
    pub(crate) fn add(&mut self, number: usize, w: Lead)
        requires { number < 128 }
        ensures { (k i : ℕ) → k < 64 → waiting_of self.new k i ≡ cond (i == number && waits k w) true (waiting_of self.old k i) }
    {
        let Some(setting) = w.setting else {
            return;
        };
        let knob = usize::from(setting.knob);
        if knob < KNOBS {
            self.table[knob] = self.table[knob].with(number, true);
        }
    }
}
