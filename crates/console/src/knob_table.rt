//! The knob table: the steps and the home of each knob that is defined.
ghost use Rattle.std.specs.Prelude.{◌≡◌, ℕ, ◌<◌, ◌≤◌, true, false, ◌&&◌, ◌||◌, ◌==◌, ◌≢◌, Some, None, IfSome, MatchOption, nat_le, nat_lt, slice_index, is_some, ◌↔◌};

use chest::chest::{KNOBS, POSITIONS};
use fittings::{Knob, LEAST_STEPS};

/// Each knob is undefined, of 0 steps and home 0, or has 2 to 16 steps and a home below them.
// plain arrays: a knob is looked up at every turn
#[derive(Clone, Copy)]
pub struct KnobTable {
    steps: [u8; KNOBS],
    homes: [u8; KNOBS],
    ghost each: { (k : ℕ) → ((slice_index steps k == 0 && slice_index homes k == 0) || (nat_le 2 (slice_index steps k) && (nat_le (slice_index steps k) 16 && nat_lt (slice_index homes k) (slice_index steps k)))) ≡ true },
}

impl KnobTable {
    ghost use Rattle.console.specs.KnobTable.{sound, steps_of, home_of};

    /// No knob is defined.
    pub fn new() -> KnobTable
        ensures steps { (k : ℕ) → steps_of result k ≡ None }
        ensures homes { (k : ℕ) → home_of result k ≡ 0 }
    {
        KnobTable {
            steps: [0; KNOBS],
            homes: [0; KNOBS],
        }
    }

    /// The table with one knob defined, or nothing where its number is 64 or more or it is not sound.
    pub fn with_knob(self, at: usize, knob: Knob) -> Option<KnobTable>
        ensures table { MatchOption result (nat_lt at 64 && sound knob.steps knob.home ≡ false) (λ t. (nat_lt at 64 && sound knob.steps knob.home ≡ true) × (steps_of t at ≡ Some knob.steps) × (home_of t at ≡ knob.home) × ((k : ℕ) → k ≢ at → (steps_of t k ≡ steps_of self k) × (home_of t k ≡ home_of self k))) }
        ensures defined { (is_some result ≡ true) ↔ ((at < 64) × (2 ≤ knob.steps) × (knob.steps ≤ 16) × (knob.home < knob.steps)) }
    {
        let sound = (LEAST_STEPS..=POSITIONS).contains(&usize::from(knob.steps))
            && knob.home < knob.steps;
        if at >= KNOBS || !sound {
            return None;
        }
        let KnobTable {
            mut steps,
            mut homes,
        } = self;
        steps[at] = knob.steps;
        homes[at] = knob.home;
        Some(KnobTable { steps, homes })
    }

    /// The steps of a knob that is defined.
    pub fn steps(&self, knob: usize) -> Option<usize>
        ensures value { result ≡ steps_of self.now knob }
        ensures bound { IfSome result (λ n. (knob < 64) × (n ≤ 16)) }
    {
        let steps = usize::from(*self.steps.get(knob)?);
        if steps == 0 { None } else { Some(steps) }
    }

    /// The home of a knob, 0 where it is undefined: a new console turns every knob to its home.
    pub fn home(&self, knob: usize) -> usize
        ensures value { result ≡ home_of self.now knob }
        ensures bound { result < 16 }
    {
        self.homes.get(knob).map_or(0, |home| usize::from(*home))
    }
}
