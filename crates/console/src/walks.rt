//! Walks over the knobs of a chest.
ghost use Rattle.std.specs.Prelude.{◌≡◌, ℕ, ◌<◌, ◌&&◌, Some, None, Option};
ghost use Rattle.chest.specs.Meaning.{Becomes};
ghost use Rattle.console.specs.KnobTable.{home_of, homes_of};
ghost use Rattle.console.specs.Walks.{Turns, knobs_turned, frame_in};

use crate::knob_table::KnobTable;
use chest::chest::{Chest, KNOBS};
use fittings::Scope;

// Turns each knob to where a rule says, and leaves those of which it says nothing.
fn turn_knobs<C: Chest, F: Fn(usize) -> Option<usize>>(chest: &mut C, to: F)
    requires { F.IsAlwaysCallable to }
    ensures { (panel : ℕ → Option ℕ) → Turns (F.post to) panel → Becomes C.meaning C.settled chest.old chest.new (knobs_turned (C.meaning chest.old) panel 64) }
{
    for knob in 0..KNOBS {
        if let Some(position) = to(knob) {
            let _ = chest.turn(knob, position);
        }
    }
}

// Turns each knob home, and each that is undefined to 0.
pub(crate) fn reset_knobs<C: Chest>(chest: &mut C, knobs: &KnobTable)
    ensures { Becomes C.meaning C.settled chest.old chest.new (knobs_turned (C.meaning chest.old) (λ k. Some (home_of knobs.now k)) 64) }
{
    turn_knobs(chest, |knob| Some(knobs.home(knob)));
}

// Turns each knob that is defined home.
pub(crate) fn home_knobs<C: Chest>(chest: &mut C, knobs: &KnobTable)
    ensures { Becomes C.meaning C.settled chest.old chest.new (knobs_turned (C.meaning chest.old) (homes_of knobs.now) 64) }
{
    turn_knobs(chest, |knob| knobs.steps(knob).map(|_| knobs.home(knob)));
}

// Turns each knob of a scope that is defined to its position in a frame.
pub(crate) fn recall_knobs<C: Chest>(
    chest: &mut C,
    knobs: &KnobTable,
    scope: Scope,
    frame: &[u8; KNOBS],
)
    ensures { ((k n : ℕ) → frame_in knobs.now scope frame.now k ≡ Some n → n < 16) → Becomes C.meaning C.settled chest.old chest.new (knobs_turned (C.meaning chest.old) (frame_in knobs.now scope frame.now) 64) }
{
    turn_knobs(chest, |knob| recalled(knobs, scope, frame, knob));
}

// Where a piston of this scope turns a knob, if it takes it.
fn recalled(knobs: &KnobTable, scope: Scope, frame: &[u8; KNOBS], knob: usize) -> Option<usize>
    ensures { result ≡ frame_in knobs.now scope frame.now knob }
{
    let scope = usize::from(scope.lowest)..=usize::from(scope.highest);
    if knobs.steps(knob).is_some() && scope.contains(&knob) {
        frame.get(knob).map(|position| usize::from(*position))
    } else {
        None
    }
}
