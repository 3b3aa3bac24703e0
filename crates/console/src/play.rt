//! Whole runs of calls, and the law of their record.
ghost use Rattle.std.specs.Prelude.{◌≡◌, ◌+◌, ◌≤◌, true, List, ◌++◌, length, is_ok, IfOk, vec_len, vec_capacity, OnErr};
ghost use Rattle.console.specs.Record.{Answer, EveryEntry};
ghost use Rattle.console.specs.Plays.{Plays, HostsLaw, Touches};
ghost use Rattle.console.specs.KeyLaw.{KeyLaw};
ghost use Rattle.console.specs.KnobLaw.{KnobLaw};
ghost use Rattle.console.specs.RefusalLaw.{RefusalLaw};

use crate::call::Call;
use crate::console::Console;
use crate::fault::PlayFault;
use crate::knob_table::KnobTable;
use crate::piston_table::PistonTable;
use chest::chest::Chest;
use std::alloc::AllocError;

/// Makes a console, does each call and adds each answer to the list. Where the list has room nothing is allocated;
/// where room for all answers cannot be had, nothing is done.
pub fn play<C: Chest + Drop>(
    chest: C,
    knobs: KnobTable,
    pistons: PistonTable,
    calls: &[Call],
    answers: &mut Vec<Result<u32, PlayFault>>,
) -> Result<Console<C>, AllocError>
    ensures plays { IfOk result (λ console. (given : List Answer) × (answers.new.items ≡ answers.old.items ++ given) × Plays C.Chest.meaning C.Chest.settled chest knobs pistons calls.now given console) }
    ensures same { OnErr result (answers.new.items ≡ answers.old.items) }
    ensures succeeds { vec_len answers.old + length calls.now ≤ vec_capacity answers.old → is_ok result ≡ true }
{
    answers.reserve(calls.len())?;
    let mut console = Console::new(chest, knobs, pistons);
    // a loop, since `extend` does not promise that it succeeds where there is room, nor how its closure leaves the console
    for call in calls {
        answers.push_reserved(console.perform(*call));
    }
    Ok(console)
}

/// The law for a host that makes its calls one by one, and what it says at any one entry. What it says of keys, knobs, pistons,
/// refusals and strobes by the calls of a record alone.
pub fn record_law<C: Chest>()
    ensures hosts { HostsLaw C.Chest.meaning C.Chest.settled }
    ensures entries { EveryEntry }
    ensures touches { Touches C.Chest.meaning C.Chest.settled }
    ensures keys { KeyLaw }
    ensures knobs { KnobLaw }
    ensures refusals { RefusalLaw }
{}
