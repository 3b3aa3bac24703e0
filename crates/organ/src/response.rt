//! A message of the MIDI line, answered: the call that it asks for is done, and its line is added to the listing.
ghost use Rattle.std.specs.Prelude.{◌≡◌, true, length, take, is_ok, IfErr, OnErr, OnOk};
ghost use Rattle.console.specs.Model.{Setup, Model};
ghost use Rattle.console.specs.Tracks.{Tracks};
ghost use Rattle.organ.specs.declared.action.Action.TheVariants.{Nothing};
ghost use Rattle.organ.specs.Action.{action_of};
ghost use Rattle.organ.specs.Answered.{Answered};
ghost use Rattle.organ.specs.Responses.{until, Responds, LacksRoomAt};
ghost use Rattle.organ.specs.Line.{HasRoom, LacksRoom, OneLineMore};

use crate::action::{Action, low_note};
use crate::line::{LONGEST_LINE, Line};
use crate::out_of_memory::OutOfMemory;
use chest::chest::Chest;
use console::console::Console;
use midi::Message;
use std::alloc::AllocError;

/// Does what the message asks for. Room for its line is made first: where there is none, nothing is done.
pub fn respond<C: Chest>(
    console: &mut Console<C>,
    message: Message,
    listing: &mut Vec<u8>,
) -> Result<(), AllocError>
    ensures answers { OnOk result (Responds C.Chest.meaning C.Chest.settled (action_of message) console.old console.new listing.old.items listing.new.items) }
    ensures same { OnErr result ((console.new ≡ console.old) × (listing.new.items ≡ listing.old.items)) }
    ensures succeeds { HasRoom listing.old 1 → is_ok result ≡ true }
    ensures silent { action_of message ≡ Nothing → is_ok result ≡ true }
    ensures full { OnErr result (LacksRoom listing.new) }
    ensures bound { OneLineMore listing.old listing.new }
{
    match Action::from(message) {
        Action::Nothing => Ok(()),
        Action::Perform(call) => {
            listing.reserve(LONGEST_LINE)?;
            Line::from(console.perform(call)).add_to(listing)
        }
        Action::LowNote { division, note } => {
            Line::Fault(low_note(division, note)).add_to(listing)
        }
    }
}

/// Answers messages one after the other, while the listing has room or memory for a line more.
pub fn respond_all<C: Chest>(
    console: &mut Console<C>,
    messages: &[Message],
    listing: &mut Vec<u8>,
) -> Result<(), OutOfMemory>
    ensures answers { (s : Setup) (p : Model) → Tracks C.Chest.meaning C.Chest.settled console.old s p → Answered C.Chest.meaning C.Chest.settled console.old console.new s p (take (until result (length messages.now)) messages.now) listing.old.items listing.new.items }
    ensures succeeds { HasRoom listing.old (length messages.now) → is_ok result ≡ true }
    ensures full { IfErr result (λ e. LacksRoomAt messages.now e.answered listing.new) }
{
    for (answered, message) in messages.iter().enumerate() {
        respond(console, *message, listing).map_err(|_| OutOfMemory { answered })?;
    }
    Ok(())
}
