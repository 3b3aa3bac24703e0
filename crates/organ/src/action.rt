//! What a message of the MIDI line asks of the console.
ghost use Rattle.std.specs.Prelude.{◌≡◌};
ghost use Rattle.organ.specs.Action.{action_of, key_action, low_note, note_setting, note_action, controller_action};

use console::call::Call;
use console::fault::PlayFault;
use midi::Message;

// The channel that is no division: its messages are for knobs and pistons.
const SETTINGS: u8 = 15;
// The note of key 0.
const LOWEST_NOTE: u8 = 36;
// The note of channel 15 that cancels.
const CANCEL_NOTE: u8 = 127;

const SUSTAIN: u8 = 64;

const CLEAR: u8 = 123;

// A controller is a byte, as the number of knobs is.
const KNOBS: u8 = book::KNOBS as u8;

/// Three cases, so neither an option nor a result.
#[derive(Clone, Copy, Debug, PartialEq)]
pub enum Action {
    Nothing,
    Perform(Call),
    /// A note below that of key 0.
    LowNote { division: usize, note: usize },
}

// The fault of a note below that of key 0. No key has this note, so the fault carries the note itself.
pub(crate) fn low_note(division: usize, note: usize) -> PlayFault
    ensures { result ≡ low_note division note }
{
    PlayFault::Key {
        division,
        key: note,
    }
}

// A note of a division: velocity 0 lifts its key, and another presses it.
fn key_action(division: u8, note: u8, velocity: u8) -> Action
    ensures { result ≡ key_action division note velocity }
{
    let division = usize::from(division);
    let Some(key) = note.checked_sub(LOWEST_NOTE) else {
        return Action::LowNote {
            division,
            note: usize::from(note),
        };
    };
    let key = usize::from(key);
    Action::Perform(match velocity {
        0 => Call::Lift { division, key },
        _ => Call::Press { division, key },
    })
}

// A note-on of channel 15.
fn note_setting(note: u8, velocity: u8) -> Action
    ensures { result ≡ note_setting note velocity }
{
    match (note, velocity) {
        (_, 0) => Action::Nothing,
        (CANCEL_NOTE, _) => Action::Perform(Call::Cancel),
        _ => Action::Perform(Call::Capture {
            piston: usize::from(note),
        }),
    }
}

fn controller_action(channel: u8, controller: u8, value: u8) -> Action
    ensures { result ≡ controller_action channel controller value }
{
    let division = usize::from(channel);
    match (channel, controller) {
        (SETTINGS, 0..KNOBS) => Action::Perform(Call::Turn {
            knob: usize::from(controller),
            position: usize::from(value),
        }),
        (SETTINGS, _) => Action::Nothing,
        (_, SUSTAIN) => Action::Perform(Call::Sustain {
            division,
            on: value >= 64,
        }),
        (_, CLEAR) => Action::Perform(Call::Clear { division }),
        _ => Action::Nothing,
    }
}

// A note-on or note-off: with velocity 0 it is a note-off.
fn note_action(channel: u8, note: u8, velocity: u8) -> Action
    ensures { result ≡ note_action channel note velocity }
{
    if channel == SETTINGS {
        note_setting(note, velocity)
    } else {
        key_action(channel, note, velocity)
    }
}

impl From<Message> for Action {
    ghost from_gives = { λ message action. action ≡ action_of message };

    fn from(message: Message) -> Action {
        match message {
            Message::NoteOn {
                channel,
                note,
                velocity,
            } => note_action(channel, note, velocity),
            Message::NoteOff { channel, note, .. } => note_action(channel, note, 0),
            Message::Controller {
                channel,
                controller,
                value,
            } => controller_action(channel, controller, value),
            Message::Program {
                channel: SETTINGS,
                program,
            } => Action::Perform(Call::Recall {
                piston: usize::from(program),
            }),
            Message::Program { .. }
            | Message::KeyPressure { .. }
            | Message::ChannelPressure { .. }
            | Message::Bend { .. } => Action::Nothing,
        }
    }
}
