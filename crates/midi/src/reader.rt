//! The reader of a MIDI line.
ghost use Rattle.std.specs.Prelude.{◌≡◌, true};
ghost use Rattle.midi.specs.State.{sound};

use crate::message::Message;
use crate::state::State;
use std::alloc::AllocError;

/// Reads the bytes of a MIDI line as they come.
#[derive(Drop)]
pub struct Reader {
    state: State,
    // a channel is below 16, and a byte that is held is a data byte
    ghost ok: { sound state ≡ true },
}

impl Reader {
    ghost use Rattle.std.specs.Prelude.{ℕ, ◌+◌, ◌<◌, ◌≤◌, List, [], ◌∷◌, ◌++◌, length, IfSome, is_ok, if◌then◌else◌, vec_len, vec_capacity, MatchResult};
    ghost use Rattle.std.specs.Option.{option_to_list};
    ghost use Rattle.std.specs.List.{AllByRecursion};
    ghost use Rattle.midi.specs.Reader.{state_of};
    ghost use Rattle.midi.specs.Reading.{reading, InRange};
    ghost use Rattle.midi.specs.State.{step, handed, state_after, HasRead, Feeds, CaughtUp};

    /// A reader that has read nothing.
    pub fn new() -> Reader
        ensures value { HasRead (state_of result) [] }
    {
        Reader { state: State::Idle }
    }

    /// Reads one byte, and hands out the message that it ends.
    pub fn feed(&mut self, byte: u8) -> Option<Message>
        ensures value { (result, state_of self.new) ≡ step (state_of self.old) byte }
        ensures line { (line : List ℕ) × HasRead (state_of self.old) line }
        ensures range { IfSome result InRange }
        ensures law { Feeds (state_of self.old) (byte ∷ []) (option_to_list result) (state_of self.new) }
    {
        self.state.feed(byte)
    }

    /// Reads the next bytes of the MIDI line and adds their messages to `out`. Room for one message a byte is made first, so
    /// that where there is no memory nothing is read and nothing is lost.
    pub fn feed_all(&mut self, bytes: &[u8], out: &mut Vec<Message>) -> Result<(), AllocError>
        ensures items { out.new.items ≡ (if is_ok result then out.old.items ++ handed (state_of self.old) bytes.now else out.old.items) }
        ensures after { state_of self.new ≡ (if is_ok result then state_after (state_of self.old) bytes.now else state_of self.old) }
        ensures cases { MatchResult result (λ _. Feeds (state_of self.old) bytes.now (handed (state_of self.old) bytes.now) (state_of self.new)) (λ _. vec_capacity out.old < vec_len out.old + length bytes.now) }
        ensures succeeds { vec_len out.old + length bytes.now ≤ vec_capacity out.old → is_ok result ≡ true }
        ensures range { is_ok result ≡ true → AllByRecursion InRange (handed (state_of self.old) bytes.now) }
        ensures whole { is_ok result ≡ true → HasRead (state_of self.old) [] → out.new.items ≡ out.old.items ++ reading bytes.now }
        ensures law { is_ok result ≡ true → (old : List Message) (line : List ℕ) → CaughtUp old line (state_of self.old) out.old.items → CaughtUp old (line ++ bytes.now) (state_of self.new) out.new.items }
    {
        out.reserve(bytes.len())?;
        // a loop, since `extend` does not promise that the room is enough, nor how its closure leaves the reader
        for byte in bytes {
            if let Some(message) = self.feed(*byte) {
                out.push_reserved(message);
            }
        }
        Ok(())
    }
}
