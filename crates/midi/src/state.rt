//! What a reader keeps between two bytes, and what a status byte and data bytes make of it.
ghost use Rattle.std.specs.Prelude.{◌≡◌, ◌≤◌};
ghost use Rattle.midi.specs.State.{short_message, long_message, running, step};

use crate::message::Message;

// Bytes below this one are data, the others status bytes.
pub(crate) const FIRST_STATUS: u8 = 0x80;

// The status bytes from this one on are real-time.
pub(crate) const FIRST_REAL_TIME: u8 = 0xf8;

// The kinds of message that have one data byte.
#[derive(Clone, Copy)]
pub(crate) enum Short {
    Program,
    ChannelPressure,
}

// The kinds of message that have two.
#[derive(Clone, Copy)]
pub(crate) enum Long {
    NoteOff,
    NoteOn,
    KeyPressure,
    Controller,
    Bend,
}

// What a reader is in the middle of; each number is a channel, a second one a data byte.
#[derive(Clone, Copy)]
pub(crate) enum State {
    // no running status: data bytes are ignored
    Idle,
    // a running status of one data byte a message
    OneByte(Short, u8),
    // a running status of two data bytes a message, between two messages
    TwoBytes(Long, u8),
    // the same, with the first data byte of a message
    Half(Long, u8, u8),
}

impl State {
    // One byte: the message that it ends, and the state after it.
    pub(crate) fn feed(&mut self, byte: u8) -> Option<Message>
        ensures value { (result, self.new) ≡ step self.old byte }
    {
        // what a byte does depends on the reader's state and the byte together
        match (*self, byte) {
            (_, FIRST_REAL_TIME..) => None,
            (_, FIRST_STATUS..) => {
                *self = State::running(byte);
                None
            }
            (State::Idle, _) => None,
            (State::OneByte(kind, channel), _) => Some(kind.message(channel, byte)),
            (State::TwoBytes(kind, channel), _) => {
                *self = State::Half(kind, channel, byte);
                None
            }
            (State::Half(kind, channel, first), _) => {
                *self = State::TwoBytes(kind, channel);
                Some(kind.message(channel, first, byte))
            }
        }
    }

    // The state after a status byte that is not real-time.
    fn running(status: u8) -> State
        requires { 0x80 ≤ status }
        ensures value { result ≡ running status }
    {
        match status {
            0x80..=0x8f => State::TwoBytes(Long::NoteOff, status - 0x80),
            0x90..=0x9f => State::TwoBytes(Long::NoteOn, status - 0x90),
            0xa0..=0xaf => State::TwoBytes(Long::KeyPressure, status - 0xa0),
            0xb0..=0xbf => State::TwoBytes(Long::Controller, status - 0xb0),
            0xc0..=0xcf => State::OneByte(Short::Program, status - 0xc0),
            0xd0..=0xdf => State::OneByte(Short::ChannelPressure, status - 0xd0),
            0xe0..=0xef => State::TwoBytes(Long::Bend, status - 0xe0),
            _ => State::Idle,
        }
    }
}

impl Short {
    fn message(self, channel: u8, value: u8) -> Message
        ensures value { result ≡ short_message self channel value }
    {
        match self {
            Short::Program => Message::Program {
                channel,
                program: value,
            },
            Short::ChannelPressure => Message::ChannelPressure {
                channel,
                pressure: value,
            },
        }
    }
}

impl Long {
    fn message(self, channel: u8, first: u8, second: u8) -> Message
        ensures value { result ≡ long_message self channel first second }
    {
        match self {
            Long::NoteOff => Message::NoteOff {
                channel,
                note: first,
                velocity: second,
            },
            Long::NoteOn => Message::NoteOn {
                channel,
                note: first,
                velocity: second,
            },
            Long::KeyPressure => Message::KeyPressure {
                channel,
                note: first,
                pressure: second,
            },
            Long::Controller => Message::Controller {
                channel,
                controller: first,
                value: second,
            },
            Long::Bend => Message::Bend {
                channel,
                value: u16::from(first) + 128 * u16::from(second),
            },
        }
    }
}
