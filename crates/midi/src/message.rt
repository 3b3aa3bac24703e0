//! A channel message: what a MIDI line says, with its channel and its values.

/// On a MIDI line channels are 0 to 15 and values 0 to 127; a bend's value is 0 to 16,383, at rest 8,192.
#[derive(Clone, Copy, Debug, PartialEq)]
pub enum Message {
    NoteOff {
        channel: u8,
        note: u8,
        velocity: u8,
    },
    NoteOn {
        channel: u8,
        note: u8,
        velocity: u8,
    },
    KeyPressure {
        channel: u8,
        note: u8,
        pressure: u8,
    },
    Controller {
        channel: u8,
        controller: u8,
        value: u8,
    },
    Program {
        channel: u8,
        program: u8,
    },
    ChannelPressure {
        channel: u8,
        pressure: u8,
    },
    Bend {
        channel: u8,
        value: u16,
    },
}
