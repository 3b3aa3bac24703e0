//! Lines with the messages that a reader finds on them.
#![tactic(auto)]

#[cfg(test)]
mod tests {
    use midi::{Message, Reader};
    use std::alloc::Global;
    use std::process::Abort;
    use std::test::Fail;

    // The line gives just these messages, whole and cut in two at every place.
    fn reads(rt: &impl Abort, heap: Global, line: &[u8], expected: &[Message]) -> Result<(), Fail> {
        let mut whole = Vec::new(heap);
        Reader::new().feed_all(line, &mut whole)?;
        assert_eq!(rt; whole.as_slice(), expected);
        for cut in 0..line.len() {
            let (front, rest) = line.split_at(cut);
            let mut reader = Reader::new();
            let mut out = Vec::new(heap);
            reader.feed_all(front, &mut out)?;
            reader.feed_all(rest, &mut out)?;
            assert_eq!(rt; out.as_slice(), expected);
        }
        Ok(())
    }

    fn on(note: u8, velocity: u8) -> Message {
        Message::NoteOn {
            channel: 0,
            note,
            velocity,
        }
    }

    fn off(note: u8, velocity: u8) -> Message {
        Message::NoteOff {
            channel: 0,
            note,
            velocity,
        }
    }

    fn program(program: u8) -> Message {
        Message::Program {
            channel: 2,
            program,
        }
    }

    fn bend(channel: u8, value: u16) -> Message {
        Message::Bend { channel, value }
    }

    #[test]
    fn kinds_and_channels(rt: HostRuntime) -> Result<(), Fail> {
        let line = [
            0x8f, 0x24, 0x40, 0x9e, 0x7f, 0x00, 0xa1, 0x3c, 0x20, 0xbf, 0x00, 0x01, 0xcf, 0x07,
            0xd3, 0x10,
        ];
        let expected = [
            Message::NoteOff {
                channel: 15,
                note: 36,
                velocity: 64,
            },
            Message::NoteOn {
                channel: 14,
                note: 127,
                velocity: 0,
            },
            Message::KeyPressure {
                channel: 1,
                note: 60,
                pressure: 32,
            },
            Message::Controller {
                channel: 15,
                controller: 0,
                value: 1,
            },
            Message::Program {
                channel: 15,
                program: 7,
            },
            Message::ChannelPressure {
                channel: 3,
                pressure: 16,
            },
        ];
        reads(&rt, rt.alloc(), &line, &expected)
    }

    #[test]
    fn bends(rt: HostRuntime) -> Result<(), Fail> {
        let line = [0xe0, 0x00, 0x40, 0x01, 0x00, 0xef, 0x7f, 0x7f, 0x00];
        reads(
            &rt,
            rt.alloc(),
            &line,
            &[bend(0, 8192), bend(0, 1), bend(15, 16383)],
        )
    }

    // The example of docs/RULES.md.
    #[test]
    fn documented_line(rt: HostRuntime) -> Result<(), Fail> {
        let line = [
            0x24, 0x90, 0x24, 0xf8, 0x40, 0x26, 0xc2, 0x05, 0x06, 0xf0, 0x07, 0x80, 0x24, 0x40,
        ];
        reads(
            &rt,
            rt.alloc(),
            &line,
            &[on(0x24, 0x40), program(5), program(6), off(0x24, 0x40)],
        )
    }

    #[test]
    fn running_status(rt: HostRuntime) -> Result<(), Fail> {
        let table: [(&[u8], &[Message]); 8] = [
            (
                &[0x90, 0x24, 0x40, 0x26, 0x00],
                &[on(0x24, 0x40), on(0x26, 0)],
            ),
            // one data byte a message
            (
                &[0xc2, 0x05, 0x06, 0xf8, 0x07],
                &[program(5), program(6), program(7)],
            ),
            // real-time bytes, between and inside messages
            (&[0x90, 0xf8, 0x24, 0x40], &[on(0x24, 0x40)]),
            (
                &[0x90, 0x24, 0xfe, 0x40, 0xfa, 0x26, 0xff, 0x00, 0xf9],
                &[on(0x24, 0x40), on(0x26, 0)],
            ),
            // a status in mid-message drops what was begun, the same status too
            (&[0x90, 0x24, 0x80, 0x26, 0x40], &[off(0x26, 0x40)]),
            (&[0x90, 0x24, 0x90, 0x26, 0x40, 0x28], &[on(0x26, 0x40)]),
            (
                &[0x90, 0x24, 0xc2, 0x05, 0x80, 0x24, 0x00],
                &[program(5), off(0x24, 0)],
            ),
            (&[0xc2, 0x90, 0x24, 0x40], &[on(0x24, 0x40)]),
        ];
        for (line, expected) in table {
            reads(&rt, rt.alloc(), line, expected)?;
        }
        Ok(())
    }

    #[test]
    fn without_running_status(rt: HostRuntime) -> Result<(), Fail> {
        let table: [(&[u8], &[Message]); 9] = [
            (&[], &[]),
            (&[0x24, 0x40, 0x7f], &[]),
            (&[0xf8, 0xff], &[]),
            (&[0x24, 0x40, 0x90, 0x24, 0x40], &[on(0x24, 0x40)]),
            (&[0x90, 0xf1, 0x24, 0x40], &[]),
            // system exclusive, with data inside and after it, ended by F7 or by a status
            (
                &[0x90, 0x24, 0x40, 0xf0, 0x7e, 0x24, 0xf7, 0x26, 0x40],
                &[on(0x24, 0x40)],
            ),
            (&[0xf0, 0x24, 0x40, 0x80, 0x24, 0x40], &[off(0x24, 0x40)]),
            // system bytes that MIDI leaves undefined
            (&[0x90, 0x24, 0xf4, 0x40, 0x26, 0x40], &[]),
            (
                &[0xc2, 0x05, 0xf5, 0x06, 0xc2, 0x07],
                &[program(5), program(7)],
            ),
        ];
        for (line, expected) in table {
            reads(&rt, rt.alloc(), line, expected)?;
        }
        Ok(())
    }

    // A message is handed out with its last byte.
    #[test]
    fn neither_early_nor_late(rt: HostRuntime) {
        let bytes = [
            (0x90, None),
            (0x24, None),
            (0xf8, None),
            (0x40, Some(on(0x24, 0x40))),
            (0x26, None),
            (0xc2, None),
            (0x05, Some(program(5))),
            (0x06, Some(program(6))),
        ];
        let mut reader = Reader::new();
        for (byte, message) in bytes {
            assert_eq!(rt; reader.feed(byte), message);
        }
    }
}
