//! Both bottom chests at the edges of their rows, knobs and buffers.
#![tactic(auto)]

#[cfg(test)]
mod tests {
    use bottom::fault::BufferFault;
    use bottom::magnet_chest::MagnetChest;
    use bottom::midi_chest::MidiChest;
    use chest::chest::Chest;
    use chest::fault::ChestFault;
    use std::process::Abort;

    // What no call may write: the content of a buffer before it.
    const OLD: u8 = 0xee;

    // Row 0 has no place, rows 1 to 3 have 128, row 4 has 61 and the last two have 1 and 128.
    fn reaches() -> [u8; 16] {
        [0, 128, 129, 255, 61, 0, 0, 0, 0, 0, 0, 0, 0, 0, 1, 128]
    }

    // The answer with the number of its fault.
    fn numbered<T>(answer: Result<T, ChestFault>) -> Result<T, u8> {
        answer.map_err(ChestFault::number)
    }

    fn rows<C: Chest>(rt: &impl Abort, chest: &mut C) {
        let reaches = [
            (0, Ok(0)),
            (1, Ok(128)),
            (2, Ok(128)),
            (3, Ok(128)),
            (4, Ok(61)),
            (14, Ok(1)),
            (15, Ok(128)),
            (16, Err(11)),
        ];
        for (row, reach) in reaches {
            assert_eq!(rt; numbered(chest.reach(row)), reach);
        }
        let places = [
            (0, 0, Err(12)),
            (1, 127, Ok(())),
            (1, 128, Err(12)),
            (4, 60, Ok(())),
            (4, 61, Err(12)),
            (14, 0, Ok(())),
            (14, 1, Err(12)),
            (15, 127, Ok(())),
            (15, 128, Err(12)),
            (16, 0, Err(11)),
            (16, 200, Err(11)),
        ];
        for (row, place, answer) in places {
            assert_eq!(rt; numbered(chest.set(row, place, true)), answer);
        }
    }

    fn knobs<C: Chest>(rt: &impl Abort, chest: &mut C) {
        let turns = [
            (0, 15, Ok(())),
            (63, 1, Ok(())),
            (63, 16, Err(14)),
            (64, 15, Err(13)),
            (64, 16, Err(13)),
        ];
        for (knob, position, answer) in turns {
            assert_eq!(rt; numbered(chest.turn(knob, position)), answer);
        }
        let positions = [(0, Ok(15)), (1, Ok(0)), (63, Ok(1)), (64, Err(13))];
        for (knob, position) in positions {
            assert_eq!(rt; numbered(chest.position(knob)), position);
        }
    }

    // Each line puts a place on or off, with the number of pipes that a strobe then changes.
    fn strobes<C: Chest>(rt: &impl Abort, chest: &mut C) {
        let places = [
            (1, 0, true, 1),
            (1, 0, true, 0),
            (15, 127, true, 1),
            (4, 60, false, 0),
            (1, 0, false, 1),
            (16, 0, true, 0),
        ];
        for (row, place, on, changed) in places {
            let _ = chest.set(row, place, on);
            assert_eq!(rt; chest.strobe(), changed);
        }
        assert_eq!(rt; chest.strobe(), 0);
    }

    #[test]
    fn magnet_chest(rt: HostRuntime) {
        rows(&rt, &mut MagnetChest::new(reaches()));
        knobs(&rt, &mut MagnetChest::new(reaches()));
        strobes(&rt, &mut MagnetChest::new(reaches()));
    }

    #[test]
    fn midi_chest(rt: HostRuntime) {
        rows(&rt, &mut MidiChest::new(reaches()));
        knobs(&rt, &mut MidiChest::new(reaches()));
        strobes(&rt, &mut MidiChest::new(reaches()));
    }

    // A fault says what was asked for.
    #[test]
    fn faults_have_their_values(rt: HostRuntime) {
        let mut chest = MagnetChest::new(reaches());
        assert_eq!(rt;
            chest.set(4, 61, true),
            Err(ChestFault::Place { row: 4, place: 61 })
        );
        assert_eq!(rt;
            chest.turn(63, 16),
            Err(ChestFault::Position {
                knob: 63,
                position: 16
            })
        );
    }

    // The example of docs/RULES.md, and the last bit of the last byte.
    #[test]
    fn magnet_buffer(rt: HostRuntime) {
        let mut chest = MagnetChest::new([128; 16]);
        let mut expected = [0; 256];
        let mut buffer = [OLD; 256];
        for (row, place) in [(0, 0), (0, 9), (2, 10), (15, 127)] {
            assert_eq!(rt; chest.set(row, place, true), Ok(()));
        }
        assert_eq!(rt; chest.write(&mut buffer), Ok(()));
        assert_eq!(rt; buffer, expected);
        assert_eq!(rt; chest.strobe(), 4);
        assert_eq!(rt; chest.write(&mut buffer), Ok(()));
        expected[0] = 0x01;
        expected[1] = 0x02;
        expected[33] = 0x04;
        expected[255] = 0x80;
        assert_eq!(rt; buffer, expected);
    }

    // A buffer of another length keeps its content.
    fn refused(rt: &impl Abort, chest: &MagnetChest, buffer: &mut [u8]) {
        assert_eq!(rt; chest.write(buffer).map_err(BufferFault::number), Err(21));
        assert!(rt; buffer.iter().all(|byte| *byte == OLD));
    }

    #[test]
    fn magnet_buffer_of_another_length(rt: HostRuntime) {
        let mut chest = MagnetChest::new([128; 16]);
        assert_eq!(rt; chest.set(0, 0, true), Ok(()));
        assert_eq!(rt; chest.strobe(), 1);
        refused(&rt, &chest, &mut [OLD; 0]);
        refused(&rt, &chest, &mut [OLD; 255]);
        refused(&rt, &chest, &mut [OLD; 257]);
    }

    // A chest with three pipes pending, in three rows: two start, and one stops after it was drained.
    fn three_pending(rt: &impl Abort) -> MidiChest {
        let mut chest = MidiChest::new([128; 16]);
        assert_eq!(rt; chest.set(3, 5, true), Ok(()));
        assert_eq!(rt; chest.strobe(), 1);
        assert_eq!(rt; chest.drain(&mut [OLD; 3]), 3);
        assert_eq!(rt; chest.set(3, 5, false), Ok(()));
        assert_eq!(rt; chest.set(15, 127, true), Ok(()));
        assert_eq!(rt; chest.set(0, 12, true), Ok(()));
        assert_eq!(rt; chest.strobe(), 3);
        chest
    }

    // The number and the whole buffer, since a part of that would hide what the drain left beyond the number.
    fn drains(
        rt: &impl Abort,
        chest: &mut MidiChest,
        buffer: &mut [u8],
        written: usize,
        expected: &[u8],
    ) {
        assert_eq!(rt; chest.drain(buffer), written);
        assert_eq!(rt; &*buffer, expected);
    }

    #[test]
    fn drain_and_its_continuation(rt: HostRuntime) {
        let mut chest = three_pending(&rt);
        drains(&rt, &mut chest, &mut [], 0, &[]);
        drains(&rt, &mut chest, &mut [OLD; 2], 0, &[OLD, OLD]);
        drains(&rt, &mut chest, &mut [OLD; 3], 3, &[0x90, 12, 64]);
        drains(&rt, &mut chest, &mut [OLD; 5], 3, &[0x83, 5, 64, OLD, OLD]);
        let mut rest = [OLD; 256];
        rest[0] = 0x9f;
        rest[1] = 127;
        rest[2] = 64;
        drains(&rt, &mut chest, &mut [OLD; 256], 3, &rest);
        drains(&rt, &mut chest, &mut [OLD; 256], 0, &[OLD; 256]);
    }

    #[test]
    fn drain_at_once(rt: HostRuntime) {
        let mut chest = three_pending(&rt);
        drains(
            &rt,
            &mut chest,
            &mut [OLD; 11],
            9,
            &[0x90, 12, 64, 0x83, 5, 64, 0x9f, 127, 64, OLD, OLD],
        );
    }

    // Nothing is written for a pipe that starts and stops between two drains, nor before a strobe.
    #[test]
    fn drain_of_what_stays(rt: HostRuntime) {
        let mut chest = MidiChest::new([128; 16]);
        assert_eq!(rt; chest.set(7, 60, true), Ok(()));
        drains(&rt, &mut chest, &mut [OLD; 3], 0, &[OLD; 3]);
        assert_eq!(rt; chest.strobe(), 1);
        assert_eq!(rt; chest.set(7, 60, false), Ok(()));
        assert_eq!(rt; chest.strobe(), 1);
        drains(&rt, &mut chest, &mut [OLD; 3], 0, &[OLD; 3]);
    }

    // Every pipe of a full organ is written once, in order.
    #[test]
    fn drain_of_all(rt: HostRuntime) {
        let mut chest = MidiChest::new([128; 16]);
        for row in 0..16 {
            for place in 0..128 {
                assert_eq!(rt; chest.set(row, place, true), Ok(()));
            }
        }
        assert_eq!(rt; chest.strobe(), 2048);
        for row in 0..16u8 {
            for place in 0..128u8 {
                let mut buffer = [OLD; 3];
                assert_eq!(rt; chest.drain(&mut buffer), 3);
                assert_eq!(rt; buffer, [0x90 + row, place, 64]);
            }
        }
        assert_eq!(rt; chest.drain(&mut [OLD; 3]), 0);
    }
}
