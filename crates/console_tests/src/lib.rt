//! Runs of calls on a console, each with the answer that it must give.
#![tactic(auto)]

use board::relay::RelayBoard;
use bottom::magnet_chest::MagnetChest;
use bottom::midi_chest::MidiChest;
use chest::chest::Chest;
use chest::sender::Sender;
use console::call::Call;
use console::console::Console;
use console::fault::PlayFault;
use console::knob_table::KnobTable;
use console::piston_table::PistonTable;
use fittings::{Knob, Scope, Wire};
use wires::fault::BoardFault;

// A call, and its answer: the number of pipes that change, or that of the fault.
type Row = (Call, Result<u32, u8>);

// The first call that answers something else than it must.
fn first_wrong<C: Chest>(console: &mut Console<C>, run: &[Row]) -> Option<usize> {
    run.iter().position(|(call, answer)| console.perform(*call).map_err(PlayFault::number)
        != *answer)
}

// Fits each wire.
fn fit_all<C: Chest>(board: &mut RelayBoard<C>, wires: &[Wire]) -> Result<(), BoardFault> {
    for wire in wires {
        board.fit(*wire)?;
    }
    Ok(())
}

// A table with one row.
fn row(reach: u8) -> [u8; 16] {
    let mut reaches = [0; 16];
    reaches[0] = reach;
    reaches
}

// A wire from the first keys of division 0 to row 0.
fn wire(keys: u16, shift: i16, knob: u16) -> Wire {
    Wire {
        from: 0,
        lowest: 0,
        highest: keys.saturating_sub(1),
        to: 0,
        shift,
        knob,
        position: 1,
    }
}

// Knob 0 of two steps at home 0, knob 1 of four at home 2, knob 63 of sixteen at home 15.
fn knobs() -> Option<KnobTable> {
    KnobTable::new()
        .with_knob(0, Knob { steps: 2, home: 0 })?
        .with_knob(1, Knob { steps: 4, home: 2 })?
        .with_knob(
            63,
            Knob {
                steps: 16,
                home: 15,
            },
        )
}

// Piston 0 takes knobs 0 to 1, piston 1 knobs that are undefined, piston 39 all.
fn pistons() -> Option<PistonTable> {
    PistonTable::new()
        .with_piston(
            0,
            Scope {
                lowest: 0,
                highest: 1,
            },
        )?
        .with_piston(
            1,
            Scope {
                lowest: 10,
                highest: 20,
            },
        )?
        .with_piston(
            39,
            Scope {
                lowest: 0,
                highest: 63,
            },
        )
}

#[cfg(test)]
mod tests {
    use super::*;
    use std::test::Fail;

    fn over<C: Chest + Drop>(chest: C) -> Result<Console<C>, Fail> {
        let knobs = knobs().ok_or("a knob is refused")?;
        let pistons = pistons().ok_or("a piston is refused")?;
        Ok(Console::new(chest, knobs, pistons))
    }

    // 61 keys on division 0, 32 on division 1, 128 on division 15.
    fn plain() -> Result<Console<MagnetChest>, Fail> {
        let mut reaches = row(61);
        reaches[1] = 32;
        reaches[15] = 128;
        over(MagnetChest::new(reaches))
    }

    fn press(division: usize, key: usize) -> Call {
        Call::Press { division, key }
    }

    fn lift(division: usize, key: usize) -> Call {
        Call::Lift { division, key }
    }

    fn sustain(division: usize, on: bool) -> Call {
        Call::Sustain { division, on }
    }

    fn turn(knob: usize, position: usize) -> Call {
        Call::Turn { knob, position }
    }

    #[test]
    fn sustained_keys_sound_on(rt: HostRuntime) -> Result<(), Fail> {
        let run = [
            (press(0, 5), Ok(1)),
            (press(0, 5), Err(3)),
            (sustain(0, true), Ok(0)),
            (lift(0, 5), Ok(0)),
            (press(0, 5), Ok(0)),
            (sustain(0, true), Ok(0)),
            (lift(0, 5), Ok(0)),
            (press(1, 5), Ok(1)),
            (sustain(0, false), Ok(1)),
            (lift(1, 5), Ok(1)),
            (lift(1, 5), Err(4)),
        ];
        assert_eq!(rt; first_wrong(&mut plain()?, &run), None);
        Ok(())
    }

    #[test]
    fn keys_and_divisions_end(rt: HostRuntime) -> Result<(), Fail> {
        let run = [
            (press(0, 60), Ok(1)),
            (press(0, 61), Err(2)),
            (press(2, 0), Err(2)),
            (press(15, 127), Ok(1)),
            (press(16, 200), Err(1)),
            (lift(16, 0), Err(1)),
            (lift(0, 61), Err(2)),
            (sustain(16, true), Err(1)),
            (sustain(15, true), Ok(0)),
            (Call::Clear { division: 16 }, Err(1)),
            (Call::Clear { division: 15 }, Ok(1)),
            (Call::Clear { division: 0 }, Ok(1)),
            (Call::Clear { division: 0 }, Ok(0)),
        ];
        assert_eq!(rt; first_wrong(&mut plain()?, &run), None);
        Ok(())
    }

    #[test]
    fn knobs_and_pistons_end(rt: HostRuntime) -> Result<(), Fail> {
        let run = [
            (turn(0, 1), Ok(0)),
            (turn(0, 2), Err(6)),
            (turn(63, 15), Ok(0)),
            (turn(63, 16), Err(6)),
            (turn(2, 0), Err(5)),
            (turn(64, 0), Err(5)),
            (Call::Recall { piston: 0 }, Err(8)),
            (Call::Capture { piston: 0 }, Ok(0)),
            (Call::Recall { piston: 0 }, Ok(0)),
            (Call::Recall { piston: 1 }, Err(8)),
            (Call::Capture { piston: 1 }, Ok(0)),
            (Call::Recall { piston: 1 }, Ok(0)),
            (Call::Capture { piston: 2 }, Err(7)),
            (Call::Recall { piston: 2 }, Err(7)),
            (Call::Capture { piston: 40 }, Err(7)),
            (Call::Recall { piston: 40 }, Err(7)),
            (Call::Cancel, Ok(0)),
            (Call::Cancel, Ok(0)),
        ];
        assert_eq!(rt; first_wrong(&mut plain()?, &run), None);
        Ok(())
    }

    #[test]
    fn pistons_bring_knobs_back(rt: HostRuntime) -> Result<(), Fail> {
        let mut console = plain()?;
        assert_eq!(rt; console.chest().position(1).ok(), Some(2));
        let first = [
            (turn(1, 3), Ok(0)),
            (Call::Capture { piston: 39 }, Ok(0)),
            (turn(1, 0), Ok(0)),
            (turn(0, 1), Ok(0)),
        ];
        assert_eq!(rt; first_wrong(&mut console, &first), None);
        let second = [
            (Call::Capture { piston: 0 }, Ok(0)),
            (Call::Recall { piston: 39 }, Ok(0)),
        ];
        assert_eq!(rt; first_wrong(&mut console, &second), None);
        assert_eq!(rt; console.chest().position(1).ok(), Some(3));
        assert_eq!(rt; console.chest().position(0).ok(), Some(0));
        assert_eq!(rt; console.recall(0), Ok(0));
        assert_eq!(rt; console.chest().position(1).ok(), Some(0));
        assert_eq!(rt; console.chest().position(0).ok(), Some(1));
        assert_eq!(rt; console.cancel(), 0);
        assert_eq!(rt; console.chest().position(1).ok(), Some(2));
        assert_eq!(rt; console.chest().position(63).ok(), Some(15));
        Ok(())
    }

    // 61 keys over one rank of 85 pipes, on a stop board with unison stops at knobs 0 and 1 and an octave stop at knob 63.
    fn stop_board() -> Result<RelayBoard<MagnetChest>, Fail> {
        let mut board = RelayBoard::new(MagnetChest::new(row(85)), row(61));
        let stops = [wire(61, 0, 0), wire(61, 0, 1), wire(61, 12, 63)];
        fit_all(&mut board, &stops).map_err(|_| "a stop is refused")?;
        Ok(board)
    }

    // A piston swaps two stops that feed one held pipe, and a turn moves what only the sustain holds.
    #[test]
    fn stops_under_held_keys(rt: HostRuntime) -> Result<(), Fail> {
        let run = [
            (turn(63, 0), Ok(0)),
            (turn(0, 1), Ok(0)),
            (turn(1, 0), Ok(0)),
            (Call::Capture { piston: 39 }, Ok(0)),
            (turn(0, 0), Ok(0)),
            (turn(1, 1), Ok(0)),
            (Call::Capture { piston: 0 }, Ok(0)),
            (press(0, 5), Ok(1)),
            (Call::Recall { piston: 39 }, Ok(0)),
            (Call::Recall { piston: 0 }, Ok(0)),
            (turn(1, 0), Ok(1)),
            (sustain(0, true), Ok(0)),
            (lift(0, 5), Ok(0)),
            (turn(0, 1), Ok(1)),
            (turn(63, 1), Ok(1)),
            (sustain(0, false), Ok(2)),
            (Call::Cancel, Ok(0)),
        ];
        assert_eq!(rt; first_wrong(&mut over(stop_board()?)?, &run), None);
        Ok(())
    }

    // An octave coupler above the stops: pipes are reached by several ways, and each stops with its last.
    #[test]
    fn couplers_over_stops(rt: HostRuntime) -> Result<(), Fail> {
        let mut couplers = RelayBoard::new(stop_board()?, row(61));
        let always = Wire {
            knob: 64,
            ..wire(61, 0, 0)
        };
        fit_all(&mut couplers, &[always, wire(49, 12, 1)]).map_err(|_| "a coupler is refused")?;
        let run = [
            (turn(63, 0), Ok(0)),
            (turn(1, 0), Ok(0)),
            (turn(0, 1), Ok(0)),
            (press(0, 0), Ok(1)),
            (press(0, 12), Ok(1)),
            (turn(63, 1), Ok(1)),
            (turn(1, 1), Ok(1)),
            (lift(0, 12), Ok(1)),
            (Call::Clear { division: 0 }, Ok(3)),
            (Call::Cancel, Ok(0)),
        ];
        assert_eq!(rt; first_wrong(&mut over(couplers)?, &run), None);
        Ok(())
    }

    // A coupler at unison, always on, over a stop at knob 0 that takes key 0 to pipe 12 of a MIDI chest.
    fn sending() -> Result<Console<RelayBoard<RelayBoard<MidiChest>>>, Fail> {
        let mut stops = RelayBoard::new(MidiChest::new(row(73)), row(73));
        fit_all(&mut stops, &[wire(61, 12, 0)]).map_err(|_| "a stop is refused")?;
        let mut couplers = RelayBoard::new(stops, row(73));
        let always = Wire {
            knob: 64,
            ..wire(61, 0, 0)
        };
        fit_all(&mut couplers, &[always]).map_err(|_| "a coupler is refused")?;
        over(couplers)
    }

    // One sending into a buffer of four: how many bytes it wrote, and the whole buffer, since what lies past them counts too.
    fn sent(console: &mut Console<RelayBoard<RelayBoard<MidiChest>>>) -> (usize, [u8; 4]) {
        let mut buffer = [0; 4];
        let count = console.send(&mut buffer);
        (count, buffer)
    }

    // What starts and stops at the foot of two boards comes out through the console, each message once.
    #[test]
    fn messages_of_a_stack(rt: HostRuntime) -> Result<(), Fail> {
        let mut console = sending()?;
        assert_eq!(rt; console.press(0, 5), Ok(0));
        assert_eq!(rt; sent(&mut console), (0, [0; 4]));
        assert_eq!(rt; console.turn(0, 1), Ok(1));
        assert_eq!(rt; sent(&mut console), (3, [0x90, 17, 64, 0]));
        assert_eq!(rt; sent(&mut console), (0, [0; 4]));
        assert_eq!(rt; console.lift(0, 5), Ok(1));
        assert_eq!(rt; sent(&mut console), (3, [0x80, 17, 64, 0]));
        Ok(())
    }
}
