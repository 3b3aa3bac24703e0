//! Stacks of boards over a magnet chest, and lists of steps to play on them.
#![tactic(auto)]

use board::relay::RelayBoard;
use bottom::magnet_chest::MagnetChest;
use bottom::midi_chest::MidiChest;
use chest::chest::Chest;
use fittings::Wire;
use wires::fault::BoardFault;

/// What is done to a chest, and how many pipes change at the strobe after it.
#[derive(Clone, Copy)]
pub struct Step {
    act: Act,
    changes: u32,
}

#[derive(Clone, Copy)]
enum Act {
    Key(usize, bool),
    Knob(usize, usize),
}

fn press(key: usize, changes: u32) -> Step {
    let act = Act::Key(key, true);
    Step { act, changes }
}

fn lift(key: usize, changes: u32) -> Step {
    let act = Act::Key(key, false);
    Step { act, changes }
}

fn turn(knob: usize, position: usize, changes: u32) -> Step {
    let act = Act::Knob(knob, position);
    Step { act, changes }
}

// Does each step, with a strobe after it: whether each is done and changes as many pipes as it says.
fn plays<C: Chest>(chest: &mut C, steps: &[Step]) -> bool {
    steps.iter().all(|step| {
        let done = match step.act {
            Act::Key(key, on) => chest.set(0, key, on),
            Act::Knob(knob, position) => chest.turn(knob, position),
        };
        chest.strobe() == step.changes && done.is_ok()
    })
}

// A table with one row.
fn row(reach: u8) -> [u8; 16] {
    let mut reaches = [0; 16];
    reaches[0] = reach;
    reaches
}

// A wire from the 61 keys of row 0 to row 0.
fn stop(shift: i16, knob: u16, position: u16) -> Wire {
    Wire {
        from: 0,
        lowest: 0,
        highest: 60,
        to: 0,
        shift,
        knob,
        position,
    }
}

// The number of the fault with which a wire is refused.
fn refused<C: Chest>(board: &mut RelayBoard<C>, wire: Wire) -> Option<u8> {
    board.fit(wire).map_err(BoardFault::number).err()
}

// A board of 61 keys over a chest, with those of the wires that it takes.
fn single<C: Chest>(bottom: C, wires: &[Wire]) -> RelayBoard<C> {
    let mut board = RelayBoard::new(bottom, row(61));
    for wire in wires {
        let _ = board.fit(*wire);
    }
    board
}

// The same below a board of 61 keys, each of which plays the key below it.
fn double<C: Chest>(bottom: C, wires: &[Wire]) -> RelayBoard<RelayBoard<C>> {
    let mut top = RelayBoard::new(single(bottom, wires), row(61));
    let _ = top.fit(stop(0, 64, 0));
    top
}

// A rank of 73 pipes that magnets work.
fn rank() -> MagnetChest {
    MagnetChest::new(row(73))
}

// Whether just these pipes of the rank speak.
fn sounds(chest: &MagnetChest, pipes: &[usize]) -> bool {
    let mut bits = [0; 256];
    let _ = chest.write(&mut bits);
    (0..128usize).all(|place| {
        let speaks = bits[place / 8] & (1 << (place % 8)) != 0;
        speaks == pipes.contains(&place)
    })
}

// Whether a board with these wires plays the steps and leaves just these pipes speaking.
fn alone(wires: &[Wire], steps: &[Step], pipes: &[usize]) -> bool {
    let mut board = single(rank(), wires);
    plays(&mut board, steps) && sounds(board.below(), pipes)
}

// The same of that board below another.
fn stacked(wires: &[Wire], steps: &[Step], pipes: &[usize]) -> bool {
    let mut top = double(rank(), wires);
    plays(&mut top, steps) && sounds(top.below().below(), pipes)
}

// Over a magnet chest, over a board over a magnet chest, and over a board over a MIDI chest.
fn both_ways(wires: &[Wire], steps: &[Step], pipes: &[usize]) -> bool {
    let mut sending = double(MidiChest::new(row(73)), wires);
    alone(wires, steps, pipes) && stacked(wires, steps, pipes) && plays(&mut sending, steps)
}

// Whether a board with these wires that has played the steps refuses each wire that it is then offered
// with the fault beside it, or takes it where there is none.
fn answers(wires: &[Wire], steps: &[Step], offers: &[(Wire, Option<u8>)]) -> bool {
    let mut board = single(rank(), wires);
    plays(&mut board, steps)
        && offers
            .iter()
            .all(|(wire, number)| refused(&mut board, *wire) == *number)
}

#[cfg(test)]
mod fitting;
#[cfg(test)]
mod keys;
#[cfg(test)]
mod knobs;
