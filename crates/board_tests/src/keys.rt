//! Keys through wires that are always live.
use super::*;

// Stops at shift 0 and 12: keys 0 and 12 make pipes 0, 12 and 24 speak, and lifting 12 stops only 24.
#[test]
fn one_pipe_by_two_ways(rt: HostRuntime) {
    let stops = [stop(0, 64, 0), stop(12, 64, 0)];
    let chord = [press(0, 2), press(12, 1)];
    let lifted = [press(0, 2), press(12, 1), lift(12, 1)];
    let over = [press(0, 2), press(12, 1), lift(0, 1), lift(12, 2)];
    assert!(rt; both_ways(&stops, &chord, &[0, 12, 24]));
    assert!(rt; both_ways(&stops, &lifted, &[0, 12]));
    assert!(rt; both_ways(&stops, &over, &[]));
}

// Shift -12: key 11 is silent, key 12 gives pipe 0.
#[test]
fn down_an_octave(rt: HostRuntime) {
    let steps = [press(11, 0), press(12, 1)];
    assert!(rt; both_ways(&[stop(-12, 64, 0)], &steps, &[0]));
}

// To 73 pipes: with shift 12 key 60 gives the last one, with shift 13 it is silent.
#[test]
fn the_end_of_the_rank(rt: HostRuntime) {
    assert!(rt; both_ways(&[stop(12, 64, 0)], &[press(60, 1)], &[72]));
    let steps = [press(60, 0), press(59, 1)];
    assert!(rt; both_ways(&[stop(13, 64, 0)], &steps, &[72]));
}

// A wire that ends above the rank plays as far as the rank goes.
#[test]
fn a_wire_past_the_rank(rt: HostRuntime) {
    let stops = [stop(96, 64, 0), stop(20, 64, 0)];
    assert!(rt; both_ways(&stops, &[press(52, 1), press(53, 0)], &[72]));
}

// The same wire twice is two ways to each pipe, and one pipe; a key put as it stands changes nothing.
#[test]
fn the_same_wire_twice(rt: HostRuntime) {
    let stops = [stop(0, 64, 0), stop(0, 64, 0)];
    assert!(rt; both_ways(&stops, &[press(7, 1), press(7, 0)], &[7]));
    assert!(rt; both_ways(&stops, &[press(7, 1), lift(7, 1), lift(7, 0)], &[]));
}

// Two keys to one pipe by two wires: it stops with the second.
#[test]
fn one_pipe_by_two_keys(rt: HostRuntime) {
    let stops = [stop(0, 64, 0), stop(-1, 64, 0)];
    let steps = [press(4, 2), press(5, 1), lift(4, 1), lift(5, 2)];
    assert!(rt; both_ways(&stops, &steps, &[]));
}

// What was set below before the making is cleared, and stops at the next strobe.
#[test]
fn making_clears_below(rt: HostRuntime) {
    let mut magnets = MagnetChest::new(row(73));
    assert!(rt; plays(&mut magnets, &[press(5, 1)]));
    let mut board = RelayBoard::new(magnets, row(61));
    assert!(rt; sounds(board.below(), &[5]));
    assert_eq!(rt; board.strobe(), 1);
    assert!(rt; sounds(board.below(), &[]));
}

#[test]
fn places_that_are_not_there(rt: HostRuntime) {
    let mut board = single(rank(), &[]);
    assert!(rt; board.set(0, 60, true).is_ok());
    assert!(rt; board.set(0, 61, true).is_err());
    assert!(rt; board.set(16, 0, true).is_err());
    assert!(rt; board.turn(64, 0).is_err());
    assert!(rt; board.turn(63, 16).is_err());
}
