//! Wires that a knob makes live.
use super::*;

// Two wires that differ only in their knob: the pipe stops once both are off.
#[test]
fn two_wires_two_knobs(rt: HostRuntime) {
    let stops = [stop(0, 0, 1), stop(0, 1, 1)];
    let steps = [
        press(3, 0),
        turn(0, 1, 1),
        turn(1, 1, 0),
        turn(0, 0, 0),
        turn(1, 0, 1),
    ];
    assert!(rt; both_ways(&stops, &steps, &[]));
}

// A turn to the same position changes nothing; away and back under held keys, what is still held comes back.
#[test]
fn away_and_back(rt: HostRuntime) {
    let steps = [
        turn(5, 2, 0),
        press(0, 1),
        press(4, 1),
        turn(5, 2, 0),
        turn(5, 3, 2),
        lift(4, 0),
        turn(5, 2, 1),
    ];
    assert!(rt; both_ways(&[stop(0, 5, 2)], &steps, &[0]));
}

// One knob that swaps two stops which feed one held pipe.
#[test]
fn a_swap_in_mid_chord(rt: HostRuntime) {
    let stops = [stop(0, 2, 0), stop(0, 2, 1)];
    let steps = [press(30, 1), turn(2, 1, 0), turn(2, 2, 1), turn(2, 0, 1)];
    assert!(rt; both_ways(&stops, &steps, &[30]));
}

// A wire of knob 64 is live whatever is turned.
#[test]
fn always_live(rt: HostRuntime) {
    let steps = [press(1, 1), turn(63, 9, 0), turn(63, 0, 0)];
    assert!(rt; both_ways(&[stop(0, 64, 9)], &steps, &[1]));
}
