//! Wires that are fitted and wires that are refused.
use super::*;

#[test]
fn under_a_held_key(rt: HostRuntime) {
    let good = stop(0, 64, 0);
    assert!(rt; answers(&[good], &[press(60, 1)], &[(good, Some(15))]));
    assert!(rt; answers(&[good], &[press(60, 1), lift(60, 1)], &[(good, None)]));
}

// 128 wires and one more; all of them lead to one pipe, which speaks once.
#[test]
fn as_many_as_there_is_room_for(rt: HostRuntime) {
    let good = stop(0, 64, 0);
    assert!(rt; answers(&[good; 127], &[], &[(good, None), (good, Some(16))]));
    assert!(rt; both_ways(&[good; 129], &[press(9, 1)], &[9]));
    assert!(rt; answers(&[good; 128], &[press(9, 1)], &[(good, Some(15))]));
    assert!(rt; both_ways(&[good; 128], &[press(9, 1), lift(9, 1)], &[]));
}

#[test]
fn each_fault(rt: HostRuntime) {
    let good = stop(0, 64, 0);
    let rows = [
        (Wire { from: 16, ..good }, Some(17)),
        (Wire { from: 1, ..good }, Some(17)),
        (Wire { lowest: 61, ..good }, Some(17)),
        (
            Wire {
                highest: 61,
                ..good
            },
            Some(17),
        ),
        (Wire { to: 16, ..good }, Some(11)),
        (Wire { to: 1, ..good }, Some(18)),
    ];
    let others = [
        (stop(97, 64, 0), Some(19)),
        (stop(-97, 64, 0), Some(19)),
        (stop(96, 64, 15), None),
        (stop(-96, 63, 15), None),
        (stop(0, 65, 0), Some(13)),
        (stop(0, 64, 16), Some(14)),
    ];
    assert!(rt; answers(&[], &[], &rows));
    assert!(rt; answers(&[], &[], &others));
}

// A wire of 9999s, mended check by check: the first that does not pass decides.
#[test]
fn in_their_order(rt: HostRuntime) {
    let bad = Wire {
        from: 9999,
        lowest: 9999,
        highest: 9999,
        to: 9999,
        shift: 9999,
        knob: 9999,
        position: 9999,
    };
    let keys = Wire {
        from: 0,
        lowest: 0,
        highest: 60,
        ..bad
    };
    let there = Wire { to: 0, ..keys };
    let near = Wire { shift: 0, ..there };
    let offers = [
        (bad, Some(17)),
        (keys, Some(11)),
        (Wire { to: 1, ..keys }, Some(18)),
        (there, Some(19)),
        (near, Some(13)),
        (Wire { knob: 0, ..near }, Some(14)),
    ];
    assert!(rt; answers(&[], &[], &offers));
    assert!(rt; answers(&[], &[press(0, 0)], &[(bad, Some(15))]));
    assert!(rt; answers(&[stop(0, 64, 0); 128], &[], &[(bad, Some(16))]));
}
