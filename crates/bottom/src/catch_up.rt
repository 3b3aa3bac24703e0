//! How the table of what was sent catches up with what speaks: a message for each place at which they differ, as many as
//! a buffer takes.
ghost use Rattle.std.specs.Prelude.{◌≡◌, ◌+◌, ◌*◌, ◌<◌, ◌≤◌, length, take, drop};
ghost use Rattle.bottom.specs.Drain.{count_of_places, message_bytes};
ghost use Rattle.bottom.specs.CatchUp.{UpTo, GoesOn};
ghost use Rattle.bottom.specs.PipeTable.{shown};

use crate::pipe_table::{BYTE_PLACES, BYTES, agrees, has, put};
use chest::chest::PLACES;
use chest::place::Place;

// The bytes of a message.
const MESSAGE: usize = 3;

const NOTE_OFF: u8 = 0x80;

const NOTE_ON: u8 = 0x90;

const VELOCITY: u8 = 64;

// Writes a start or a stop for each place at which the two tables differ, while three more bytes fit.
pub(crate) fn catch_up(sent: &mut [u8; BYTES], speaking: &[u8; BYTES], out: &mut [u8]) -> usize
    ensures bound { result ≤ length out.new }
    ensures after { UpTo count_of_places (shown speaking.now) (shown sent.old) out.old (shown sent.new) (take result out.new) (drop result out.new) }
{
    // counted by hand: of a buffer that is lent in chunks or kept as its own rest, a proof knows nothing afterwards
    let mut written = 0;
    // by the bytes' numbers, since one of the two tables changes on the way
    for byte in 0..BYTES {
        if out.len() - written < MESSAGE {
            break;
        }
        written += catch_up_byte(sent, speaking, byte, &mut out[written..]);
    }
    written
}

// The same for the places of one byte, which is passed over at a look where the tables agree.
fn catch_up_byte(
    sent: &mut [u8; BYTES],
    speaking: &[u8; BYTES],
    byte: usize,
    out: &mut [u8],
) -> usize
    requires { byte < 256 }
    ensures bound { result ≤ length out.new }
    ensures after { GoesOn (8 * byte) (8 * byte + 8) (shown speaking.now) (shown sent.old) out.old (shown sent.new) out.new result }
{
    if agrees(sent, speaking, byte) {
        return 0;
    }
    // counted as above
    let mut written = 0;
    for bit in 0..BYTE_PLACES {
        let at = place_of(byte, bit);
        written += catch_up_place(sent, speaking, at, &mut out[written..]);
    }
    written
}

// The same for one place.
fn catch_up_place(
    sent: &mut [u8; BYTES],
    speaking: &[u8; BYTES],
    at: Place,
    out: &mut [u8],
) -> usize
    ensures bound { result ≤ length out.new }
    ensures after { GoesOn (128 * at.row + at.place) (128 * at.row + at.place + 1) (shown speaking.now) (shown sent.old) out.old (shown sent.new) out.new result }
{
    let speaks = has(speaking, at);
    if has(sent, at) == speaks || out.len() < MESSAGE {
        return 0;
    }
    out[..MESSAGE].copy_from_slice(&note(at, speaks));
    put(sent, at, speaks);
    MESSAGE
}

// The place of one bit of a byte of the tables.
fn place_of(byte: usize, bit: usize) -> Place
    requires { (byte < 256) × (bit < 8) }
    ensures value { 128 * result.row + result.place ≡ 8 * byte + bit }
{
    let index = BYTE_PLACES * byte + bit;
    Place {
        row: index / PLACES,
        place: index % PLACES,
    }
}

// The start or the stop of one pipe.
fn note(at: Place, on: bool) -> [u8; MESSAGE]
    ensures value { result ≡ message_bytes on at.row at.place }
{
    let kind = if on { NOTE_ON } else { NOTE_OFF };
    // a row is below 16 and a place below 128, so the casts lose nothing
    [kind + at.row as u8, at.place as u8, VELOCITY]
}
