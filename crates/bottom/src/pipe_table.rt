//! Tables of a bit for each place of a chest.
ghost use Rattle.std.specs.Prelude.{◌≡◌, ℕ, ◌+◌, ◌*◌, ◌<◌, true, false};
ghost use Rattle.chest.specs.Places.{put as put_at, differ};
ghost use Rattle.bottom.specs.Drain.{holds};
ghost use Rattle.bottom.specs.PipeTable.{shown};

use chest::chest::{PLACES, ROWS};
use chest::place::Place;

// 16 rows of 128 places, eight places to a byte.
pub(crate) const BYTE_PLACES: usize = 8;

pub(crate) const BYTES: usize = ROWS * PLACES / BYTE_PLACES;

// Whether the bit of one place is on.
pub(crate) fn has(table: &[u8; BYTES], at: Place) -> bool
    ensures { result ≡ shown table.now at.row at.place }
{
    let place = at.index();
    table[place / BYTE_PLACES] & (1u8 << (place % BYTE_PLACES)) != 0
}

// Puts the bit of one place on or off.
pub(crate) fn put(table: &mut [u8; BYTES], at: Place, on: bool)
    ensures { shown table.new ≡ put_at (shown table.old) at.row at.place on }
{
    let place = at.index();
    let flag = 1u8 << (place % BYTE_PLACES);
    let byte = &mut table[place / BYTE_PLACES];
    *byte = if on { *byte | flag } else { *byte & !flag };
}

// Whether the eight places of one byte stand the same in two tables.
pub(crate) fn agrees(table: &[u8; BYTES], other: &[u8; BYTES], byte: usize) -> bool
    ensures { result ≡ true → (k : ℕ) → k < 8 → differ (holds (shown table.now) (8 * byte + k)) (holds (shown other.now) (8 * byte + k)) ≡ false }
{
    table.get(byte) == other.get(byte)
}
