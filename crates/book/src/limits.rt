//! The sizes that a book is held to.
pub(crate) use fittings::LEAST_STEPS;
pub use fittings::{KNOBS, PISTONS, ROWS};

/// Bytes of a book at most.
pub const MOST_BYTES: usize = 65536;

/// Wires of a book at most, on both boards together.
pub const MOST_WIRES: usize = 256;

// places of a row, keys or pipes
pub(crate) const MOST_PLACES: usize = fittings::PLACES;

pub(crate) const MOST_STEPS: usize = fittings::POSITIONS;

// numbers of a line that are kept: no form takes as many
pub(crate) const MOST_KEPT: usize = 9;
