//! What an organ is fitted with, as a book describes it and the relay takes it: its sizes, knobs, pistons' scopes and
//! wires, and tables of what is said of each.
#![tactic(auto)]

mod tables;

pub use tables::{silent, told};

/// Rows of each level: divisions or ranks.
pub const ROWS: usize = 16;

/// Places of a row at most: keys or pipes.
pub const PLACES: usize = 128;

/// Knobs of an organ, defined or not.
pub const KNOBS: usize = 64;

/// Steps of a knob at least.
pub const LEAST_STEPS: usize = 2;

/// Steps of a knob at most: its positions.
pub const POSITIONS: usize = 16;

/// Pistons of a console, defined or not.
pub const PISTONS: usize = 40;

/// How far a wire shifts at most, up or down.
pub const SHIFTS: u8 = 96;

/// The steps of a knob, and the position it goes home to. That these fit is no part of the type, since the definitions
/// write a knob down from any numbers of a form; so with a scope.
#[derive(Clone, Copy, Debug, PartialEq)]
pub struct Knob {
    pub steps: u8,
    pub home: u8,
}

/// The knobs that a piston takes, from the lowest to the highest.
#[derive(Clone, Copy, Debug, PartialEq)]
pub struct Scope {
    pub lowest: u8,
    pub highest: u8,
}

/// A wire as it is offered to a board: as wide as a book can write it. Which of its numbers a board takes is the
/// board's to say.
#[derive(Clone, Copy, Debug, Default, PartialEq)]
pub struct Wire {
    pub from: u16,
    pub lowest: u16,
    pub highest: u16,
    pub to: u16,
    pub shift: i16,
    pub knob: u16,
    pub position: u16,
}
