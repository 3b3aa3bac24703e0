//! What an organist can do at the console.

/// What an organist does.
#[derive(Clone, Copy, Debug, PartialEq)]
pub enum Call {
    Press { division: usize, key: usize },
    Lift { division: usize, key: usize },
    Sustain { division: usize, on: bool },
    Clear { division: usize },
    Turn { knob: usize, position: usize },
    Capture { piston: usize },
    Recall { piston: usize },
    Cancel,
}
