//! The faults that a console gives to the player.
ghost use Rattle.std.specs.Prelude.{◌≡◌};
ghost use Rattle.console.specs.PlayFault.{number_of};

/// Why a console does not do a call.
#[derive(Clone, Copy, Debug, PartialEq)]
pub enum PlayFault {
    /// The division is 16 or more.
    Division { division: usize },
    /// The key is not below the division's reach.
    Key { division: usize, key: usize },
    /// The key to be pressed is down.
    KeyDown { division: usize, key: usize },
    /// The key to be lifted is not down.
    KeyUp { division: usize, key: usize },
    /// The knob is 64 or more, or undefined.
    Knob { knob: usize },
    /// The position is not below the knob's steps.
    Position { knob: usize, position: usize },
    /// The piston is 40 or more, or undefined.
    Piston { piston: usize },
    /// The piston to be recalled was never captured.
    NeverCaptured { piston: usize },
}

impl PlayFault {
    /// The number under which docs/FAULTS.md has it.
    pub fn number(self) -> u8
        ensures { result ≡ number_of self }
    {
        match self {
            PlayFault::Division { .. } => 1,
            PlayFault::Key { .. } => 2,
            PlayFault::KeyDown { .. } => 3,
            PlayFault::KeyUp { .. } => 4,
            PlayFault::Knob { .. } => 5,
            PlayFault::Position { .. } => 6,
            PlayFault::Piston { .. } => 7,
            PlayFault::NeverCaptured { .. } => 8,
        }
    }
}
