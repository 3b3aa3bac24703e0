//! The fault that the magnet chest gives to the host program.
ghost use Rattle.std.specs.Prelude.{◌≡◌};
ghost use Rattle.bottom.specs.BufferFault.{number_of};

/// Why a buffer cannot be filled.
#[derive(Clone, Copy, Debug, PartialEq)]
pub enum BufferFault {
    /// The buffer has another length than 256 bytes.
    Length { len: usize },
}

impl BufferFault {
    /// The number under which docs/FAULTS.md has it.
    pub fn number(self) -> u8
        ensures { result ≡ number_of self }
    {
        match self {
            BufferFault::Length { .. } => 21,
        }
    }
}
