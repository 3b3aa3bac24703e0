//! The trait of a chest that tells a receiver what changed among its pipes.
ghost use Rattle.std.specs.Prelude.{◌≡◌, ℕ, ◌≤◌, List, length};

use crate::chest::Chest;

/// A sending writes to a buffer what the receiver is to be told next. It plays nothing: the chest means what it meant.
pub trait Sender: Chest {
    // The chest and the buffer before, the number of bytes written, and the buffer and the chest after.
    ghost sends: { Self → List ℕ → ℕ → List ℕ → Self → Type 0 };

    fn send(&mut self, buffer: &mut [u8]) -> usize
        ensures law { sends self.old buffer.old result buffer.new self.new }
        ensures same { Self.Chest.meaning self.new ≡ Self.Chest.meaning self.old }
        ensures settled { Self.Chest.settled self.old → Self.Chest.settled self.new }
        ensures len { length buffer.new ≡ length buffer.old }
        ensures bound { result ≤ length buffer.new };
}
