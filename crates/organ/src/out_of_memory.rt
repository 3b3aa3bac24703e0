//! Want of memory on the way through a list of messages.

/// The listing has no room for the line of a message, and there is no memory for more.
#[derive(Clone, Copy, Debug, PartialEq)]
pub struct OutOfMemory {
    /// how many messages stand before that one; they were answered
    pub answered: usize,
}
