//! What a word or a number is that names nothing.

/// A number that no board has, or a word that no form has.
#[derive(Clone, Copy, Debug, PartialEq)]
pub struct Unknown;
