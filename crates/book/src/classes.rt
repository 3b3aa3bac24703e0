//! The classes of a book's bytes.
ghost use Rattle.std.specs.Prelude.{◌≡◌};
ghost use Rattle.book.specs.Bytes.{allowed, first_outside, inside, letter, numeric};

// a to z
pub(crate) fn is_letter(b: &u8) -> bool
    ensures { result ≡ letter b.now }
{
    b.is_ascii_lowercase()
}

// a digit or a minus
pub(crate) fn is_numeric(b: &u8) -> bool
    ensures { result ≡ numeric b.now }
{
    *b == b'-' || b.is_ascii_digit()
}

// every byte that a book may hold inside a line
pub(crate) fn is_allowed(b: &u8) -> bool
    ensures { result ≡ allowed b.now }
{
    is_letter(b) || is_numeric(b) || matches!(*b, b' ' | b'(' | b')')
}

// the place where the first line ends
pub(crate) fn end_of_line(text: &[u8]) -> Option<usize>
    ensures { result ≡ first_outside inside text.now }
{
    text.iter().position(|b| *b == b'\n')
}
