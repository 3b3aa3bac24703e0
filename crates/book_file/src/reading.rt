//! The text of a book's file.
ghost use Rattle.std.specs.Prelude.{◌≡◌, ◌≤◌, ◌+◌, IfErr, IfOk, IfSome, take, vec_len};
ghost use Rattle.book.specs.Limits.{most_bytes};
ghost use Rattle.book_file.specs.Unreadable.{Reasoned, TextOf};

use crate::unreadable::Unreadable;
use book::MOST_BYTES;
use std::alloc::Global;
use std::fs::File;
use std::io;
use std::io::{ErrorKind, Read};

/// How many bytes of the file are read at most: one more than a book may have, since a longer one is refused
/// whatever follows.
pub const MOST_READ: usize = MOST_BYTES + 1;

/// The first bytes that a reader gives, up to that many.
pub fn first_bytes<R: Read + Drop>(heap: Global, reader: R) -> io::Result<Vec<u8>>
    ensures bytes { IfSome (R.remaining reader) (λ all. IfOk result (λ text. text.items ≡ take (most_bytes + 1) all)) }
    ensures bound { IfOk result (λ text. vec_len text ≤ most_bytes + 1) }
{
    let mut text = Vec::new(heap);
    reader.take(MOST_READ as u64).read_to_end(&mut text)?;
    // no clause of `take` bounds the bytes of a file, whose content none can name
    text.truncate(MOST_READ);
    Ok(text)
}

/// What a reading of the file comes to: its text, no text where the file is missing, or why there is none.
pub fn text_of(heap: Global, reading: io::Result<Vec<u8>>) -> Result<Vec<u8>, Unreadable>
    ensures { TextOf reading result }
{
    match reading {
        Ok(text) => Ok(text),
        Err(error) if error.kind() == ErrorKind::NotFound => Ok(Vec::new(heap)),
        Err(error) => Err(Unreadable::new(error)),
    }
}

// Opens the file and reads it.
fn read_file(rt: &HostRuntime) -> io::Result<Vec<u8>>
    ensures bound { IfOk result (λ text. vec_len text ≤ most_bytes + 1) }
{
    first_bytes(rt.alloc(), File::open(rt, "organ.book")?)
}

/// The text of `organ.book` in the folder that the program runs in.
pub fn read_book(rt: &HostRuntime) -> Result<Vec<u8>, Unreadable>
    ensures bound { IfOk result (λ text. vec_len text ≤ most_bytes + 1) }
    ensures reason { IfErr result Reasoned }
{
    text_of(rt.alloc(), read_file(rt))
}
