//! The lines of a listing: what was done and what was refused.
ghost use Rattle.std.specs.Prelude.{◌≡◌, ◌+◌, true, ◌++◌, length, is_ok, OnErr, if◌then◌else◌, codes, decimal};
ghost use Rattle.organ.specs.Line.{line_bytes, HasSpace, Grown, HasRoom, LacksRoom, OneLineMore};
ghost use Rattle.organ.specs.Refused.{fault_line, refusal_line};
ghost use Rattle.organ.specs.Responses.{line_of};

use crate::refusal::Refusal;
use book::BookFault;
use console::fault::PlayFault;
use itoa::{Buffer, Integer};
use std::alloc::AllocError;

/// The most bytes that a line can have: a word, two numbers of 20 digits, brackets, spaces and its end.
pub const LONGEST_LINE: usize = 64;

/// A line of a listing.
#[derive(Clone, Copy, Debug, PartialEq)]
pub enum Line {
    /// A call was done, and this many pipes changed.
    Done { count: u32 },
    /// A call was refused.
    Fault(PlayFault),
    /// A text is no book.
    Book(BookFault),
    /// A board refused a wire of a book.
    Wire(Refusal),
}

fn push_text(listing: &mut Vec<u8>, text: &[u8])
    requires { HasSpace listing.old (length text.now) }
    ensures items { listing.new.items ≡ listing.old.items ++ text.now }
    ensures bound { Grown listing.old listing.new (length text.now) }
{
    listing.extend_from_slice(text).unwrap();
}

// A text and a number after it.
fn push_field<I: Integer>(listing: &mut Vec<u8>, lead: &[u8], n: I)
    requires { HasSpace listing.old (length lead.now + I.MAX_STR_LEN) }
    ensures items { listing.new.items ≡ listing.old.items ++ (lead.now ++ I.text n) }
    ensures bound { Grown listing.old listing.new (length lead.now + I.MAX_STR_LEN) }
{
    push_text(listing, lead);
    push_text(listing, Buffer::new().format(n).as_bytes());
}

// The number of a book's fault and the line where it is.
fn push_place(listing: &mut Vec<u8>, number: u8, line: usize)
    requires { HasSpace listing.old 31 }
    ensures items { listing.new.items ≡ listing.old.items ++ (codes "(fault " ++ (decimal number ++ (codes " " ++ decimal line))) }
    ensures bound { Grown listing.old listing.new 31 }
{
    push_field(listing, b"(fault ", number);
    push_field(listing, b" ", line);
}

impl Line {
    /// Adds the line to a listing. Where there is no memory for it, the listing is as it was.
    pub fn add_to(self, listing: &mut Vec<u8>) -> Result<(), AllocError>
        ensures items { listing.new.items ≡ (if is_ok result then listing.old.items ++ line_bytes self else listing.old.items) }
        ensures succeeds { HasRoom listing.old 1 → is_ok result ≡ true }
        ensures full { OnErr result (LacksRoom listing.new) }
        ensures bound { OneLineMore listing.old listing.new }
    {
        // by hand and not by `write!`, whose contract does not say that it succeeds where there is room
        listing.reserve(LONGEST_LINE)?;
        match self {
            Line::Done { count } => push_field(listing, b"(done ", count),
            Line::Fault(fault) => push_field(listing, b"(fault ", fault.number()),
            Line::Book(fault) => push_place(listing, fault.number(), fault.line()),
            Line::Wire(refusal) => push_place(listing, refusal.number(), refusal.line),
        }
        push_text(listing, b")\n");
        Ok(())
    }
}

// The line of a call's answer.
impl From<Result<u32, PlayFault>> for Line {
    ghost from_gives = { λ answer line. line ≡ line_of answer };

    fn from(answer: Result<u32, PlayFault>) -> Line {
        match answer {
            Ok(count) => Line::Done { count },
            Err(fault) => Line::Fault(fault),
        }
    }
}

// The line for a text that is no book.
impl From<BookFault> for Line {
    ghost from_gives = { λ fault line. line ≡ fault_line fault };

    fn from(fault: BookFault) -> Line {
        Line::Book(fault)
    }
}

// The line for a wire that its board refuses.
impl From<Refusal> for Line {
    ghost from_gives = { λ refusal line. line ≡ refusal_line refusal };

    fn from(refusal: Refusal) -> Line {
        Line::Wire(refusal)
    }
}
