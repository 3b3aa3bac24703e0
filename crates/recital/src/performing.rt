//! A whole performance: from the text of a book and the bytes of a MIDI line to the listing.
ghost use Rattle.std.specs.Prelude.{◌≡◌, ◌+◌, true, ◌++◌, length, is_ok, OnErr, OnOk};
ghost use Rattle.recital.specs.Listings.{listing_of};
ghost use Rattle.recital.specs.Performing.{Performed};
ghost use Rattle.organ.specs.Line.{HasRoom};

use crate::recital::MagnetRecital;
use std::alloc::AllocError;

/// Reads a book's text, plays its organ from the bytes of a MIDI line, and adds to the listing what each call came to;
/// or adds the line of the text's fault, or that of the first wire that its board refuses.
pub fn perform(text: &[u8], line: &[u8], listing: &mut Vec<u8>) -> Result<(), AllocError>
    ensures performs { OnOk result (Performed text.now line.now listing.old.items listing.new.items) }
    ensures items { OnOk result (listing.new.items ≡ listing.old.items ++ listing_of text.now line.now) }
    ensures same { OnErr result (listing.new.items ≡ listing.old.items) }
    ensures succeeds { HasRoom listing.old (length line.now + 1) → is_ok result ≡ true }
{
    match MagnetRecital::open_text(text) {
        Ok(mut recital) => recital.play(line, listing),
        Err(refused) => refused.add_to(listing),
    }
}
