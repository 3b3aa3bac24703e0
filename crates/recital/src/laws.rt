//! What is listed leaves no choice.
ghost use Rattle.recital.specs.Performing.{ListingLaw};

/// A text and the bytes of a MIDI line have one listing.
pub fn listing_law()
    ensures law { ListingLaw }
{}
