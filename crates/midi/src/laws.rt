//! Laws of the reading that senders rely on.
ghost use Rattle.midi.specs.Reading.{reading, NotesLaw};
ghost use Rattle.midi.specs.StatusBytes.{RealTimeLaw, StatusLaw, StrayLaw};
ghost use Rattle.midi.specs.RunningStatus.{KindsLaw};
ghost use Rattle.midi.specs.OneReading.{OneReadingLaw};
ghost use Rattle.midi.specs.Ranges.{RangeLaw};

/// A note-on or note-off written whole is read as itself, whatever bytes stood before it.
pub fn notes_law()
    ensures law { NotesLaw }
{}

/// What each byte of a MIDI line does to its reading, said by the bytes' numbers; no other reading keeps to it.
pub fn reading_law()
    ensures real_time { RealTimeLaw reading }
    ensures status { StatusLaw reading }
    ensures stray { StrayLaw reading }
    ensures kinds { KindsLaw reading }
    ensures only { OneReadingLaw }
    ensures range { RangeLaw }
{}
