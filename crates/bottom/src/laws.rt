//! The laws of the bottom chests and of the MIDI chest's receiver, as contracts.
ghost use Rattle.std.specs.Prelude.{ℕ, List};
ghost use Rattle.bottom.specs.declared.midi_chest.MidiChest.{MidiChest};
ghost use Rattle.bottom.specs.HeardNotes.{HeardNotes};
ghost use Rattle.bottom.specs.NewBottom.{NewBottom, GivesBack};
ghost use Rattle.bottom.specs.Run.{Run, ReceiverLaw};

/// A bottom chest starts empty and silent, with the places that it was asked to have, and its rule gives back what is set.
pub fn bottom_law()
    ensures made { (reaches : List ℕ) → NewBottom reaches }
    ensures rule { GivesBack }
{}

/// Over every run of a MIDI chest from its making on, a receiver that started with no notes and read all that
/// the drains wrote has exactly the pipes sent; every message of the next drain changes one note, whose pipe was
/// pending, to how it speaks; and where nothing is pending the receiver has exactly what speaks. Which notes it has is said
/// by the bytes, too.
pub fn receiver_law()
    ensures law { (c : MidiChest) (line : List ℕ) → Run c line → ReceiverLaw c line }
    ensures hears { HeardNotes }
{}
