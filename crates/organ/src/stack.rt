//! The stack of an organ: coupler board over stop board over a bottom chest.
ghost use Rattle.std.specs.Prelude.{◌≡◌, ◌≤◌, length, take};
ghost use Rattle.bottom.specs.Foot.{new_bottom};
ghost use Rattle.bottom.specs.MagnetChest.{magnet_meaning, MagnetSettled};
ghost use Rattle.bottom.specs.MidiChest.{midi_meaning, MidiSettled, midi_sent};
ghost use Rattle.bottom.specs.Receiver.{DrainLaw};
ghost use Rattle.bottom.specs.Sending.{MidiSends};
ghost use Rattle.board.specs.Relay.{wired_of, meaning_of};
ghost use Rattle.wires.specs.Wired.{bare_wired, bare_meaning};
ghost use Rattle.coupling.specs.Sending.{HandsOn};
ghost use Rattle.organ.specs.Stack.{stacked, StackSettled};
ghost use Rattle.console.specs.Sending.{Sends, StillTracks, Linked};

use board::relay::RelayBoard;
use bottom::magnet_chest::MagnetChest;
use bottom::midi_chest::MidiChest;
use chest::chest::ROWS;
use console::console::Console;

/// Coupler board over stop board.
pub type Stack<C> = RelayBoard<RelayBoard<C>>;

/// Two boards without a wire over a magnet chest with these ranks, as every stack begins.
pub fn bare_stack(keys: [u8; ROWS], ranks: [u8; ROWS]) -> Stack<MagnetChest>
    ensures settled { StackSettled magnet_meaning MagnetSettled result }
    ensures items { wired_of result.coupling ≡ bare_wired keys (meaning_of magnet_meaning result.below) }
    ensures value { stacked magnet_meaning result ≡ bare_meaning keys (bare_meaning keys (new_bottom ranks)) }
{
    let stops = RelayBoard::new(MagnetChest::new(ranks), keys);
    RelayBoard::new(stops, keys)
}

/// Has the MIDI chest at the foot of a console's stack write what its receiver is to be told.
pub fn send_from_foot(console: &mut Console<Stack<MidiChest>>, buffer: &mut [u8]) -> usize
    ensures law { Sends (HandsOn (HandsOn MidiSends)) console.old buffer.old result buffer.new console.new }
    ensures same { stacked midi_meaning console.new.chest ≡ stacked midi_meaning console.old.chest }
    ensures stands { StillTracks (stacked midi_meaning) (StackSettled midi_meaning MidiSettled) console.old console.new }
    ensures links { Linked (stacked midi_meaning) (StackSettled midi_meaning MidiSettled) console.old console.new }
    ensures bound { result ≤ length buffer.new }
    ensures foot { DrainLaw (midi_meaning console.old.chest.below.below).speaking (midi_sent console.old.chest.below.below) (midi_sent console.new.chest.below.below) (length buffer.old) (take result buffer.new) }
{
    console.send(buffer)
}
