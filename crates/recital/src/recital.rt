//! A recital: a console and the reader of its MIDI line, played as the bytes come.
ghost use Rattle.std.specs.Prelude.{◌≡◌, ℕ, ◌+◌, ◌*◌, ◌<◌, ◌≤◌, true, List, [], length, is_ok, IfOk, Ok, vec_len, vec_capacity, MatchResult, OnErr, OnOk};
ghost use Rattle.book.specs.Reading.{Answers, read_of};
ghost use Rattle.console.specs.Sending.{Sends, StillTracks};
ghost use Rattle.midi.specs.State.{HasRead};
ghost use Rattle.recital.specs.Recital.{Hears, GoesOn, CaughtUp, ListsOn, Begins, magnet_stack_meaning, MagnetStackSettled};
ghost use Rattle.recital.specs.Performing.{BeginsOn};
ghost use Rattle.organ.specs.Line.{HasRoom, OneLineMore};

use book::Book;
use bottom::magnet_chest::MagnetChest;
use chest::chest::Chest;
use chest::sender::Sender;
use console::console::Console;
use midi::Reader;
use organ::line::{LONGEST_LINE, Line};
use organ::opening::open_magnets;
use organ::refusal::Refusal;
use organ::response::respond;
use organ::stack::Stack;
use std::alloc::AllocError;

/// A console with the reader of its MIDI line.
#[derive(Drop)]
pub struct Recital<C: Chest> {
    console: Console<C>,
    reader: Reader,
}

/// A recital on coupler board and stop board over a magnet chest.
pub type MagnetRecital = Recital<Stack<MagnetChest>>;

// Makes room for this many lines of the listing.
fn make_room(listing: &mut Vec<u8>, count: usize) -> Result<(), AllocError>
    ensures items { listing.new.items ≡ listing.old.items }
    ensures cases { MatchResult result (λ _. HasRoom listing.new count) (λ _. vec_capacity listing.old < vec_len listing.old + 64 * count) }
{
    listing.reserve(count.saturating_mul(LONGEST_LINE))
}

impl<C: Chest> Recital<C> {
    /// A recital on this console, before the first byte of its MIDI line.
    pub fn new(console: Console<C>) -> Recital<C>
        ensures value { (result.console ≡ console) × HasRead result.reader.state [] }
    {
        Recital {
            console,
            reader: Reader::new(),
        }
    }

    /// The console, to be looked at.
    pub fn console(&self) -> &Console<C>
        ensures value { result.now ≡ self.now.console }
    {
        &self.console
    }

    // Reads one byte and answers the message that it ends, where there is room for its line of the listing.
    fn hear(&mut self, byte: u8, listing: &mut Vec<u8>)
        requires { HasRoom listing.old 1 }
        ensures law { Hears C.Chest.meaning C.Chest.settled self.old self.new byte listing.old.items listing.new.items }
        ensures bound { OneLineMore listing.old listing.new }
    {
        if let Some(message) = self.reader.feed(byte) {
            respond(&mut self.console, message, listing).unwrap();
        }
    }

    /// Reads the next bytes of the MIDI line and answers each message that they end. Room for their lines is made first:
    /// where there is none, nothing is read and nothing is done.
    pub fn play(&mut self, bytes: &[u8], listing: &mut Vec<u8>) -> Result<(), AllocError>
        ensures law { OnOk result (GoesOn C.Chest.meaning C.Chest.settled self.old self.new bytes.now listing.old.items listing.new.items) }
        ensures items { OnOk result ((text line : List ℕ) → CaughtUp C.Chest.meaning C.Chest.settled self.old text line → ListsOn C.Chest.meaning C.Chest.settled self.new bytes.now listing.old.items listing.new.items text line) }
        ensures same { OnErr result ((self.new ≡ self.old) × (listing.new.items ≡ listing.old.items)) }
        ensures succeeds { HasRoom listing.old (length bytes.now) → is_ok result ≡ true }
    {
        make_room(listing, bytes.len())?;
        for byte in bytes {
            self.hear(*byte, listing);
        }
        Ok(())
    }
}

impl<C: Sender> Recital<C> {
    /// Has the chest at the foot write to a buffer what its receiver is to be told, and answers how many bytes it wrote.
    /// Nothing is read and nothing is played.
    pub fn send(&mut self, buffer: &mut [u8]) -> usize
        ensures law { Sends C.Sender.sends self.old.console buffer.old result buffer.new self.new.console }
        ensures same { (self.new.reader ≡ self.old.reader) × (C.Chest.meaning self.new.console.chest ≡ C.Chest.meaning self.old.console.chest) }
        ensures stands { StillTracks C.Chest.meaning C.Chest.settled self.old.console self.new.console }
        ensures caught { (text line : List ℕ) → CaughtUp C.Chest.meaning C.Chest.settled self.old text line → CaughtUp C.Chest.meaning C.Chest.settled self.new text line }
        ensures bound { result ≤ length buffer.new }
    {
        self.console.send(buffer)
    }
}

impl Recital<Stack<MagnetChest>> {
    /// A recital on the organ of a book over a magnet chest with its ranks, or the first wire that its board refuses.
    pub fn open(book: &Book) -> Result<MagnetRecital, Refusal>
        ensures cases { Begins book.now result }
        ensures law { IfOk result (λ q. (text : List ℕ) → Answers (Ok book.now) (read_of text) → CaughtUp magnet_stack_meaning MagnetStackSettled q text []) }
    {
        let console = open_magnets(book)?;
        Ok(Recital::new(console))
    }

    /// A recital on the organ of a book's text; or the one line of the listing for this text, whatever is played: that of
    /// its fault, or that of the first wire that its board refuses.
    pub fn open_text(text: &[u8]) -> Result<MagnetRecital, Line>
        ensures cases { BeginsOn text.now result }
        ensures law { IfOk result (λ q. CaughtUp magnet_stack_meaning MagnetStackSettled q text.now []) }
    {
        let book = Book::read(text)?;
        let recital = MagnetRecital::open(&book)?;
        Ok(recital)
    }
}
