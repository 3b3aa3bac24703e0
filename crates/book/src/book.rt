//! The record of a book: what its forms say, by row, knob and piston, and its wires in their order.
ghost use Rattle.std.specs.Prelude.{◌≤◌};
ghost use Rattle.book.specs.Limits.{most_places, Sound, Ordered};
ghost use Rattle.fittings.specs.Tables.{AllGiven};

use crate::board::Board;
use crate::book_fault::BookFault;
use crate::form::Form;
use crate::limits::{KNOBS, MOST_BYTES, MOST_WIRES, PISTONS, ROWS};
use crate::passage::Passage;
use crate::tables::{Taken, give};
use arrayvec::ArrayVec;
use fittings::{Knob, Scope, Wire, silent, told};

/// A wire with its board, and the line that it stands on.
#[derive(Clone, Copy, Debug, Default, PartialEq)]
pub struct BookWire {
    pub line: usize,
    pub board: Board,
    pub wire: Wire,
}

/// Has the places of every wire that a book may have, so no book wants memory.
#[derive(Drop)]
pub struct Book {
    pub(crate) divisions: [Option<u8>; ROWS],
    pub(crate) ranks: [Option<u8>; ROWS],
    pub(crate) knobs: [Option<Knob>; KNOBS],
    pub(crate) pistons: [Option<Scope>; PISTONS],
    pub(crate) wires: ArrayVec<BookWire, MOST_WIRES>,
    ghost keys_fit: { AllGiven (λ n. n ≤ most_places) divisions },
    ghost pipes_fit: { AllGiven (λ n. n ≤ most_places) ranks },
    ghost knobs_fit: { AllGiven (λ k. Sound k.steps k.home) knobs },
    ghost scopes_fit: { AllGiven (λ s. Ordered s.lowest s.highest) pistons },
}

impl Book {
    ghost use Rattle.std.specs.Prelude.{◌≡◌, ◌<◌, true, not, is_ok, IfOk, IfSome, List, [], ◌∷◌, ◌++◌, count_by};
    ghost use Rattle.book.specs.BookAnswers.{Entered};
    ghost use Rattle.book.specs.BookCases.{Sampled};
    ghost use Rattle.book.specs.Book.{LinesRise, keys_in, knob_in, on_board, pipes_in, scope_in, wires_in};
    ghost use Rattle.book.specs.Entry.{Entry, Holds, InRange, taken};
    ghost use Rattle.book.specs.Grammar.{Accepts, Judged};
    ghost use Rattle.book.specs.Reading.{Answers, Fills, read_of, with_line};

    // The record of a book without forms.
    fn blank() -> Book
        ensures { Holds result [] }
    {
        Book {
            divisions: silent(),
            ranks: silent(),
            knobs: silent(),
            pistons: silent(),
            wires: ArrayVec::new(),
        }
    }

    // Takes in one form, where the record has room for it.
    fn put(&mut self, form: Form, line: usize) -> Result<(), Taken>
        requires { InRange form }
        ensures answer { (es : List Entry) → Holds self.old es → is_ok result ≡ not (taken es form) }
        ensures after { (es : List Entry) → Holds self.old es → is_ok result ≡ true → Holds self.new (es ++ record { line = line; form = form } ∷ []) }
    {
        match form {
            Form::Keys { row, reach } => give(&mut self.divisions, usize::from(row), reach),
            Form::Rank { row, reach } => give(&mut self.ranks, usize::from(row), reach),
            Form::Knob { knob, steps, home } => give(
                &mut self.knobs,
                usize::from(knob),
                Knob { steps, home },
            ),
            Form::Piston {
                piston,
                lowest,
                highest,
            } => give(
                &mut self.pistons,
                usize::from(piston),
                Scope { lowest, highest },
            ),
            Form::Wire { board, wire } => {
                if self.wires.len() >= MOST_WIRES {
                    return Err(Taken);
                }
                self.wires.push(BookWire { line, board, wire });
                Ok(())
            }
        }
    }

    // Takes in one line.
    fn add_line(&mut self, passage: Passage) -> Result<(), BookFault>
        ensures { (es : List Entry) → Holds self.old es → Fills result self.new (with_line es passage.entry.line passage.entry.text.now) }
    {
        let Some(form) = passage.read()? else {
            return Ok(());
        };
        let line = passage.line;
        self.put(form, line).map_err(|_| BookFault::Repeat { line })
    }

    /// Reads a whole book.
    pub fn read(text: &[u8]) -> Result<Book, BookFault>
        ensures answer { Answers result (read_of text.now) }
        ensures judged { Judged result text.now }
        ensures accepts { Accepts result text.now }
        ensures entries { Entered result text.now }
        ensures sample { Sampled result text.now }
        ensures lines { IfOk result (λ b. LinesRise (wires_in b)) }
    {
        if text.len() > MOST_BYTES {
            return Err(BookFault::TooLong);
        }
        let mut book = Book::blank();
        let mut rest = Passage { text, line: 1 };
        while let Some(line) = rest.take_line() {
            book.add_line(line)?;
        }
        rest.read_end()?;
        Ok(book)
    }

    /// How many keys a division has: 0 where the book does not name it.
    pub fn keys(&self, division: usize) -> u8
        ensures value { result ≡ keys_in self.now division }
        ensures bound { result ≤ most_places }
    {
        told(&self.divisions, division).unwrap_or(0)
    }

    /// How many pipes a rank has: 0 where the book does not name it.
    pub fn pipes(&self, rank: usize) -> u8
        ensures value { result ≡ pipes_in self.now rank }
        ensures bound { result ≤ most_places }
    {
        told(&self.ranks, rank).unwrap_or(0)
    }

    /// A knob, where the book defines it.
    pub fn knob(&self, knob: usize) -> Option<Knob>
        ensures value { result ≡ knob_in self.now knob }
        ensures bound { IfSome result (λ k. Sound k.steps k.home) }
    {
        told(&self.knobs, knob)
    }

    /// The knobs that a piston takes, where the book defines it.
    pub fn scope(&self, piston: usize) -> Option<Scope>
        ensures value { result ≡ scope_in self.now piston }
        ensures bound { IfSome result (λ s. Ordered s.lowest s.highest) }
    {
        told(&self.pistons, piston)
    }

    /// The wires in their order.
    pub fn wires(&self) -> &[BookWire]
        ensures items { result.now ≡ wires_in self.now }
    {
        self.wires.as_slice()
    }

    /// How many wires a board has.
    pub fn wires_on(&self, board: Board) -> usize
        ensures value { result ≡ count_by (on_board board) (wires_in self.now) }
    {
        self.wires().iter().filter(|w| w.board == board).count()
    }
}
