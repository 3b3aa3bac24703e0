//! A part of a book's text with its place: what is still to be read, one line, or what is left of a line.
ghost use Rattle.std.specs.Prelude.{◌≡◌, ◌+◌, ◌≤◌, List, length};
ghost use Rattle.book.specs.Bytes.{allowed, first_outside};
ghost use Rattle.book.specs.Entry.{Entry, Holds};
ghost use Rattle.book.specs.Limits.{most_bytes};
ghost use Rattle.book.specs.Passage.{Comes};
ghost use Rattle.book.specs.Pieces.{Shape};
ghost use Rattle.book.specs.Reading.{Fills, at_end, form_of, line_form};
ghost use Rattle.book.specs.Shapes.{Kept};
ghost use Rattle.book.specs.Token.{Lexes};

use crate::book::Book;
use crate::book_fault::BookFault;
use crate::classes::{end_of_line, is_allowed};
use crate::form::Form;
use crate::head::Head;
use crate::parts::{Parts, read_shape};
use crate::token::{Lexed, first_token};

#[derive(Clone, Copy)]
pub(crate) struct Passage<'a> {
    pub text: &'a [u8],
    // the number of the line that it starts on
    pub line: usize,
}

// The form that the parts of a line come to.
fn read_form(parts: Parts) -> Result<Form, BookFault>
    ensures { (s : Shape) → parts.entry.word.now ≡ s.head → Kept parts.entry.numbers s.numbers → result ≡ form_of parts.entry.line s }
{
    let line = parts.line;
    // written out, since after `map_err` and `?` it is not known that the head is the word's
    let Ok(head) = Head::try_from(parts.word) else {
        return Err(BookFault::Form { line });
    };
    Form::new(head, &parts.numbers, line)
}

impl<'a> Passage<'a> {
    // How many bytes stand before the first that no line may hold, where it has one.
    pub(crate) fn first_outside(self) -> Option<usize>
        ensures { result ≡ first_outside allowed self.entry.text.now }
    {
        // every byte of the line is looked at before its brackets, and the first that it may not hold is its fault
        for (at, byte) in self.text.iter().enumerate() {
            if !is_allowed(byte) {
                return Some(at);
            }
        }
        None
    }

    // Takes the first line off, with its end, or nothing where no line end is left.
    pub(crate) fn take_line(&mut self) -> Option<Passage<'a>>
        requires { self.old.line + length self.old.text.now ≤ most_bytes + 1 }
        ensures { Comes self.old result self.new }
    {
        let end = end_of_line(self.text)?;
        let line = Passage {
            text: &self.text[..end],
            line: self.line,
        };
        self.text = &self.text[end + 1..];
        self.line += 1;
        Some(line)
    }

    // Takes the first token off, or nothing where none stands there.
    pub(crate) fn next_token(&mut self) -> Option<Lexed<'a>>
        ensures answer { Lexes self.old.line self.old.text.now result self.new.text.now }
        ensures same { self.new.line ≡ self.old.line }
    {
        let (token, rest) = first_token(self.text)?;
        self.text = rest;
        Some(Lexed {
            token,
            line: self.line,
        })
    }

    // Reads it as one line.
    pub(crate) fn read(self) -> Result<Option<Form>, BookFault>
        ensures { result ≡ line_form self.entry.line self.entry.text.now }
    {
        let Passage { text, line } = self;
        if let Some(at) = self.first_outside() {
            return Err(BookFault::Byte { line, at });
        }
        if text.is_empty() {
            return Ok(None);
        }
        let parts = read_shape(self).ok_or(BookFault::Shape { line })?;
        read_form(parts).map(Some)
    }

    // Reads it as what stands after the last line end: nothing may.
    pub(crate) fn read_end(self) -> Result<(), BookFault>
        ensures { (b : Book) (es : List Entry) → Holds b es → Fills result b (at_end es self.entry.line self.entry.text.now) }
    {
        match self.first_outside() {
            Some(at) => Err(BookFault::Byte {
                line: self.line,
                at,
            }),
            None if self.text.is_empty() => Ok(()),
            None => Err(BookFault::Shape { line: self.line }),
        }
    }
}
