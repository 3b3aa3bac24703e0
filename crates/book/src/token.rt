//! The tokens of one line. They borrow the book's text, and each is handed on with its line.
ghost use Rattle.std.specs.Prelude.{◌≡◌, ℕ, Bool};
ghost use Rattle.std.specs.Fn.{FnReturnsAt};
ghost use Rattle.book.specs.Token.{Cuts, Runs};

use crate::classes::{is_letter, is_numeric};

// borrowed: a token is the book's own bytes
#[derive(Clone, Copy)]
pub(crate) enum Token<'a> {
    Open,
    Word(&'a [u8]),
    // the number's own bytes, without the space before it
    Number(&'a [u8]),
    Close,
}

// a token and the line that it stands on
#[derive(Clone, Copy)]
pub(crate) struct Lexed<'a> {
    pub token: Token<'a>,
    pub line: usize,
}

// The longest run of one class at the front of the text, unless it is empty, and what follows it.
fn run<'a, F: Fn(&u8) -> bool>(text: &'a [u8], class: F) -> Option<(&'a [u8], &'a [u8])>
    requires { F.IsAlwaysCallable class }
    ensures { (p : ℕ → Bool) → ((b : ℕ) (r : Bool) → FnReturnsAt F.Fn class b r → r ≡ p b) → Runs p text.now result }
{
    match text.iter().take_while(|b| class(b)).count() {
        0 => None,
        end => Some(text.split_at(end)),
    }
}

// The token at the front of the text, and what follows it.
pub(crate) fn first_token<'a>(text: &'a [u8]) -> Option<(Token<'a>, &'a [u8])>
    ensures { Cuts text.now result }
{
    let [first, after @ ..] = text else {
        return None;
    };
    match *first {
        b'(' => Some((Token::Open, after)),
        b')' => Some((Token::Close, after)),
        b' ' => run(after, is_numeric).map(|(number, rest)| (Token::Number(number), rest)),
        _ => run(text, is_letter).map(|(word, rest)| (Token::Word(word), rest)),
    }
}
