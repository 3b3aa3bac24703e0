//! A line as a form: one word, and the numbers after it.
ghost use Rattle.std.specs.Prelude.{◌≡◌};
ghost use Rattle.book.specs.Pieces.{numbers_of, shape_of, pieces};
ghost use Rattle.book.specs.Shapes.{Keeps, Shapes};

use crate::limits::MOST_KEPT;
use crate::numerals::read_numeral;
use crate::passage::Passage;
use crate::token::Token;
use arrayvec::ArrayVec;

#[derive(Drop)]
pub(crate) struct Parts<'a> {
    pub word: &'a [u8],
    pub line: usize,
    // the first nine: more are too many for any form
    pub numbers: ArrayVec<i16, MOST_KEPT>,
}

// The numbers up to the closing bracket, after which nothing may stand.
fn read_numbers(rest: &mut Passage) -> Option<ArrayVec<i16, MOST_KEPT>>
    ensures { Keeps result (numbers_of (pieces rest.old.text.now)) }
{
    let mut numbers = ArrayVec::new();
    loop {
        match rest.next_token()?.token {
            Token::Number(text) => {
                let _ = numbers.try_push(read_numeral(text)?);
            }
            Token::Close => break,
            Token::Open | Token::Word(_) => return None,
        }
    }
    if rest.text.is_empty() {
        Some(numbers)
    } else {
        None
    }
}

pub(crate) fn read_shape(line: Passage) -> Option<Parts>
    ensures { Shapes line.entry.line result (shape_of line.entry.text.now) }
{
    let mut rest = line;
    let Token::Open = rest.next_token()?.token else {
        return None;
    };
    let head = rest.next_token()?;
    let Token::Word(word) = head.token else {
        return None;
    };
    let numbers = read_numbers(&mut rest)?;
    Some(Parts {
        word,
        line: head.line,
        numbers,
    })
}
