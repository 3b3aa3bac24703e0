//! The forms of a book: what each word means, from its numbers.
ghost use Rattle.std.specs.Prelude.{◌≡◌, ◌^◌, ◌-◌, ◌<◌, [], ◌∷◌, Some};
ghost use Rattle.book.specs.Form.{given, knob_from, natural, piston_from, wire_from, within};
ghost use Rattle.book.specs.Limits.{most_places, rows};
ghost use Rattle.book.specs.Reading.{formed};

use crate::board::Board;
use crate::book_fault::BookFault;
use crate::head::Head;
use crate::limits::{KNOBS, LEAST_STEPS, MOST_PLACES, MOST_STEPS, PISTONS, ROWS};
use fittings::Wire;

// The numbers of a knob and of a piston stand as a book writes them, and as the grammar's definitions do, which name each
// by its place; the record makes a `Knob` and a `Scope` of them. Keys and ranks are two cases, since a book has two words
// for them and `specs/` a meaning for each.
#[derive(Clone, Copy)]
pub(crate) enum Form {
    Keys { row: u8, reach: u8 },
    Rank { row: u8, reach: u8 },
    Knob { knob: u8, steps: u8, home: u8 },
    Piston { piston: u8, lowest: u8, highest: u8 },
    Wire { board: Board, wire: Wire },
}

// The number, if it is from `low` to `high`.
fn bounded(z: i16, low: usize, high: usize) -> Option<u8>
    requires { high < 2 ^ 8 }
    ensures { result ≡ within z low high }
{
    let n = u8::try_from(z).ok()?;
    (low..=high).contains(&usize::from(n)).then_some(n)
}

// The number, if it has no minus.
fn unsigned(z: i16) -> Option<u16>
    ensures { result ≡ natural z }
{
    u16::try_from(z).ok()
}

fn row_and_reach(row: i16, reach: i16) -> Option<(u8, u8)>
    ensures { result ≡ given (within row 0 (rows - 1)) (λ r. given (within reach 0 most_places) (λ n. Some (r, n))) }
{
    Some((bounded(row, 0, ROWS - 1)?, bounded(reach, 0, MOST_PLACES)?))
}

fn knob_form(knob: i16, steps: i16, home: i16) -> Option<Form>
    ensures { result ≡ knob_from (knob ∷ (steps ∷ (home ∷ []))) }
{
    let knob = bounded(knob, 0, KNOBS - 1)?;
    let steps = bounded(steps, LEAST_STEPS, MOST_STEPS)?;
    let home = bounded(home, 0, usize::from(steps) - 1)?;
    Some(Form::Knob { knob, steps, home })
}

fn piston_form(piston: i16, lowest: i16, highest: i16) -> Option<Form>
    ensures { result ≡ piston_from (piston ∷ (lowest ∷ (highest ∷ []))) }
{
    let piston = bounded(piston, 0, PISTONS - 1)?;
    let highest = bounded(highest, 0, KNOBS - 1)?;
    let lowest = bounded(lowest, 0, usize::from(highest))?;
    Some(Form::Piston {
        piston,
        lowest,
        highest,
    })
}

fn wire_form(n: [i16; 8]) -> Option<Form>
    ensures { result ≡ wire_from n }
{
    let [board, from, lowest, highest, to, shift, knob, position] = n;
    let board = Board::try_from(board).ok()?;
    let wire = Wire {
        from: unsigned(from)?,
        lowest: unsigned(lowest)?,
        highest: unsigned(highest)?,
        to: unsigned(to)?,
        shift,
        knob: unsigned(knob)?,
        position: unsigned(position)?,
    };
    Some(Form::Wire { board, wire })
}

impl Form {
    // The form of the head and its numbers, unless there are too many or too few, or one is out of its range.
    pub(crate) fn new(head: Head, numbers: &[i16], line: usize) -> Result<Form, BookFault>
        ensures { result ≡ formed line head numbers.now }
    {
        let form = match (head, numbers) {
            (Head::Keys, [row, reach]) => {
                let given = row_and_reach(*row, *reach);
                given.map(|(row, reach)| Form::Keys { row, reach })
            }
            (Head::Rank, [row, reach]) => {
                let given = row_and_reach(*row, *reach);
                given.map(|(row, reach)| Form::Rank { row, reach })
            }
            (Head::Knob, [knob, steps, home]) => knob_form(*knob, *steps, *home),
            (Head::Piston, [piston, lowest, highest]) => piston_form(*piston, *lowest, *highest),
            (Head::Wire, [board, from, lowest, highest, to, shift, knob, position]) => wire_form([
                *board, *from, *lowest, *highest, *to, *shift, *knob, *position,
            ]),
            _ => return Err(BookFault::Form { line }),
        };
        form.ok_or(BookFault::Range { line })
    }
}
