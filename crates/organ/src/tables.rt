//! The knobs and pistons of a book, as a console takes them. Each table has calls of its own, so one function that filled
//! both would be handed all that it does.
ghost use Rattle.std.specs.Prelude.{◌≡◌, ℕ};
ghost use Rattle.console.specs.KnobTable.{steps_of, home_of};
ghost use Rattle.console.specs.PistonTable.{scope_of};
ghost use Rattle.organ.specs.Tables.{book_steps, book_home, book_scope};

use book::{Book, KNOBS, PISTONS};
use console::knob_table::KnobTable;
use console::piston_table::PistonTable;

// The knobs that the book defines.
pub(crate) fn knob_table(book: &Book) -> KnobTable
    ensures steps { (k : ℕ) → steps_of result k ≡ book_steps book.now k }
    ensures homes { (k : ℕ) → home_of result k ≡ book_home book.now k }
{
    let mut table = KnobTable::new();
    for k in 0..KNOBS {
        if let Some(knob) = book.knob(k) {
            table = table.with_knob(k, knob).unwrap_or(table);
        }
    }
    table
}

// The pistons that the book defines.
pub(crate) fn piston_table(book: &Book) -> PistonTable
    ensures { (q : ℕ) → scope_of result q ≡ book_scope book.now q }
{
    let mut table = PistonTable::new();
    for q in 0..PISTONS {
        if let Some(scope) = book.scope(q) {
            table = table.with_piston(q, scope).unwrap_or(table);
        }
    }
    table
}
