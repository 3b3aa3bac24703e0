//! A whole organ: the console of a book over its stack.
ghost use Rattle.std.specs.Prelude.{◌≡◌, IfOk};
ghost use Rattle.book.specs.Book.{keys_in, pipes_in};
ghost use Rattle.bottom.specs.MagnetChest.{magnet_meaning, MagnetSettled};
ghost use Rattle.organ.specs.Assembly.{hang_all};
ghost use Rattle.organ.specs.Opening.{Opens, new_ranks, organ_meaning};
ghost use Rattle.organ.specs.Paths.{PathLaw, SpeaksByPaths};

use crate::assembly::assemble;
use crate::refusal::Refusal;
use crate::stack::Stack;
use crate::tables::{knob_table, piston_table};
use book::Book;
use bottom::magnet_chest::MagnetChest;
use chest::chest::Chest;
use console::console::Console;
use std::array;

/// Makes the stack of a book over a bottom chest, and its console: no key is down and every knob is at home.
pub fn open<C: Chest + Drop>(book: &Book, bottom: C) -> Result<Console<Stack<C>>, Refusal>
    ensures opens { C.Chest.settled bottom → Opens C.Chest.meaning C.Chest.settled book.now (C.Chest.meaning bottom) (hang_all (keys_in book.now) (C.Chest.meaning bottom) book.now.wires.items) result }
    ensures paths { C.Chest.settled bottom → IfOk result (λ console. PathLaw (keys_in book.now) (C.Chest.meaning bottom) book.now.wires.items (organ_meaning C.Chest.meaning C.Chest.settled console).rule) }
{
    let stack = assemble(book, bottom)?;
    Ok(Console::new(stack, knob_table(book), piston_table(book)))
}

/// The organ of a book over a magnet chest with its ranks.
pub fn open_magnets(book: &Book) -> Result<Console<Stack<MagnetChest>>, Refusal>
    ensures opens { Opens magnet_meaning MagnetSettled book.now (new_ranks (pipes_in book.now)) (hang_all (keys_in book.now) (new_ranks (pipes_in book.now)) book.now.wires.items) result }
    ensures paths { IfOk result (λ console. SpeaksByPaths (keys_in book.now) (pipes_in book.now) book.now.wires.items (organ_meaning magnet_meaning MagnetSettled console).rule) }
{
    let ranks = array::from_fn(|rank| book.pipes(rank));
    open(book, MagnetChest::new(ranks))
}
