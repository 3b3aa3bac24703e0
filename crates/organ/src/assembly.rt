//! From a book's record to a stack: coupler board and stop board over a bottom chest, with the book's wires.
ghost use Rattle.std.specs.Prelude.{◌≡◌, Ok, Err, IfOk, IfErr, MatchResult};
ghost use Rattle.board.specs.Relay.{Settled, wired_of};
ghost use Rattle.chest.specs.Reaches.{reach_of};
ghost use Rattle.book.specs.Book.{LinesRise, keys_in};
ghost use Rattle.organ.specs.Assembly.{hang_all, Assembles};
ghost use Rattle.organ.specs.Fitter.{FittedInOrder, RefusedOnLine};
ghost use Rattle.organ.specs.NewStack.{NewStack};
ghost use Rattle.organ.specs.Paths.{PathLaw};
ghost use Rattle.organ.specs.Stack.{stacked};
ghost use Rattle.organ.specs.Pass.{fit_run, earlier_of};

use crate::refusal::Refusal;
use crate::stack::Stack;
use board::relay::RelayBoard;
use book::{Board, Book, BookWire};
use chest::chest::{Chest, ROWS};
use std::array;

// The first wire that a board refuses, with its number among the wires of the book.
#[derive(Clone, Copy, Debug, PartialEq)]
struct FirstRefused {
    number: usize,
    refusal: Refusal,
}

// Fits those wires of a list that are for this board, until one is refused.
fn fit_all<C: Chest>(
    board: &mut RelayBoard<C>,
    wires: &[BookWire],
    on: Board,
) -> Result<(), FirstRefused>
    ensures cases { MatchResult result (λ _. fit_run on (C.Chest.meaning board.old.below) (wired_of board.old.coupling) 0 wires.now ≡ Ok (wired_of board.new.coupling)) (λ e. fit_run on (C.Chest.meaning board.old.below) (wired_of board.old.coupling) 0 wires.now ≡ Err e) }
    ensures reach { (wired_of board.new.coupling).reach ≡ (wired_of board.old.coupling).reach }
    ensures below { board.new.below ≡ board.old.below }
    ensures settled { Settled C.Chest.meaning C.Chest.settled board.old → Settled C.Chest.meaning C.Chest.settled board.new }
{
    for (number, wire) in wires.iter().enumerate() {
        if wire.board == on {
            board.fit(wire.wire).map_err(|fault| FirstRefused {
                number,
                refusal: Refusal {
                    line: wire.line,
                    fault,
                },
            })?;
        }
    }
    Ok(())
}

// The refusal of the earlier wire, if there is one.
fn earlier(coupler: Result<(), FirstRefused>, stop: Result<(), FirstRefused>) -> Result<(), Refusal>
    ensures { result ≡ earlier_of coupler stop }
{
    let refused = match (coupler, stop) {
        (Err(e), Err(f)) => Err(if e.number < f.number { e } else { f }),
        (coupler, stop) => coupler.and(stop),
    };
    refused.map_err(|s| s.refusal)
}

// The stack with these reaches and wires over a bottom chest, or the first wire that its board refuses.
fn hang<C: Chest + Drop>(
    reaches: [u8; ROWS],
    wires: &[BookWire],
    bottom: C,
) -> Result<Stack<C>, Refusal>
    ensures { C.Chest.settled bottom → Assembles C.Chest.meaning C.Chest.settled (reach_of reaches) (C.Chest.meaning bottom) (hang_all (reach_of reaches) (C.Chest.meaning bottom) wires.now) result }
{
    let mut stops = RelayBoard::new(bottom, reaches);
    let stop = fit_all(&mut stops, wires, Board::Stop);
    let mut couplers = RelayBoard::new(stops, reaches);
    let coupler = fit_all(&mut couplers, wires, Board::Coupler);
    earlier(coupler, stop)?;
    Ok(couplers)
}

/// The stack of a book over a bottom chest, or the first wire that its board refuses.
pub fn assemble<C: Chest + Drop>(book: &Book, bottom: C) -> Result<Stack<C>, Refusal>
    ensures law { C.Chest.settled bottom → FittedInOrder (keys_in book.now) (C.Chest.meaning bottom) C.Chest.meaning book.now.wires.items result }
    ensures lines { C.Chest.settled bottom → LinesRise book.now.wires.items → IfErr result (RefusedOnLine (keys_in book.now) (C.Chest.meaning bottom) book.now.wires.items) }
    ensures made { C.Chest.settled bottom → IfOk result (λ stack. NewStack (keys_in book.now) (C.Chest.meaning bottom) (stacked C.Chest.meaning stack)) }
    ensures paths { C.Chest.settled bottom → IfOk result (λ stack. PathLaw (keys_in book.now) (C.Chest.meaning bottom) book.now.wires.items (stacked C.Chest.meaning stack).rule) }
    ensures cases { C.Chest.settled bottom → Assembles C.Chest.meaning C.Chest.settled (keys_in book.now) (C.Chest.meaning bottom) (hang_all (keys_in book.now) (C.Chest.meaning bottom) book.now.wires.items) result }
{
    let reaches = array::from_fn(|division| book.keys(division));
    hang(reaches, book.wires(), bottom)
}
