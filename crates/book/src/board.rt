//! The boards that a book's wires go to.
ghost use Rattle.std.specs.Prelude.{◌≡◌};
ghost use Rattle.std.specs.Option.{option_map};
ghost use Rattle.std.specs.Result.{result_ok};
ghost use Rattle.book.specs.Form.{board_of, within};

use crate::unknown::Unknown;

/// The board that a wire is for.
#[derive(Clone, Copy, Debug, Default, PartialEq)]
pub enum Board {
    #[default]
    Coupler,
    Stop,
}

// 1 is the coupler board, 2 the stop board.
impl TryFrom<i16> for Board {
    type Error = Unknown;

    ghost try_from_gives = { λ number board. result_ok board ≡ option_map board_of (within number 1 2) };

    fn try_from(number: i16) -> Result<Board, Unknown> {
        match number {
            1 => Ok(Board::Coupler),
            2 => Ok(Board::Stop),
            _ => Err(Unknown),
        }
    }
}
