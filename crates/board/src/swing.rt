//! What becomes of a way.
ghost use Rattle.std.specs.Prelude.{◌≡◌};
ghost use Rattle.board.specs.Swing.{starts};

#[derive(Clone, Copy, Debug, PartialEq)]
pub(crate) enum Swing {
    Starts,
    Stops,
}

// As a key is put on or off.
impl From<bool> for Swing {
    ghost from_gives = { λ on swing. starts swing ≡ on };

    fn from(on: bool) -> Swing {
        if on { Swing::Starts } else { Swing::Stops }
    }
}
