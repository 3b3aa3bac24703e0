//! Giving a place of a record's table what the book says of it.
ghost use Rattle.std.specs.Prelude.{◌≡◌, ◌<◌, length};
ghost use Rattle.book.specs.Tables.{Gives};

// The place was given before, or there is no room for one more.
#[derive(Clone, Copy, Debug, PartialEq)]
pub(crate) struct Taken;

// Gives a place what the book says of it; a place is given once.
pub(crate) fn give<T: Copy>(places: &mut [Option<T>], at: usize, x: T) -> Result<(), Taken>
    requires { at < length places.old }
    ensures { Gives places.old places.new at x result }
{
    if places[at].is_some() {
        return Err(Taken);
    }
    places[at] = Some(x);
    Ok(())
}
