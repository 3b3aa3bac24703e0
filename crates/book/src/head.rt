//! The words of the forms.
ghost use Rattle.std.specs.Prelude.{◌≡◌};
ghost use Rattle.std.specs.Result.{result_ok};
ghost use Rattle.book.specs.Head.{head_of};

use crate::unknown::Unknown;

// The word of a form.
#[derive(Clone, Copy)]
pub(crate) enum Head {
    Keys,
    Rank,
    Knob,
    Piston,
    Wire,
}

// The head with this spelling.
impl TryFrom<&[u8]> for Head {
    type Error = Unknown;

    ghost try_from_gives = { λ word head. result_ok head ≡ head_of word.now };

    fn try_from(word: &[u8]) -> Result<Head, Unknown> {
        // each word is a fixed byte string
        match word {
            b"keys" => Ok(Head::Keys),
            b"rank" => Ok(Head::Rank),
            b"knob" => Ok(Head::Knob),
            b"piston" => Ok(Head::Piston),
            b"wire" => Ok(Head::Wire),
            _ => Err(Unknown),
        }
    }
}
