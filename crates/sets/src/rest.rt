//! What is left of a set while its numbers are taken one by one.
ghost use Rattle.std.specs.Prelude.{◌≡◌, ◌<◌, if◌then◌else◌, is_some, IfSome};
ghost use Rattle.sets.specs.Numbers.{PopsFirst};

use crate::number_set::WORD;
use crate::word::Word;

/// The word that is walked, and the high word while that is the low one. Not a set that shrinks: then a processor would hold
/// both words in one register, and take each number out of that.
#[derive(Clone, Copy)]
pub struct Rest {
    pub(crate) word: Word,
    // the number of its first bit
    pub(crate) first: usize,
    pub(crate) later: Option<Word>,
    ghost from: { first ≡ if is_some later then 0 else 64 },
}

impl Rest {
    ghost use Rattle.sets.specs.NumberSet.{remaining};

    /// Takes out the least number.
    pub fn pop_first(&mut self) -> Option<usize>
        ensures value { PopsFirst (remaining self.old) (remaining self.new) result }
        ensures bound { IfSome result (λ number. number < 128) }
    {
        if let Some(number) = self.word.pop_first() {
            return Some(self.first + number);
        }
        self.word = self.later.take()?;
        self.first = WORD;
        let number = self.word.pop_first()?;
        Some(WORD + number)
    }
}
