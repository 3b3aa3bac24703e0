//! A set of numbers below 128.
ghost use Rattle.std.specs.Prelude.{◌≡◌, ◌<◌, ◌≤◌};
ghost use Rattle.sets.specs.Numbers.{nothing, with_number, both};

use crate::rest::Rest;
use crate::word::Word;

// The numbers of a word.
pub(crate) const WORD: usize = 64;

/// Two words and not one of 128 bits, which a processor has no register for.
#[derive(Clone, Copy)]
pub struct NumberSet {
    low: Word,
    high: Word,
}

impl NumberSet {
    ghost use Rattle.sets.specs.NumberSet.{members, remaining};

    /// The set of no number.
    pub fn none() -> NumberSet
        ensures { members result ≡ nothing }
    {
        NumberSet {
            low: Word::none(),
            high: Word::none(),
        }
    }

    /// Whether a number is in it: none past 127 is.
    pub fn has(self, number: usize) -> bool
        ensures { result ≡ members self number }
    {
        if number < WORD {
            self.low.has(number)
        } else if number < 2 * WORD {
            self.high.has(number - WORD)
        } else {
            false
        }
    }

    /// The set with a number in or out. There is none past 127.
    pub fn with(mut self, number: usize, on: bool) -> NumberSet
        ensures value { number < 128 → members result ≡ with_number (members self) number on }
        ensures past { 128 ≤ number → result ≡ self }
    {
        if number < WORD {
            self.low.put(number, on);
        } else if number < 2 * WORD {
            self.high.put(number - WORD, on);
        }
        self
    }

    /// The numbers, to be taken one by one.
    pub fn rest(self) -> Rest
        ensures { remaining result ≡ members self }
    {
        Rest {
            word: self.low,
            first: 0,
            later: Some(self.high),
        }
    }

    /// The numbers that are in both sets.
    pub fn both(self, other: NumberSet) -> NumberSet
        ensures { members result ≡ both (members self) (members other) }
    {
        NumberSet {
            low: self.low.both(other.low),
            high: self.high.both(other.high),
        }
    }
}
