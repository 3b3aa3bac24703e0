//! A set of numbers below 64, as the bits of a word.
ghost use Rattle.std.specs.Prelude.{◌≡◌, ◌<◌, ◌^◌, IfSome};
ghost use Rattle.sets.specs.Numbers.{nothing, with_number, both, bits_of, PopsFirst};

#[derive(Clone, Copy)]
pub(crate) struct Word {
    pub(crate) bits: u64,
    ghost fits: { bits < 2 ^ 64 },
}

impl Word {
    pub(crate) fn none() -> Word
        ensures { bits_of result.bits ≡ nothing }
    {
        Word { bits: 0 }
    }

    pub(crate) fn has(self, number: usize) -> bool
        requires { number < 64 }
        ensures { result ≡ bits_of self.bits number }
    {
        (self.bits >> number) % 2 == 1
    }

    // Puts a number in or takes it out.
    pub(crate) fn put(&mut self, number: usize, on: bool)
        requires { number < 64 }
        ensures { bits_of self.new.bits ≡ with_number (bits_of self.old.bits) number on }
    {
        let flag = 1u64 << number;
        self.bits = if on {
            self.bits | flag
        } else {
            self.bits & !flag
        };
    }

    // Takes out the least number.
    pub(crate) fn pop_first(&mut self) -> Option<usize>
        ensures value { PopsFirst (bits_of self.old.bits) (bits_of self.new.bits) result }
        ensures bound { IfSome result (λ number. number < 64) }
    {
        if self.bits == 0 {
            return None;
        }
        let first = self.bits.trailing_zeros() as usize;
        self.put(first, false);
        Some(first)
    }

    pub(crate) fn both(self, other: Word) -> Word
        ensures { bits_of result.bits ≡ both (bits_of self.bits) (bits_of other.bits) }
    {
        Word {
            bits: self.bits & other.bits,
        }
    }
}
