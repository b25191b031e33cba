//! Sets of numbers below 128.

ghost use Rattle.std.specs.Prelude.{◌≡◌, ◌<◌, ◌==◌, ◌||◌, false, ℕ};
ghost use Rattle.bit_set.specs.Working.Sets.{has_number};

/// A set of numbers from 0 to 127.
#[derive(Clone, Copy)]
pub struct BitSet {
    /// Bit n is set if the number n is in the set.
    pub bits: u128,
}

impl BitSet {
    /// The empty set.
    pub fn new() -> BitSet
        ensures { (n : ℕ) → has_number result n ≡ false }
    {
        BitSet { bits: 0 }
    }

    /// Whether `number` is in the set.
    pub fn contains(self, number: usize) -> bool
        requires { number < 128 }
        ensures { result ≡ has_number self number }
    {
        (self.bits >> number) & 1 == 1
    }

    /// The set with `number` added.
    pub fn with(self, number: usize) -> BitSet
        requires { number < 128 }
        ensures { (n : ℕ) → has_number result n ≡ (has_number self n || n == number) }
    {
        BitSet {
            bits: self.bits | 1u128 << number,
        }
    }

    /// The union of the two sets.
    pub fn union(self, other: BitSet) -> BitSet
        ensures { (n : ℕ) → has_number result n ≡ (has_number self n || has_number other n) }
    {
        BitSet {
            bits: self.bits | other.bits,
        }
    }
}
