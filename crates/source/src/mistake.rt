//! Faults by code and position, and which of several is reported: the one that starts first, and of those at one byte
//! the one with the lowest code.

ghost use Rattle.std.specs.Prelude.{◌≡◌};
ghost use Rattle.source.specs.Mistakes.{code_number, goes_before, lesser};

use crate::fault::Code;

/// A fault: its code and its position.
#[derive(Clone, Copy, Debug, PartialEq, Eq)]
pub struct Mistake {
    /// What is wrong.
    pub code: Code,
    /// The byte of the text at which the fault is, from 0.
    pub start: usize,
}

impl Mistake {
    /// Whether this fault is reported before `other`: it starts earlier, or at the same byte with a lower code.
    pub fn precedes(self, other: Mistake) -> bool
        ensures { result ≡ goes_before self other }
    {
        self.start < other.start
            || self.start == other.start && self.code.number() < other.code.number()
    }
}

/// Replaces `least` by the fault with this code at this byte if `least` is `None` or is reported later.
///
/// If the kept fault is the same or is reported earlier, it stays.
pub fn report(least: &mut Option<Mistake>, code: Code, start: usize)
    ensures { least.new ≡ lesser least.old (record { code = code; start = start }) }
{
    let found = Mistake { code, start };
    match *least {
        Some(kept) => {
            if found.precedes(kept) {
                *least = Some(found);
            }
        }
        None => *least = Some(found),
    }
}
