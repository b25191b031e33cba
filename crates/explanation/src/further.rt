//! Faults that are reported with another.

ghost use Rattle.std.specs.Prelude.{◌≡◌};
ghost use Rattle.explanation.specs.Further.{further_of, nothing_further};

use source::mistake::Mistake;
use std::alloc::Global;

/// The faults after the reported one, of the pass that found it.
#[derive(Debug, Drop)]
pub struct Further {
    /// The faults, ordered by place.
    pub faults: Vec<Mistake>,
    /// Whether more were found.
    pub has_more: bool,
}

impl Further {
    /// No faults. It allocates nothing.
    pub fn none(alloc: Global) -> Further
        ensures { further_of result ≡ nothing_further }
    {
        Further {
            faults: Vec::new(alloc),
            has_more: false,
        }
    }
}
