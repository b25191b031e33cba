//! The paths whose roots are bound after the points of a section.

ghost use Rattle.std.specs.Prelude.{IfOk};
ghost use Rattle.points.specs.Working.Points.{AreBoundLater};

use crate::dataflow::backward_may;
use crate::table::Points;
use locks::path_set::PathSet;
use source::memory::NoMemory;
use std::alloc::Global;

impl Points {
    /// For each point, the paths whose root is bound at some later point.
    ///
    /// # Errors
    ///
    /// Out of memory.
    pub fn bound_later(&self, alloc: Global) -> Result<Vec<PathSet>, NoMemory>
        ensures { IfOk result (λ sets. AreBoundLater self.now sets.items) }
    {
        let sets = backward_may(alloc, &self.parts, &self.bound)?;
        Ok(sets)
    }
}
