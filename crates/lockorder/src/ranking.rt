//! Ranks by a table of edges.

ghost use Rattle.std.specs.Prelude.{◌<◌, ℕ, length, IfOk};
ghost use Rattle.std.specs.Bool.{Decides};
ghost use Rattle.lockorder.specs.Working.Tables.{InSet, InTable, IsNextOrNone, IsRanking};

use crate::ranks::Ranks;
use crate::table::Table;
use bit_set::set::BitSet;
use source::memory::NoMemory;
use std::alloc::Global;

impl Table {
    // Whether all classes that must precede this one are listed.
    fn is_behind(&self, listed: BitSet, class: usize) -> bool
        requires { class < length self.now.before.items }
        ensures { Decides result ((b : ℕ) → InTable self.now.before.items b class → InSet listed b) }
    {
        for before in 0..self.before.len() {
            if self.has_edge(before, class) && !listed.contains(before) {
                return false;
            }
        }
        true
    }

    // The lowest-numbered class that is not listed while all that must precede it are.
    fn next(&self, listed: BitSet) -> Option<usize>
        ensures { IsNextOrNone self.now.before.items listed result }
    {
        for class in 0..self.before.len() {
            if !listed.contains(class) && self.is_behind(listed, class) {
                return Some(class);
            }
        }
        None
    }

    /// For each class, its place in the list in which each class is the lowest-numbered one whose predecessors are
    /// listed before it; `None` if the table has a cycle.
    pub fn ranks(&self, alloc: Global) -> Result<Option<Ranks>, NoMemory>
        ensures { IfOk result (IsRanking self.now.before.items) }
    {
        let classes = self.before.len();
        let mut ranks = Vec::with_capacity(alloc, classes)?;
        for _class in 0..classes {
            ranks.push(0)?;
        }
        let mut listed = BitSet::new();
        for rank in 0..classes {
            let Some(class) = self.next(listed) else {
                return Ok(None);
            };
            ranks[class] = rank as u32;
            listed = listed.with(class);
        }
        Ok(Some(ranks))
    }
}
