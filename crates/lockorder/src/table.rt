//! Edges between lock classes.

ghost use Rattle.std.specs.Prelude.{◌≡◌, ◌<◌, ◌≤◌, false, ℕ, length, IfOk};
ghost use Rattle.lockorder.specs.Working.Tables.{has_edge, AddsEach, InSet, LeadsWithin};

use bit_set::set::BitSet;
use source::memory::NoMemory;
use std::alloc::Global;

/// Which lock classes must precede which.
#[derive(Drop)]
pub struct Table {
    /// For each class, those that must precede it.
    pub before: Vec<BitSet>,
    ghost few: { length before.items ≤ 128 },
    ghost within: { LeadsWithin before.items },
}

impl Table {
    /// A table of the given number of classes, without an edge.
    pub fn new(alloc: Global, classes: usize) -> Result<Table, NoMemory>
        requires { classes ≤ 128 }
        ensures classes { IfOk result (λ table. length table.before.items ≡ classes) }
        ensures edges { IfOk result (λ table. (c d : ℕ) → has_edge table.before.items c d ≡ false) }
    {
        let before = vec![in alloc; BitSet::new(); classes]?;
        Ok(Table { before })
    }

    /// Whether there is an edge from one class to another.
    pub fn has_edge(&self, from: usize, to: usize) -> bool
        requires from { from < length self.now.before.items }
        requires to { to < length self.now.before.items }
        ensures { result ≡ has_edge self.now.before.items from to }
    {
        self.before[to].contains(from)
    }

    /// Adds an edge from each of some classes to another.
    pub fn add(&mut self, from: BitSet, to: usize)
        requires from { (c : ℕ) → InSet from c → c < length self.old.before.items }
        requires to { to < length self.old.before.items }
        ensures classes { length self.new.before.items ≡ length self.old.before.items }
        ensures edges { AddsEach self.old.before.items self.new.before.items from to }
    {
        self.before[to] = self.before[to].union(from);
    }
}
