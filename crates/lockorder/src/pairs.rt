//! Pairs of lock classes.

ghost use Rattle.std.specs.Prelude.{◌≡◌, ◌<◌, [], IfOk, length, map, slice_index};
ghost use Rattle.lockorder.specs.Faults as cycles;
ghost use Rattle.lockorder.specs.Working.Tellings.{around, ArePairsOf};

use crate::ranks::{ClassPair, Edge};
use crate::table::Table;
use source::memory::NoMemory;
use std::alloc::Global;

// The class after the first one in a cycle.
fn second(first: usize, rest: &[usize]) -> usize
    ensures { result ≡ cycles.second first rest.now }
{
    match rest {
        [] => first,
        [next, ..] => *next,
    }
}

/// The pairs of a cycle: each class with the next one, and the last with the first.
pub fn around(alloc: Global, cycle: &[usize]) -> Result<Vec<(usize, usize)>, NoMemory>
    requires { 0 < length cycle.now }
    ensures { IfOk result (λ pairs. pairs.items ≡ around (slice_index cycle.now 0) cycle.now) }
{
    let first = cycle[0];
    let mut pairs = Vec::with_capacity(alloc, cycle.len())?;
    for (i, class) in cycle.iter().enumerate() {
        pairs.push((*class, second(first, &cycle[i + 1..])))?;
    }
    Ok(pairs)
}

/// The edges of some pairs.
pub fn edges_of(alloc: Global, pairs: &[ClassPair]) -> Result<Vec<Edge>, NoMemory>
    ensures { IfOk result (λ edges. edges.items ≡ map (λ pair. pair.edge) pairs.now) }
{
    let mut edges = Vec::with_capacity(alloc, pairs.len())?;
    for pair in pairs {
        edges.push(pair.edge)?;
    }
    Ok(edges)
}

impl Table {
    /// The pairs with an edge between them, in rising order.
    pub fn pairs(&self, alloc: Global) -> Result<Vec<(usize, usize)>, NoMemory>
        ensures { IfOk result (λ pairs. ArePairsOf self.now.before.items pairs.items) }
    {
        let mut pairs = Vec::new(alloc);
        for from in 0..self.before.len() {
            for to in 0..self.before.len() {
                if self.has_edge(from, to) {
                    pairs.push((from, to))?;
                }
            }
        }
        Ok(pairs)
    }
}
