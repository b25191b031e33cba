//! The cycle that is reported.

ghost use Rattle.std.specs.Prelude.{◌≡◌, ◌<◌, ℕ, length, IfOk, OnOk};
ghost use Rattle.lockorder.specs.Ranks.{IsCycle};
ghost use Rattle.lockorder.specs.Working.Tables.{InTable, HasCycle, IsCycleThrough};
ghost use Rattle.lockorder.specs.Working.Reached.{HasDistance, AreReached, KeepsReached, AreDistances, IsDone, IsNearest, nearer};

use crate::table::Table;
use source::memory::NoMemory;
use std::alloc::Global;

/// The classes from which edges lead to a target, as far as known.
#[derive(Drop)]
pub struct Reached {
    /// The target class.
    pub target: usize,
    /// For each class, the fewest edges from it to the target, if they are known.
    pub distances: Vec<Option<usize>>,
    /// The classes with a known distance, nearer ones first.
    pub classes: Vec<usize>,
}

// The nearer of a class with its distance and what was found before it.
fn nearer(found: Option<(usize, usize)>, class: usize, distance: usize) -> Option<(usize, usize)>
    ensures { result ≡ nearer found class distance }
{
    match found {
        Some(kept) => {
            if kept.1 <= distance {
                Some(kept)
            } else {
                Some((class, distance))
            }
        }
        None => Some((class, distance)),
    }
}

impl Reached {
    // The target alone, as reached.
    fn alone(alloc: Global, table: &Table, target: usize) -> Result<Reached, NoMemory>
        requires { target < length table.now.before.items }
        ensures target { IfOk result (λ r. r.target ≡ target) }
        ensures reached { IfOk result (AreReached table.now.before.items) }
    {
        let mut distances = vec![in alloc; None; table.before.len()]?;
        distances[target] = Some(0);
        let mut classes = Vec::new(alloc);
        classes.push(target)?;
        Ok(Reached {
            target,
            distances,
            classes,
        })
    }

    // Reaches the classes that must precede one that is reached.
    fn reach(&mut self, table: &Table, class: usize) -> Result<(), NoMemory>
        requires reached { AreReached table.now.before.items self.old }
        requires class { HasDistance self.old.distances.items class }
        ensures reached { OnOk result (AreReached table.now.before.items self.new) }
        ensures kept { OnOk result (KeepsReached self.old self.new) }
        ensures done { OnOk result (IsDone table.now.before.items self.new.distances.items class) }
    {
        let Some(distance) = self.distances[class] else {
            unreachable!()
        };
        for before in 0..table.before.len() {
            if table.has_edge(before, class) && self.distances[before].is_none() {
                self.distances[before] = Some(distance + 1);
                self.classes.push(before)?;
            }
        }
        Ok(())
    }

    // All classes from which edges lead to the target.
    fn all(alloc: Global, table: &Table, target: usize) -> Result<Reached, NoMemory>
        requires { target < length table.now.before.items }
        ensures target { IfOk result (λ r. r.target ≡ target) }
        ensures all { IfOk result (AreDistances table.now.before.items) }
    {
        let mut reached = Reached::alone(alloc, table, target)?;
        let mut done = 0;
        while done < reached.classes.len() {
            let class = reached.classes[done];
            reached.reach(table, class)?;
            done += 1;
        }
        Ok(reached)
    }

    // The nearest of the classes to which an edge leads from `class`, and its distance; of two at one distance the
    // lower-numbered.
    fn nearest(&self, table: &Table, class: usize) -> Option<(usize, usize)>
        requires class { class < length table.now.before.items }
        requires all { AreDistances table.now.before.items self.now }
        ensures { IsNearest table.now.before.items self.now class result }
    {
        let mut nearest = None;
        for next in 0..table.before.len() {
            if table.has_edge(class, next) {
                if let Some(distance) = self.distances[next] {
                    nearest = nearer(nearest, next, distance);
                }
            }
        }
        nearest
    }

    // The shortest cycle through the target; of several the first in dictionary order.
    fn cycle(&self, alloc: Global, table: &Table) -> Result<Option<Vec<usize>>, NoMemory>
        requires target { self.now.target < length table.now.before.items }
        requires all { AreDistances table.now.before.items self.now }
        ensures { IfOk result (IsCycleThrough table.now.before.items self.now.target) }
    {
        let Some(first) = self.nearest(table, self.target) else {
            return Ok(None);
        };
        let (mut class, mut distance) = first;
        let mut cycle = Vec::new(alloc);
        cycle.push(self.target)?;
        while distance > 0 {
            cycle.push(class)?;
            let Some(next) = self.nearest(table, class) else {
                unreachable!()
            };
            (class, distance) = next;
        }
        Ok(Some(cycle))
    }
}

impl Table {
    /// A cycle through the lowest-numbered class on any, with the fewest edges, and of those the first in dictionary
    /// order.
    pub fn cycle(&self, alloc: Global) -> Result<Vec<usize>, NoMemory>
        requires { HasCycle self.now.before.items }
        ensures { IfOk result (λ cycle. IsCycle (InTable self.now.before.items) cycle.items) }
    {
        for class in 0..self.before.len() {
            let reached = Reached::all(alloc, self, class)?;
            if let Some(cycle) = reached.cycle(alloc, self)? {
                return Ok(cycle);
            }
        }
        unreachable!()
    }
}
