//! The lock paths that are wanted at the points of a section, and those that are surely held there.

ghost use Rattle.std.specs.Prelude.{◌≡◌, map, slice_index, vec_len, IfOk};
ghost use Rattle.flow.specs.Skeletons.{count};
ghost use Rattle.flow.specs.Working.Parts.{skeleton_of};
ghost use Rattle.points.specs.Working.Ranks.{AreWantedBy, ranks_by_path};
ghost use Rattle.points.specs.Wanted.{AreWanted, AreSurelyHeld};

use crate::dataflow::forward_must;
use crate::ranking::Ranking;
use crate::table::Points;
use locks::path_set::PathSet;
use source::memory::NoMemory;
use std::alloc::Global;

/// For each point of a section, by its number, the lock paths that are wanted there.
pub type Wanted = Vec<PathSet>;

/// For each point of a section, by its number, the lock paths that are surely held there.
pub type Held = Vec<PathSet>;

// The rank of a class, or 0 if it has none.
fn rank_of(ranks: &[u32], class: usize) -> u32
    ensures { result ≡ slice_index ranks.now class }
{
    if class < ranks.len() { ranks[class] } else { 0 }
}

fn ranks_of(alloc: Global, ranks: &[u32], classes: &[usize]) -> Result<Vec<u32>, NoMemory>
    ensures { IfOk result (λ list. list.items ≡ map (slice_index ranks.now) classes.now) }
{
    let mut list = Vec::with_capacity(alloc, classes.len())?;
    for class in classes {
        list.push(rank_of(ranks, *class))?;
    }
    Ok(list)
}

impl Points {
    /// For each point, the paths that are wanted there, given the ranks of the classes. A class past the last rank has
    /// rank 0.
    ///
    /// # Errors
    ///
    /// Out of memory.
    pub fn wanted(&self, alloc: Global, ranks: &[u32]) -> Result<Wanted, NoMemory>
        ensures { IfOk result (λ sets. AreWanted self.now ranks.now sets.items) }
    {
        // By the laws, each point has a set, and each used path has a number.
        flow::laws::points_are_counted();
        locks::laws::each_path_once();
        let sets = self.wanted_by(alloc, ranks)?;
        Ok(sets)
    }

    /// For each point, the paths whose locks are held on every walk to it, if each point acquires what is wanted there,
    /// given the ranks of the classes. A class past the last rank has rank 0.
    ///
    /// # Errors
    ///
    /// Out of memory.
    pub fn surely_held(&self, alloc: Global, ranks: &[u32]) -> Result<Held, NoMemory>
        ensures { IfOk result (λ sets. AreSurelyHeld self.now ranks.now sets.items) }
    {
        flow::laws::points_are_counted();
        locks::laws::each_path_once();
        let wanted = self.wanted_by(alloc, ranks)?;
        let sets = forward_must(alloc, &self.parts, &wanted, &self.bound)?;
        Ok(sets)
    }

    fn wanted_by(&self, alloc: Global, ranks: &[u32]) -> Result<Wanted, NoMemory>
        ensures sets { IfOk result
            (λ sets. AreWantedBy self.now (ranks_by_path self.now ranks.now) (vec_len sets) sets.items) }
        ensures len { IfOk result (λ sets. vec_len sets ≡ count (skeleton_of self.now.parts.items)) }
    {
        let by_path = ranks_of(alloc, ranks, &self.classes)?;
        let ranking = Ranking { ranks: &by_path };
        let mut sets = Vec::with_capacity(alloc, self.used.len())?;
        for p in 0..self.used.len() {
            sets.push(ranking.wanted(self.used[p], self.used_later[p], self.in_scope[p]))?;
        }
        Ok(sets)
    }
}
