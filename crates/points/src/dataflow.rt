//! Dataflow analyses over the points of a section.
//!
//! A may analysis finds what some way brings to a point, a must analysis what every way brings. Each point has a
//! transfer function, which adds what the point generates and then removes what it kills.

ghost use Rattle.std.specs.Prelude.{◌≡◌, ◌≤◌, ◌+◌, ℕ, length, vec_len, IfOk, OnOk, IsTrue};
ghost use Rattle.flow.specs.Skeletons.{count, Nil};
ghost use Rattle.flow.specs.Working.Parts.{skeleton_of, part_in_front};
ghost use Rattle.locks.specs.Sets.{has};
ghost use Rattle.points.specs.Working.Dataflow.{marks, joins, transfers, down_to, IsMay, IsThrough, IsBehind};
ghost use Rattle.points.specs.Working.Dataflow.{AreForward, AreBackward, AreForwardMay, AreBackwardMay, AreForwardMust};

use crate::counting::points_in;
use flow::skeleton::Part;
use locks::path_set::PathSet;
use source::memory::NoMemory;
use std::alloc::Global;

/// For each point, the paths that some point before it generates.
pub fn forward_may(
    alloc: Global,
    parts: &[Part],
    gens: &[PathSet],
) -> Result<Vec<PathSet>, NoMemory>
    requires { length gens.now ≡ count (skeleton_of parts.now) }
    ensures sets { IfOk result (λ sets. AreForwardMay gens.now (skeleton_of parts.now) sets.items) }
    ensures len { IfOk result (λ sets. vec_len sets ≡ count (skeleton_of parts.now)) }
{
    let analysis = Dataflow {
        gens,
        kills: &[],
        join: Join::Union,
    };
    let mut sets = Vec::with_capacity(alloc, gens.len())?;
    analysis.forward(parts, PathSet::new(), &mut sets)?;
    Ok(sets)
}

/// For each point, the paths that some point after it generates.
pub fn backward_may(
    alloc: Global,
    parts: &[Part],
    gens: &[PathSet],
) -> Result<Vec<PathSet>, NoMemory>
    requires { length gens.now ≡ count (skeleton_of parts.now) }
    ensures sets { IfOk result (λ sets. AreBackwardMay gens.now (skeleton_of parts.now) sets.items) }
    ensures len { IfOk result (λ sets. vec_len sets ≡ count (skeleton_of parts.now)) }
{
    let analysis = Dataflow {
        gens,
        kills: &[],
        join: Join::Union,
    };
    let mut sets = Vec::with_capacity(alloc, gens.len())?;
    analysis.backward(parts, PathSet::new(), &mut sets)?;
    sets.reverse();
    Ok(sets)
}

/// For each point, the paths that each walk to it generates and does not kill from there on.
pub fn forward_must(
    alloc: Global,
    parts: &[Part],
    gens: &[PathSet],
    kills: &[PathSet],
) -> Result<Vec<PathSet>, NoMemory>
    requires { length gens.now ≡ count (skeleton_of parts.now) }
    ensures sets { IfOk result (λ sets. AreForwardMust gens.now kills.now (skeleton_of parts.now) sets.items) }
    ensures len { IfOk result (λ sets. vec_len sets ≡ count (skeleton_of parts.now)) }
{
    let analysis = Dataflow {
        gens,
        kills,
        join: Join::Meet,
    };
    let mut sets = Vec::with_capacity(alloc, gens.len())?;
    analysis.forward(parts, PathSet::new(), &mut sets)?;
    Ok(sets)
}

/// How an analysis joins what two ways bring to a point: a may analysis by union, a must analysis by intersection.
#[derive(Clone, Copy)]
pub enum Join {
    Union,
    Meet,
}

/// An analysis: its join, and the transfer functions of the points.
#[derive(Drop)]
pub struct Dataflow<'a> {
    /// For each point, the paths that it generates.
    pub gens: &'a [PathSet],
    /// For each point, the paths that it kills. A point past the last set kills none.
    pub kills: &'a [PathSet],
    pub join: Join,
}

impl<'a> Dataflow<'a> {
    // Whether it is a may analysis that kills nothing.
    fn is_may(&self) -> bool
        ensures { IsTrue result → IsMay self.now }
    {
        match self.join {
            Join::Union => self.kills.is_empty(),
            Join::Meet => false,
        }
    }

    fn join(&self, one: PathSet, two: PathSet) -> PathSet
        ensures { (i : ℕ) → has result i ≡ joins self.now (has one i) (has two i) }
    {
        match self.join {
            Join::Union => one.union(two),
            Join::Meet => one.meet(two),
        }
    }

    // The result of a point's transfer function.
    fn transfer(&self, point: usize, set: PathSet) -> PathSet
        ensures { (i : ℕ) → has result i ≡ transfers self.now i point (has set i) }
    {
        let generated = set_at(self.gens, point);
        let killed = set_at(self.kills, point);
        generated.union(set).minus(killed)
    }

    // The set after these parts, which are numbered from `n`, if `set` is the set before them, and the number after
    // theirs.
    #[cycle(through)]
    fn through(&self, parts: &[Part], n: usize, set: PathSet) -> (PathSet, usize)
        requires { n + count (skeleton_of parts.now) ≤ length self.now.gens.now }
        ensures set { IsThrough self.now (skeleton_of parts.now) n set result.0 }
        ensures next { result.1 ≡ n + count (skeleton_of parts.now) }
    {
        let mut all = set;
        let mut at = n;
        for part in parts {
            let (set, next) = self.through_part(part, at, all);
            all = set;
            at = next;
        }
        (all, at)
    }

    #[cycle(through)]
    fn through_part(&self, part: &Part, n: usize, set: PathSet) -> (PathSet, usize)
        requires { n + count (part_in_front part.now Nil) ≤ length self.now.gens.now }
        ensures set { IsThrough self.now (part_in_front part.now Nil) n set result.0 }
        ensures next { result.1 ≡ n + count (part_in_front part.now Nil) }
    {
        let here = self.transfer(n, set);
        let inner = n + 1;
        match part {
            Part::Point => (here, inner),
            Part::If(block, otherwise) => {
                let (one, middle) = self.through(block, inner, here);
                let (two, end) = self.through(otherwise, middle, here);
                (self.join(one, two), end)
            }
            Part::While(body) => {
                let (round, end) = self.through(body, inner, here);
                (self.transfer(n, self.join(set, round)), end)
            }
        }
    }

    // Adds the set before each point of these parts, if `set` is the one before the first. Returns the set after the
    // last.
    #[cycle(forward)]
    fn forward(
        &self,
        parts: &[Part],
        set: PathSet,
        sets: &mut Vec<PathSet>,
    ) -> Result<PathSet, NoMemory>
        requires { vec_len sets.old + count (skeleton_of parts.now) ≤ length self.now.gens.now }
        ensures sets { OnOk result (AreForward self.now (skeleton_of parts.now) set sets.old sets.new) }
        ensures len { OnOk result (vec_len sets.new ≡ vec_len sets.old + count (skeleton_of parts.now)) }
        ensures set { IfOk result (IsThrough self.now (skeleton_of parts.now) (vec_len sets.old) set) }
    {
        let mut all = set;
        for part in parts {
            all = self.forward_part(part, all, sets)?;
        }
        Ok(all)
    }

    #[cycle(forward)]
    fn forward_part(
        &self,
        part: &Part,
        set: PathSet,
        sets: &mut Vec<PathSet>,
    ) -> Result<PathSet, NoMemory>
        requires { vec_len sets.old + count (part_in_front part.now Nil) ≤ length self.now.gens.now }
        ensures sets { OnOk result (AreForward self.now (part_in_front part.now Nil) set sets.old sets.new) }
        ensures len { OnOk result (vec_len sets.new ≡ vec_len sets.old + count (part_in_front part.now Nil)) }
        ensures set { IfOk result (IsThrough self.now (part_in_front part.now Nil) (vec_len sets.old) set) }
    {
        let n = sets.len();
        let here = self.transfer(n, set);
        match part {
            Part::Point => {
                sets.push(set)?;
                Ok(here)
            }
            Part::If(block, otherwise) => {
                sets.push(set)?;
                let one = self.forward(block, here, sets)?;
                let two = self.forward(otherwise, here, sets)?;
                Ok(self.join(one, two))
            }
            // A loop's condition is reached from before the loop and from the end of its body. One pass over the loop
            // is enough; if nothing is killed, all points of the loop then have the same set.
            Part::While(body) => {
                let (round, end) = self.through(body, n + 1, here);
                if self.is_may() {
                    sets.resize(end, round)?;
                    return Ok(round);
                }
                let both = self.join(set, round);
                sets.push(both)?;
                let inner = self.transfer(n, both);
                self.forward(body, inner, sets)?;
                Ok(inner)
            }
        }
    }

    // Adds the set for each point of these parts, from the last to the first, if `set` is the one after the last.
    // Returns the set before the first.
    #[cycle(backward)]
    fn backward(
        &self,
        parts: &[Part],
        set: PathSet,
        sets: &mut Vec<PathSet>,
    ) -> Result<PathSet, NoMemory>
        requires may { IsMay self.now }
        requires room { vec_len sets.old + count (skeleton_of parts.now) ≤ length self.now.gens.now }
        ensures sets { OnOk result (AreBackward self.now (skeleton_of parts.now) set sets.old sets.new) }
        ensures len { OnOk result (vec_len sets.new ≡ vec_len sets.old + count (skeleton_of parts.now)) }
        ensures set { IfOk result (IsBehind self.now (skeleton_of parts.now) (down_to self.now sets.new) set) }
    {
        let mut all = set;
        let mut i = parts.len();
        while i > 0 {
            i -= 1;
            all = self.backward_part(&parts[i], all, sets)?;
        }
        Ok(all)
    }

    #[cycle(backward)]
    fn backward_part(
        &self,
        part: &Part,
        set: PathSet,
        sets: &mut Vec<PathSet>,
    ) -> Result<PathSet, NoMemory>
        requires may { IsMay self.now }
        requires room { vec_len sets.old + count (part_in_front part.now Nil) ≤ length self.now.gens.now }
        ensures sets { OnOk result (AreBackward self.now (part_in_front part.now Nil) set sets.old sets.new) }
        ensures len { OnOk result (vec_len sets.new ≡ vec_len sets.old + count (part_in_front part.now Nil)) }
        ensures set { IfOk result (IsBehind self.now (part_in_front part.now Nil) (down_to self.now sets.new) set) }
    {
        match part {
            Part::Point => {
                sets.push(set)?;
                Ok(self.transfer(self.gens.len() - sets.len(), set))
            }
            Part::If(block, otherwise) => {
                let two = self.backward(otherwise, set, sets)?;
                let one = self.backward(block, set, sets)?;
                let either = self.join(one, two);
                sets.push(either)?;
                Ok(self.transfer(self.gens.len() - sets.len(), either))
            }
            // Each point of a loop comes before each of its points.
            Part::While(body) => {
                let len = sets.len() + points_in(body) + 1;
                let n = self.gens.len() - len;
                let (all, _) = self.through(body, n + 1, self.transfer(n, set));
                sets.resize(len, all)?;
                Ok(all)
            }
        }
    }
}

// The set of a point, or the empty set past the last one.
fn set_at(sets: &[PathSet], point: usize) -> PathSet
    ensures { (i : ℕ) → has result i ≡ marks i sets.now point }
{
    if point < sets.len() {
        sets[point]
    } else {
        PathSet::new()
    }
}
