//! The points of a section that bind roots of lock paths, and which points come before them.

ghost use Rattle.std.specs.Prelude.{◌≡◌, ◌<◌, ℕ, length, IfOk};
ghost use Rattle.std.specs.Bool.{Decides};
ghost use Rattle.locks.specs.Sets.{has};
ghost use Rattle.points.specs.Working.Points.{AreBoundLater};
ghost use Rattle.lockorder.specs.Working.Sections.{AreBindings, AreBoundOnce, AreListedBindings, HasAnyBehind, IsBindingFor, IsFirstOrNone, IsIn, IsOfClass};

use crate::path_sets::share;
use locks::path_set::PathSet;
use points::table::Points;
use source::memory::NoMemory;
use std::alloc::Global;

/// The points of a section that bind roots of lock paths, and which points come before them.
#[derive(Drop)]
pub struct Bindings<'a> {
    /// The section's points.
    pub points: &'a Points,
    /// For each point, the paths whose root is bound at some later point.
    pub later: Vec<PathSet>,
    /// The points that bind roots, in the order of the text.
    pub list: Vec<usize>,
}

// The points that bind roots, in the order of the text.
fn list_of(alloc: Global, points: &Points) -> Result<Vec<usize>, NoMemory>
    ensures { IfOk result (λ list. AreListedBindings points.now list.items) }
{
    let mut list = Vec::new(alloc);
    for point in 0..points.bound.len() {
        if points.bound[point] != PathSet::new() {
            list.push(point)?;
        }
    }
    Ok(list)
}

impl<'a> Bindings<'a> {
    /// The bindings of a section.
    pub fn of(alloc: Global, points: &'a Points) -> Result<Bindings<'a>, NoMemory>
        ensures points { IfOk result (λ b. b.points.now ≡ points.now) }
        ensures bindings { IfOk result AreBindings }
    {
        let later = points.bound_later(alloc)?;
        let list = list_of(alloc, points)?;
        Ok(Bindings {
            points,
            later,
            list,
        })
    }

    /// The paths whose root is bound at `point` or at some later point.
    pub fn behind(&self, point: usize) -> PathSet
        requires bindings { AreBindings self.now }
        requires point { point < length self.now.points.now.bound.items }
        ensures { HasAnyBehind self.now.points.now point result }
    {
        self.points.bound[point].union(self.later[point])
    }

    // The paths of a class.
    fn paths_of(&self, class: usize) -> PathSet
        ensures { (i : ℕ) → Decides (has result i) (IsOfClass self.now.points.now class i) }
    {
        let mut paths = PathSet::new();
        for path in 0..self.points.classes.len() {
            if self.points.classes[path] == class {
                paths = paths.with(path);
            }
        }
        paths
    }

    // Whether `bound` binds the root of one of the paths `roots`, and is `point` or a later point. A root is bound at
    // only one point, so one that is bound later is bound there.
    fn is_for(&self, point: usize, roots: PathSet, bound: usize) -> bool
        requires bindings { AreBindings self.now }
        requires once { AreBoundOnce self.now.points.now }
        requires roots { (i : ℕ) → IsIn roots i → i < length self.now.points.now.classes.items }
        requires point { point < length self.now.points.now.bound.items }
        requires bound { bound < length self.now.points.now.bound.items }
        ensures { Decides result (IsBindingFor self.now.points.now roots point bound) }
    {
        let binds = self.points.bound[bound];
        if point == bound {
            return share(binds, roots);
        }
        share(binds.meet(roots), self.later[point])
    }

    /// The first point in the order of the text that binds the root of a path of `class`, and is `point` or a later
    /// point.
    pub fn first(&self, point: usize, class: usize) -> Option<usize>
        requires bindings { AreBindings self.now }
        requires once { AreBoundOnce self.now.points.now }
        requires point { point < length self.now.points.now.bound.items }
        ensures { IsFirstOrNone self.now.points.now point class result }
    {
        let roots = self.paths_of(class);
        for i in 0..self.list.len() {
            let bound = self.list[i];
            if self.is_for(point, roots, bound) {
                return Some(bound);
            }
        }
        None
    }
}
