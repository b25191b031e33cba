//! The edges that one section makes.

ghost use Rattle.std.specs.Prelude.{◌≡◌, ◌<◌, ℕ, length};
ghost use Rattle.std.specs.Bool.{Decides};
ghost use Rattle.std.specs.List.{All};
ghost use Rattle.lockorder.specs.Working.Tables.{InSet, AddsEdges};
ghost use Rattle.bit_set.specs.Working.Sets.{has_number};
ghost use Rattle.lockorder.specs.Working.Sections.{AreUsedSoFar, HasClass, LeadsToRoots, MakesSomewhere};

use crate::table::Table;
use bit_set::set::BitSet;
use locks::path_set::PathSet;
use points::table::Points;

/// The edges that a section makes.
#[derive(Drop)]
pub struct SectionEdges<'a> {
    /// The section's points.
    pub points: &'a Points,
}

impl<'a> SectionEdges<'a> {
    // The paths that are used at a point or before it.
    fn used_so_far(&self, point: usize) -> PathSet
        requires { point < length self.now.points.now.bound.items }
        ensures { AreUsedSoFar self.now.points.now point result }
    {
        self.points.used[point].union(self.points.used_before[point])
    }

    // The classes of the paths of a set.
    fn classes_of(&self, set: PathSet) -> BitSet
        requires { All (λ c. c < 128) self.now.points.now.classes.items }
        ensures { (c : ℕ) → Decides (has_number result c) (HasClass self.now.points.now set c) }
    {
        let mut classes = BitSet::new();
        for path in 0..self.points.classes.len() {
            if set.contains(path) {
                classes = classes.with(self.points.classes[path]);
            }
        }
        classes
    }

    /// Adds the edges that the section makes.
    pub fn add_to(&self, table: &mut Table)
        requires { All (λ c. c < length table.old.before.items) self.now.points.now.classes.items }
        ensures classes { length table.new.before.items ≡ length table.old.before.items }
        ensures edges { AddsEdges table.old.before.items table.new.before.items (MakesSomewhere self.now.points.now) }
    {
        for point in 0..self.points.bound.len() {
            let bound = self.points.bound[point];
            if bound != PathSet::new() {
                let used = self.classes_of(self.used_so_far(point));
                self.add_roots(bound, used, table);
            }
        }
    }

    // Adds an edge from each of some classes to that of each path of a set.
    fn add_roots(&self, bound: PathSet, used: BitSet, table: &mut Table)
        requires classes { All (λ c. c < length table.old.before.items) self.now.points.now.classes.items }
        requires used { (c : ℕ) → InSet used c → c < length table.old.before.items }
        ensures classes { length table.new.before.items ≡ length table.old.before.items }
        ensures edges { AddsEdges table.old.before.items table.new.before.items
            (LeadsToRoots self.now.points.now used bound) }
    {
        for path in 0..self.points.classes.len() {
            if bound.contains(path) {
                table.add(used, self.points.classes[path]);
            }
        }
    }
}
