//! The use and binding that make each edge between classes.

ghost use Rattle.std.specs.Prelude.{◌≡◌, ◌<◌, ◌≤◌, ◌*◌, ◌+◌, ℕ, length, None, IfOk, OnOk};
ghost use Rattle.std.specs.List.{All};
ghost use Rattle.lockorder.specs.Working.Sections.{AreBindings, AreBoundOnce, UsesAt};
ghost use Rattle.lockorder.specs.Working.Tellings.{told_at, told_pair, AreAllTold, AreBetween, AreClosed, AreToldMore};
ghost use Rattle.lockorder.specs.Working.Tellings.{TellsClass, TellsPair, TellsPoint};

use crate::bindings::Bindings;
use crate::ranks::{ClassPair, Edge};
use locks::path_set::PathSet;
use points::table::Points;
use source::memory::NoMemory;
use std::alloc::Global;

/// A use of a lock.
#[derive(Clone, Copy)]
pub struct Usage {
    /// The section's number.
    pub section: usize,
    /// The point at which it is used.
    pub point: usize,
    /// The class of the lock.
    pub class: usize,
}

/// The edges between the classes of a program, as far as the use and binding that make each are known.
#[derive(Drop)]
pub struct Telling {
    /// The number of classes.
    pub classes: usize,
    // For each class, in a row of 128, the known edge from it to each class.
    told: Vec<Option<Edge>>,
    ghost few: { classes ≤ 128 },
    ghost long: { length told.items ≡ 128 * classes },
}

impl Telling {
    /// No edge is known.
    pub fn open(alloc: Global, classes: usize) -> Result<Telling, NoMemory>
        requires { classes ≤ 128 }
        ensures classes { IfOk result (λ t. t.classes ≡ classes) }
        ensures none { IfOk result (λ t. (c d : ℕ) → told_at t.told.items c d ≡ None) }
    {
        let told = vec![in alloc; None; 128 * classes]?;
        Ok(Telling { classes, told })
    }

    // The edge from one class to another, if it is known.
    fn at(&self, class: usize, next: usize) -> Option<Edge>
        requires class { class < self.now.classes }
        requires next { next < self.now.classes }
        ensures { result ≡ told_at self.now.told.items class next }
    {
        self.told[128 * class + next]
    }

    // Notes the use and binding of the edge from the used class to `next`, unless it is known.
    fn tell_pair(&mut self, usage: Usage, bindings: &Bindings<'_>, next: usize)
        requires bindings { AreBindings bindings.now }
        requires once { AreBoundOnce bindings.now.points.now }
        requires point { usage.point < length bindings.now.points.now.bound.items }
        requires class { usage.class < self.old.classes }
        requires next { next < self.old.classes }
        ensures classes { self.new.classes ≡ self.old.classes }
        ensures told { TellsPair bindings.now.points.now usage next self.old.classes
            self.old.told.items self.new.told.items }
    {
        if self.at(usage.class, next).is_none() {
            if let Some(bound) = bindings.first(usage.point, next) {
                self.told[128 * usage.class + next] = Some(Edge {
                    class: usage.class,
                    section: usage.section,
                    used: usage.point,
                    bound,
                });
            }
        }
    }

    // Notes those of the edges to each class of which a root is bound here or later.
    fn tell_class(&mut self, usage: Usage, bindings: &Bindings<'_>)
        requires bindings { AreBindings bindings.now }
        requires once { AreBoundOnce bindings.now.points.now }
        requires within { All (λ c. c < self.old.classes) bindings.now.points.now.classes.items }
        requires point { usage.point < length bindings.now.points.now.bound.items }
        requires class { usage.class < self.old.classes }
        ensures classes { self.new.classes ≡ self.old.classes }
        ensures told { TellsClass bindings.now.points.now usage self.old.classes
            self.old.told.items self.new.told.items }
    {
        let behind = bindings.behind(usage.point);
        for path in 0..bindings.points.classes.len() {
            if behind.contains(path) {
                self.tell_pair(usage, bindings, bindings.points.classes[path]);
            }
        }
    }

    // Notes those of the edges from each class that is used at a point.
    fn tell_point(&mut self, section: usize, bindings: &Bindings<'_>, point: usize)
        requires bindings { AreBindings bindings.now }
        requires once { AreBoundOnce bindings.now.points.now }
        requires within { All (λ c. c < self.old.classes) bindings.now.points.now.classes.items }
        requires point { point < length bindings.now.points.now.bound.items }
        ensures classes { self.new.classes ≡ self.old.classes }
        ensures told { TellsPoint bindings.now.points.now section point self.old.classes
            self.old.told.items self.new.told.items }
    {
        let used = bindings.points.used[point];
        for path in 0..bindings.points.classes.len() {
            if used.contains(path) {
                let class = bindings.points.classes[path];
                self.tell_class(
                    Usage {
                        section,
                        point,
                        class,
                    },
                    bindings,
                );
            }
        }
    }

    /// Notes the edges that a section makes, and no earlier one. Its points come in the order of the text, so that the
    /// first one found for an edge has the lowest use.
    pub fn tell(&mut self, alloc: Global, section: usize, points: &Points) -> Result<(), NoMemory>
        requires once { AreBoundOnce points.now }
        requires within { All (λ c. c < self.old.classes) points.now.classes.items }
        ensures classes { self.new.classes ≡ self.old.classes }
        ensures told { OnOk result (AreToldMore points.now section self.old.classes
            self.old.told.items self.new.told.items) }
    {
        let bindings = Bindings::of(alloc, points)?;
        for point in 0..points.used.len() {
            self.tell_point(section, &bindings, point);
        }
        Ok(())
    }

    /// The pairs of classes with the edges between them, which have to be known.
    pub fn close(&self, alloc: Global, pairs: &[(usize, usize)]) -> Result<Vec<ClassPair>, NoMemory>
        requires between { AreBetween self.now.classes pairs.now }
        requires all { AreAllTold self.now.told.items pairs.now }
        ensures { IfOk result (λ closed. AreClosed pairs.now (told_pair self.now.told.items) closed.items) }
    {
        let mut closed = Vec::with_capacity(alloc, pairs.len())?;
        for pair in pairs {
            match self.at(pair.0, pair.1) {
                Some(edge) => closed.push(ClassPair { edge, next: pair.1 })?,
                None => unreachable!(),
            }
        }
        Ok(closed)
    }
}
