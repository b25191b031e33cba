//! The lock paths that are found in a section, access by access.

ghost use Rattle.std.specs.Prelude.{◌≡◌, ◌<◌, length, map, IfOk, IfSome, OnOk};
ghost use Rattle.std.specs.Option.{option_map};
ghost use Rattle.locks.specs.LockPaths.{global_path, lock_path_of, same_path};
ghost use Rattle.lockpaths.specs.Working.States.{IsFormOf};
ghost use Rattle.lockpaths.specs.Working.Gathering.{nothing_yet, place_from};
ghost use Rattle.lockpaths.specs.Working.Places.{IsPlace, begins_alike, path_at};
ghost use Rattle.lockpaths.specs.Working.Told.{seen, ended_told, met_told, told_with_new};

use crate::forms::Forms;
use core_lang::tree::{FieldStep, Section};
use locks::path::{LockPath, Root};
use source::fault::Code;
use source::limits::PATH_LIMIT;
use source::memory::NoMemory;
use source::mistake::{Mistake, report};
use std::alloc::Global;
use std::marker::Model;

/// What a lock path begins with.
#[derive(Clone, Copy)]
pub enum Start {
    /// Nothing: it is a global lock.
    GlobalLock,
    /// Nothing: it is a whole class, of the struct with this number.
    WholeClass(usize),
    /// A normal form, as the index of a node.
    Form(usize),
}

/// A lock path: a global lock, a whole class, or a lock field at the end of a normal form.
#[derive(Clone, Copy)]
pub struct Destination {
    /// What it begins with.
    pub start: Start,
    /// The class of the lock.
    pub class: usize,
}

/// The lock paths so far.
#[derive(Drop)]
pub struct PathCollector {
    alloc: Global,
    // The states of the section's locals, and the normal forms of the paths so far.
    forms: Forms,
    // The lock paths, each once, in the order of their first accesses. None is kept after the first that is too many.
    places: Vec<Destination>,
    /// For each access with a lock path, the index of that path, up to the first that is too many.
    pub numbers: Vec<u8>,
    /// For each point, the number of these accesses up to its end.
    pub ends: Vec<usize>,
    /// The least fault so far, over all sections.
    pub least: Option<Mistake>,
}

impl Model for PathCollector {
    ghost use Rattle.std.specs.Prelude.{◌≤◌, length};
    ghost use Rattle.lockpaths.specs.Working.Told.{Seen};

    ghost Value = { Seen };

    ghost use Rattle.lockpaths.specs.Working.Places.{gathered_of, AreFound};

    ghost view = { λ f. record { known = f.forms; gathered = gathered_of f.forms.paths f.places.items f.numbers.items f.ends.items f.least } };

    ghost invariant = { λ f. AreFound f.forms.paths f.places.items };
}

impl PathCollector {
    /// An empty collector for a section whose locals have these states, with the least fault of the sections before it.
    pub fn new(alloc: Global, forms: Forms, least: Option<Mistake>) -> PathCollector
        ensures { result ≡ record { known = forms; gathered = nothing_yet least } }
    {
        PathCollector {
            alloc,
            forms,
            places: Vec::new(alloc),
            numbers: Vec::new(alloc),
            ends: Vec::new(alloc),
            least,
        }
    }

    /// The node of the normal form of a local followed by fields and these final references, if that is a stable path.
    pub fn normal_form(
        &mut self,
        section: &Section,
        local: usize,
        fields: &[FieldStep],
        through: &[u32],
    ) -> Result<Option<usize>, NoMemory>
        ensures told { seen self.new ≡ seen self.old }
        ensures node { IfOk result (IsFormOf section.now self.new.known local fields.now through.now) }
    {
        self.forms.form_at(section, local, fields, through)
    }

    // Whether two lock paths have one normal form, or are both global locks or whole classes of one struct.
    fn begins_alike(&self, a: Destination, b: Destination) -> bool
        requires a { IsPlace self.now.known.paths a }
        requires b { IsPlace self.now.known.paths b }
        ensures { result ≡ begins_alike self.now.known.paths a.start b.start }
    {
        match (a.start, b.start) {
            (Start::GlobalLock, Start::GlobalLock) => true,
            (Start::WholeClass(a), Start::WholeClass(b)) => a == b,
            (Start::Form(a), Start::Form(b)) => self.forms.is_same(a, b),
            _ => false,
        }
    }

    fn is_same(&self, a: Destination, b: Destination) -> bool
        requires a { IsPlace self.now.known.paths a }
        requires b { IsPlace self.now.known.paths b }
        ensures { result ≡ same_path (path_at self.now.known.paths a) (path_at self.now.known.paths b) }
    {
        self.begins_alike(a, b) && a.class == b.class
    }

    // The index of a lock path, if it was met before.
    fn number_of(&self, place: Destination) -> Option<usize>
        requires { IsPlace self.now.known.paths place }
        ensures place { result ≡ place_from (path_at self.now.known.paths place) 0 self.now.gathered.paths }
        ensures within { IfSome result (λ k. k < length self.now.gathered.paths) }
    {
        for k in 0..self.places.len() {
            if self.is_same(place, self.places[k]) {
                return Some(k);
            }
        }
        None
    }

    /// Notes an access that starts at `start` and has this lock path, if it has one.
    pub fn meet(&mut self, start: usize, place: Option<Destination>) -> Result<(), NoMemory>
        requires { IfSome place (IsPlace self.old.known.paths) }
        ensures { OnOk result
            (seen self.new ≡ met_told (seen self.old) start (option_map (path_at self.old.known.paths) place)) }
    {
        let Some(place) = place else {
            report(&mut self.least, Code::UnstableBase, start);
            return Ok(());
        };
        match self.number_of(place) {
            Some(number) => {
                self.numbers.push(number as u8)?;
                Ok(())
            }
            None => self.add(start, place),
        }
    }

    /// Notes an access that starts at `start` and is under the global lock of this class, if it has one.
    pub fn meet_global(&mut self, start: usize, class: Option<usize>) -> Result<(), NoMemory>
        ensures { OnOk result (seen self.new ≡ met_told (seen self.old) start (option_map global_path class)) }
    {
        match class {
            Some(class) => {
                let place = Destination {
                    start: Start::GlobalLock,
                    class,
                };
                self.meet(start, Some(place))
            }
            None => self.meet(start, None),
        }
    }

    // Adds a path that was not met before.
    fn add(&mut self, start: usize, place: Destination) -> Result<(), NoMemory>
        requires { IsPlace self.old.known.paths place }
        ensures { OnOk result
            (seen self.new ≡ told_with_new (seen self.old) start (path_at self.old.known.paths place)) }
    {
        let number = self.places.len();
        if number > PATH_LIMIT {
            return Ok(());
        }
        if number == PATH_LIMIT {
            report(&mut self.least, Code::LimitExceeded, start);
        }
        self.numbers.push(number as u8)?;
        self.places.push(place)?;
        Ok(())
    }

    /// Notes the end of a point.
    pub fn end_point(&mut self) -> Result<(), NoMemory>
        ensures { OnOk result (seen self.new ≡ ended_told (seen self.old)) }
    {
        self.ends.push(self.numbers.len())?;
        Ok(())
    }

    // The lock path with its root and finals.
    fn lock_path(&self, place: Destination) -> Result<LockPath, NoMemory>
        requires { IsPlace self.now.known.paths place }
        ensures { IfOk result (λ path. lock_path_of path ≡ path_at self.now.known.paths place) }
    {
        let class = place.class;
        match place.start {
            Start::GlobalLock => Ok(LockPath {
                root: Root::GlobalLock,
                finals: Vec::new(self.alloc),
                class,
            }),
            Start::WholeClass(structure) => Ok(LockPath {
                root: Root::WholeClass(structure),
                finals: Vec::new(self.alloc),
                class,
            }),
            Start::Form(node) => {
                let form = self.forms.path(node)?;
                Ok(LockPath {
                    root: Root::Local(form.root),
                    finals: form.finals,
                    class,
                })
            }
        }
    }

    /// The lock paths.
    pub fn lock_paths(&self) -> Result<Vec<LockPath>, NoMemory>
        ensures { IfOk result (λ list. map lock_path_of list.items ≡ self.now.gathered.paths) }
    {
        let mut list = Vec::with_capacity(self.alloc, self.places.len())?;
        for place in &self.places {
            let path = self.lock_path(*place)?;
            list.push(path)?;
        }
        Ok(list)
    }
}
