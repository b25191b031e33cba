//! The numbers of locks.

ghost use Rattle.std.specs.Prelude.{◌≡◌, ◌↔◌, ◌<◌, ◌^◌, ℕ, length, slice_get, Some, IfOk, IsTrue, OnOk};
ghost use Rattle.std.specs.List.{Contains};
ghost use Rattle.core_lang.specs.WellFormed.{IsWellFormed};
ghost use Rattle.layout.specs.Layouts.{all_locks, AreDistinct};
ghost use Rattle.layout.specs.Working.Numbers.{AreNumbered, AreFields, FindsField};

use crate::places::ClassPlace;
use crate::protection::lock_fields;
use core_lang::typed::{LockClass, LockField, Typed};
use locks::lock::Lock;
use source::memory::NoMemory;
use std::alloc::Global;

/// The locks by number, with tables that find the number of a lock.
#[derive(Drop)]
pub struct Numbering {
    /// The locks, each at its number.
    pub locks: Vec<Lock>,
    /// For each class, where the numbers of its locks are found.
    pub classes: Vec<ClassPlace>,
    /// For each object, the number of its first lock.
    pub objects: Vec<usize>,
    ghost numbered: { AreNumbered classes.items objects.items locks.items },
}

impl Numbering {
    ghost use Rattle.layout.specs.Working.Growth.{AddsClass, AddsObject};

    /// The numbering of a program's locks: the global locks by class, then the locks of each object in turn.
    ///
    /// # Errors
    ///
    /// Out of memory.
    pub fn of(alloc: Global, program: &Typed) -> Result<Numbering, NoMemory>
        requires { IsWellFormed program.now }
        ensures locks { IfOk result (λ x. x.locks.items ≡ all_locks program.now) }
        ensures distinct { IfOk result (λ x. AreDistinct x.locks.items) }
    {
        let mut numbering = Numbering {
            locks: Vec::new(alloc),
            classes: Vec::with_capacity(alloc, program.classes.len())?,
            objects: Vec::with_capacity(alloc, program.shape.objects.len())?,
        };
        for class in &program.classes {
            numbering.add_class(class)?;
        }
        for object in 0..program.shape.objects.len() {
            numbering.add_object(lock_fields(program, object))?;
        }
        Ok(numbering)
    }

    // Adds the next class, with its lock if it is a global lock.
    fn add_class(&mut self, class: &LockClass) -> Result<(), NoMemory>
        ensures { OnOk result (AddsClass class.now self.old self.new) }
    {
        match class {
            LockClass::Global(_) => {
                let number = self.locks.len();
                let class = self.classes.len();
                self.classes.push(ClassPlace::Global(number))?;
                self.locks.push(Lock { class, object: 0 })?;
            }
            LockClass::Field { lock, .. } => self.classes.push(ClassPlace::Field(*lock))?,
        }
        Ok(())
    }

    // Adds the next object, with its locks.
    fn add_object(&mut self, fields: &[LockField]) -> Result<(), NoMemory>
        requires fields { AreFields self.old.classes.items fields.now }
        requires few { length self.old.objects.items < 2 ^ 32 }
        ensures { OnOk result (AddsObject fields.now self.old self.new) }
    {
        let object = self.objects.len() as u32;
        let first_lock = self.locks.len();
        self.objects.push(first_lock)?;
        for field in fields {
            let class = field.class;
            self.locks.push(Lock { class, object })?;
        }
        Ok(())
    }

    /// The number of `lock`.
    pub fn number_of(&self, lock: Lock) -> usize
        requires { Contains self.now.locks.items lock }
        ensures { slice_get self.now.locks.items result ≡ Some lock }
    {
        match self.classes[lock.class] {
            ClassPlace::Global(number) => number,
            ClassPlace::Field(field) => self.objects[lock.object as usize] + field,
        }
    }

    /// Whether `lock` is one of the locks.
    pub fn has(&self, lock: Lock) -> bool
        ensures { IsTrue result ↔ Contains self.now.locks.items lock }
    {
        match self.find(lock) {
            Some(number) => self.is_at(number, lock),
            None => false,
        }
    }

    // Whether `number` is the number of `lock`.
    fn is_at(&self, number: usize, lock: Lock) -> bool
        ensures { IsTrue result ↔ (slice_get self.now.locks.items number ≡ Some lock) }
    {
        match self.locks.get(number) {
            Some(other) => *other == lock,
            None => false,
        }
    }

    // The number of `lock`, if it is one of the locks.
    fn find(&self, lock: Lock) -> Option<usize>
        ensures { (n : ℕ) → slice_get self.now.locks.items n ≡ Some lock → result ≡ Some n }
    {
        if lock.class >= self.classes.len() {
            return None;
        }
        match self.classes[lock.class] {
            ClassPlace::Global(number) => Some(number),
            ClassPlace::Field(field) => self.in_object(lock.object, field),
        }
    }

    // The number of lock field `field` of `object`, if the object exists.
    fn in_object(&self, object: u32, field: usize) -> Option<usize>
        ensures { FindsField self.now.objects.items object field result }
    {
        if object as usize >= self.objects.len() {
            return None;
        }
        self.objects[object as usize].checked_add(field)
    }
}
