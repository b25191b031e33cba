//! The length of the log when each lock was last given back.

ghost use Rattle.std.specs.Prelude.{◌≡◌, IfOk, IsTrue, [], ◌∷◌};
ghost use Rattle.std.specs.List.{All};
ghost use Rattle.layout.specs.Layouts.{AreDistinct};
ghost use Rattle.workers.specs.Working.LockEnds.{AreEndsOf, AreGivenBack, IsBefore};

use layout::table::Layout;
use locks::lock::Lock;
use source::memory::NoMemory;
use std::alloc::Global;
use std::marker::Model;

/// For each lock, by its number, the length of the log when the lock was last given back with an entry; 0 if it never
/// was.
#[derive(Drop)]
pub struct LockEnds<'p> {
    layout: &'p Layout,
    ends: Vec<usize>,
}

impl<'p> Model for LockEnds<'p> {
    ghost use Rattle.std.specs.Prelude.{◌≡◌, length};
    ghost use Rattle.workers.specs.Working.LockEnds.{LockEndsOf};

    ghost Value = { LockEndsOf };

    ghost view = { λ e. record { layout = e.layout.now; ends = e.ends.items } };

    ghost invariant = { λ e. length e.ends.items ≡ length e.layout.now.locks };
}

impl<'p> LockEnds<'p> {
    /// The initial table: no lock was given back, and the log has no entries.
    ///
    /// # Errors
    ///
    /// `NoMemory`: a growth was refused.
    pub fn of(alloc: Global, layout: &'p Layout) -> Result<LockEnds<'p>, NoMemory>
        ensures layout { IfOk result (λ e. e.layout ≡ layout.now) }
        ensures ends { IfOk result (λ e. AreEndsOf e []) }
    {
        let ends = vec![in alloc; 0usize; layout.locks_count()]?;
        Ok(LockEnds { layout, ends })
    }

    /// Tests that each of `locks` is a lock of the program, and was last given back when the log had at most `floor`
    /// entries.
    pub fn are_before(&self, locks: &[Lock], floor: usize) -> bool
        ensures { IsTrue result → All (IsBefore self.now floor) locks.now }
    {
        for lock in locks {
            if !self.is_before(*lock, floor) {
                return false;
            }
        }
        true
    }

    // Tests that `lock` is a lock of the program, and was last given back when the log had at most `floor` entries.
    fn is_before(&self, lock: Lock, floor: usize) -> bool
        ensures { IsTrue result → IsBefore self.now floor lock }
    {
        if !self.layout.has_lock(lock) {
            return false;
        }
        self.ends[self.layout.lock_number(lock)] <= floor
    }

    /// Notes that `locks` are given back when the log has `long` entries.
    pub fn give_back(&mut self, locks: &[Lock], long: usize)
        requires { AreDistinct self.old.layout.locks }
        ensures { AreGivenBack self.old locks.now long self.new }
    {
        for lock in locks {
            self.give_one(*lock, long);
        }
    }

    // Notes that `lock` is given back when the log has `long` entries.
    fn give_one(&mut self, lock: Lock, long: usize)
        requires { AreDistinct self.old.layout.locks }
        ensures { AreGivenBack self.old (lock ∷ []) long self.new }
    {
        if self.layout.has_lock(lock) {
            let number = self.layout.lock_number(lock);
            self.ends[number] = long;
        }
    }
}
