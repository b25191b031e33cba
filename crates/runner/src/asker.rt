//! The locks that a section asks for before a point.

ghost use Rattle.std.specs.Prelude.{◌≡◌, ◌≤◌, ◌<◌, ◌+◌, ◌^◌, ℕ, true, [], ◌∷◌, length, IfSome, IfNone, IsTrue};
ghost use Rattle.locks.specs.Locks.{locks_of};
ghost use Rattle.locks.specs.LockPaths.{lock_path_of, locks_in};
ghost use Rattle.locks.specs.Sets.{has};
ghost use Rattle.runner.specs.Working.Asked.{locks_at, pool_locks, with_locks, with_locks_of, asked_of, asked_before};
ghost use Rattle.runner.specs.Working.Asked.{NamesNothing, IsPathAt, IsWholeAt, IsNoted, AreTaken, AreKept, HasKept};

use crate::pending::Pending;
use core_lang::shape::Pool;
use locks::lock::Lock;
use locks::path::{LockPath, NamedLocks, Root};
use locks::path_set::PathSet;
use lowering::compiled::Program;
use runner_machine::machine::StackMachine;

// A section of a program before a point: its number, its machine, which knows its locks and its locals, and the lock
// paths of whole classes whose locks it holds.
#[derive(Drop)]
pub(crate) struct Asker<'a, 'p> {
    pub(crate) program: &'a Program,
    pub(crate) section: usize,
    pub(crate) machine: &'a StackMachine<'p>,
    pub(crate) taken: PathSet,
}

impl<'a, 'p> Asker<'a, 'p> {
    // The section's lock path `number`, if it has it.
    fn path(&self, number: u8) -> Option<&'a LockPath>
        ensures none { IfNone result (NamesNothing self.now.program.now self.now.section number) }
        ensures some { IfSome result (λ p. IsPathAt self.now.program.now self.now.section number (lock_path_of p.now)) }
    {
        let Some(paths) = self.program.paths().sections.get(self.section) else {
            return None;
        };
        let Some(path) = paths.paths.get(number as usize) else {
            return None;
        };
        Some(path)
    }

    // The locks that the section's lock path `number` names.
    fn locks(&self, number: u8) -> NamedLocks
        ensures { locks_in self.now.program.now.program.shape result
            ≡ locks_at self.now.program.now self.now.section self.now.machine.now.machine.locals number }
    {
        match self.path(number) {
            Some(path) => path.named(&self.program.expanded().shape, self.machine.locals()),
            None => NamedLocks::Nothing,
        }
    }

    // Whether the section's lock path `number` is a whole class.
    fn is_whole(&self, number: u8) -> bool
        ensures { IsTrue result → IsWholeAt self.now.program.now self.now.section number }
    {
        match self.path(number) {
            Some(path) => matches!(path.root, Root::WholeClass(_)),
            None => false,
        }
    }

    // Whether the section is known to hold all locks of lock path `number`.
    fn is_taken(&self, number: u8) -> bool
        ensures { IsTrue result → has self.now.taken number ≡ true }
    {
        let path = number as usize;
        path < 64 && self.taken.contains(path)
    }

    // The paths `taken`, and lock path `number` if it is a whole class.
    fn noted(&self, number: u8, taken: PathSet) -> PathSet
        ensures { IsNoted self.now.program.now self.now.section number taken result }
    {
        let path = number as usize;
        if path < 64 && self.is_whole(number) {
            taken.with(path)
        } else {
            taken
        }
    }

    // Inserts `lock` into `pending`, unless the section holds it.
    fn add_lock(&self, lock: Lock, pending: &mut Pending)
        requires { length (with_locks self.now (lock ∷ []) pending.old.locks) ≤ pending.old.room }
        ensures locks { pending.new.locks ≡ with_locks self.now (lock ∷ []) pending.old.locks }
        ensures room { pending.old.room ≤ pending.new.room }
    {
        if !self.machine.holds(lock) {
            pending.put_in(self.program.ranks(), lock);
        }
    }

    // Inserts the locks of a class at the members of a pool, unless the section holds them.
    fn add_pool(&self, class: usize, pool: &Pool, pending: &mut Pending)
        requires numbers { (i : ℕ) → i < pool.now.length → pool.now.first + i < 2 ^ 32 }
        requires room { length (with_locks self.now (pool_locks class pool.now) pending.old.locks) ≤ pending.old.room }
        ensures locks { pending.new.locks ≡ with_locks self.now (pool_locks class pool.now) pending.old.locks }
        ensures room { pending.old.room ≤ pending.new.room }
    {
        let mut left = pool.length;
        while left > 0 {
            left -= 1;
            let object = pool.first + left;
            self.add_lock(Lock { class, object }, pending);
        }
    }

    // Inserts the locks of a class at all objects of a struct, unless the section holds them.
    fn add_members(&self, class: usize, structure: usize, pending: &mut Pending)
        requires { length (with_locks self.now (locks_of self.now.program.now.program.shape class structure)
            pending.old.locks) ≤ pending.old.room }
        ensures locks { pending.new.locks
            ≡ with_locks self.now (locks_of self.now.program.now.program.shape class structure) pending.old.locks }
        ensures room { pending.old.room ≤ pending.new.room }
    {
        let pools = &self.program.expanded().shape.pools;
        let mut left = pools.len();
        while left > 0 {
            left -= 1;
            if pools[left].structure == structure {
                self.add_pool(class, &pools[left], pending);
            }
        }
    }

    // Inserts the locks of lock path `number` into `pending`, unless the section holds them.
    fn add(&self, number: u8, pending: &mut Pending)
        requires { length (with_locks_of self.now number pending.old.locks) ≤ pending.old.room }
        ensures locks { pending.new.locks ≡ with_locks_of self.now number pending.old.locks }
        ensures room { pending.old.room ≤ pending.new.room }
    {
        match self.locks(number) {
            NamedLocks::Nothing => {}
            NamedLocks::One(lock) => self.add_lock(lock, pending),
            NamedLocks::Members { class, structure } => self.add_members(class, structure, pending),
        }
    }

    // Inserts the locks of lock path `number` into `pending`, unless the section holds them. Notes a whole class in
    // `taken`, so that its members are not walked again.
    fn take(&self, number: u8, pending: &mut Pending, taken: &mut PathSet)
        requires room { length (with_locks_of self.now number pending.old.locks) ≤ pending.old.room }
        requires taken { AreTaken self.now.program.now self.now.section self.now.machine.now.locks self.now.taken }
        ensures locks { pending.new.locks ≡ with_locks_of self.now number pending.old.locks }
        ensures room { pending.old.room ≤ pending.new.room }
        ensures taken { HasKept self.now pending.old.locks taken.old pending.new.locks taken.new }
    {
        if self.is_taken(number) {
            return;
        }
        self.add(number, pending);
        *taken = self.noted(number, *taken);
    }

    // Fills `pending` with the locks that the section asks for at a list of lock paths. Returns the lock paths of whole
    // classes whose locks it holds once they are granted.
    fn ask(&self, list: &[u8], pending: &mut Pending) -> PathSet
        requires none { pending.old.locks ≡ [] }
        requires room { length (asked_of self.now list.now) ≤ pending.old.room }
        requires taken { AreTaken self.now.program.now self.now.section self.now.machine.now.locks self.now.taken }
        ensures locks { pending.new.locks ≡ asked_of self.now list.now }
        ensures room { pending.old.room ≤ pending.new.room }
        ensures taken { AreKept self.now pending.new.locks result }
    {
        let mut taken = self.taken;
        let mut left = list.len();
        while left > 0 {
            left -= 1;
            self.take(list[left], pending, &mut taken);
        }
        taken
    }

    // Fills `pending` with the locks that the section asks for before `point`. Returns the lock paths of whole classes
    // whose locks it holds once they are granted.
    pub(crate) fn ask_before(&self, point: usize, pending: &mut Pending) -> PathSet
        requires none { pending.old.locks ≡ [] }
        requires room { length (asked_before self.now point) ≤ pending.old.room }
        requires taken { AreTaken self.now.program.now self.now.section self.now.machine.now.locks self.now.taken }
        ensures locks { pending.new.locks ≡ asked_before self.now point }
        ensures room { pending.old.room ≤ pending.new.room }
        ensures taken { AreKept self.now pending.new.locks result }
    {
        match self.program.lists_before(self.section).get(point) {
            Some(list) => self.ask(list, pending),
            None => self.taken,
        }
    }
}
