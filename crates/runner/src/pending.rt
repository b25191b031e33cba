//! The pending locks of a section.

ghost use Rattle.std.specs.Prelude.{◌≡◌, ◌≢◌, ◌≤◌, ◌<◌, ◌↔◌, [], drop, length, IfSome, IfNone, IsTrue, OnOk, Some, slice_get, reverse};
ghost use Rattle.std.specs.List.{insert as inserted};
ghost use Rattle.worlds.specs.Asking.{insert};

use locks::lock::Lock;
use source::memory::NoMemory;
use std::alloc::Global;
use std::marker::Model;

// The locks that a section has yet to be granted. Its value is the list in lock order, and its room.
#[derive(Drop)]
pub(crate) struct Pending {
    // In falling order: the first lock is the last item. No other item moves when it is removed, or when a lock that
    // precedes all others is inserted.
    falling: Vec<Lock>,
}

impl Model for Pending {
    ghost use Rattle.std.specs.Prelude.{vec_capacity, reverse};
    ghost use Rattle.runner.specs.Working.Pending.{PendingOf};

    ghost Value = { PendingOf };

    ghost view = { λ p. record { locks = reverse p.falling.items; room = vec_capacity p.falling } };
}

// The place of `lock` in locks in falling order: after the last lock that it precedes. `None` if it is in the list.
fn place_for(ranks: &[u32], lock: Lock, falling: &[Lock]) -> Option<usize>
    ensures goes { IfSome result (λ i.
        insert ranks.now lock (reverse falling.now) ≡ reverse (inserted falling.now i lock)) }
    ensures within { IfSome result (λ i. i ≤ length falling.now) }
    ensures stays { IfNone result (insert ranks.now lock (reverse falling.now) ≡ reverse falling.now) }
{
    let mut place = falling.len();
    while place > 0 {
        let next = falling[place - 1];
        if lock == next {
            return None;
        }
        if lock.precedes(next, ranks) {
            return Some(place);
        }
        place -= 1;
    }
    Some(0)
}

impl Pending {
    // No locks, and no room.
    pub(crate) fn new(alloc: Global) -> Pending
        ensures { result.locks ≡ [] }
    {
        Pending {
            falling: Vec::new(alloc),
        }
    }

    // Removes the locks, and makes room for `room` locks. Errors: out of memory.
    pub(crate) fn empty_for(&mut self, room: usize) -> Result<(), NoMemory>
        ensures none { self.new.locks ≡ [] }
        ensures room { OnOk result (room ≤ self.new.room) }
    {
        self.falling.clear();
        self.falling.reserve(room)?;
        Ok(())
    }

    // Whether no lock is pending.
    pub(crate) fn is_empty(&self) -> bool
        ensures { IsTrue result ↔ (self.now.locks ≡ []) }
    {
        self.falling.is_empty()
    }

    // The first lock.
    pub(crate) fn first(&self) -> Lock
        requires { self.now.locks ≢ [] }
        ensures { slice_get self.now.locks 0 ≡ Some result }
    {
        self.falling[self.falling.len() - 1]
    }

    // Inserts `lock` before the locks that it precedes, unless it is in the list.
    pub(crate) fn put_in(&mut self, ranks: &[u32], lock: Lock)
        requires { length (insert ranks.now lock self.old.locks) ≤ self.old.room }
        ensures locks { self.new.locks ≡ insert ranks.now lock self.old.locks }
        ensures room { self.old.room ≤ self.new.room }
    {
        if let Some(place) = place_for(ranks, lock, &self.falling) {
            self.falling.insert(place, lock).unwrap();
        }
    }

    // Removes the first lock.
    pub(crate) fn take_first(&mut self)
        requires { self.old.locks ≢ [] }
        ensures locks { self.new.locks ≡ drop 1 self.old.locks }
        ensures room { self.old.room ≤ self.new.room }
    {
        self.falling.pop();
    }
}
