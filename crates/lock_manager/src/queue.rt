//! The queue of waiting threads.

ghost use Rattle.std.specs.Prelude.{◌≡◌, ◌<◌, [], ◌∷◌, ◌++◌, length, slice_get, vec_capacity, None, IfOk};
ghost use Rattle.lock_manager.specs.Working.Queues.{joining, leaving, waiting_in};

use locks::lock::Lock;
use source::memory::NoMemory;
use std::alloc::Global;
use std::marker::Model;

/// A thread that waits for a lock.
#[derive(Clone, Copy)]
pub struct Waiter {
    /// The thread.
    pub thread: u32,
    /// The lock for which it waits.
    pub lock: Lock,
}

/// The threads that wait, in the order in which they first asked. A thread waits for one lock at a time; one short
/// queue therefore serves all locks, of which a program can have millions.
#[derive(Drop)]
pub struct Queue {
    waiters: Vec<Waiter>,
}

impl Model for Queue {
    ghost use Rattle.std.specs.Prelude.{List, ◌≤◌, vec_capacity};
    ghost use Rattle.lock_manager.specs.declared.queue.Waiter.{Waiter};

    ghost Value = { List Waiter };

    ghost view = { λ q. q.waiters.items };

    ghost invariant = { λ q. 64 ≤ vec_capacity q.waiters };
}

impl Queue {
    /// An empty queue with room for 64 threads.
    ///
    /// # Errors
    ///
    /// Out of memory.
    pub fn new(alloc: Global) -> Result<Queue, NoMemory>
        ensures { IfOk result (λ queue. queue ≡ []) }
    {
        let waiters = Vec::with_capacity(alloc, 64)?;
        Ok(Queue { waiters })
    }

    /// Appends `waiter` if `asked` is none. A waiter that asked before keeps its place.
    pub fn wait(&mut self, asked: Option<Lock>, waiter: Waiter)
        requires { asked ≡ None → length self.old < 64 }
        ensures { self.new ≡ joining asked waiter self.old }
    {
        if asked.is_none() {
            self.waiters.push(waiter).unwrap();
        }
    }

    /// Removes `thread`.
    pub fn leave(&mut self, thread: u32)
        ensures { self.new ≡ leaving thread self.old }
    {
        remove_all(&mut self.waiters, thread);
    }

    /// The waiters, in the order in which they first asked.
    pub fn waiters(&self) -> &[Waiter]
        ensures { result.now ≡ self.now }
    {
        self.waiters.as_slice()
    }

    /// The number of threads that wait for `lock`.
    pub fn count(&self, lock: Lock) -> usize
        ensures { result ≡ length (waiting_in self.now lock) }
    {
        let mut count = 0;
        for waiter in &self.waiters {
            if waiter.lock == lock {
                count += 1;
            }
        }
        count
    }

    /// The thread at place `i`, from 0, among those that wait for `lock`.
    pub fn nth(&self, lock: Lock, i: usize) -> Option<u32>
        ensures { result ≡ slice_get (waiting_in self.now lock) i }
    {
        let mut left = i;
        for waiter in &self.waiters {
            if waiter.lock == lock {
                if left == 0 {
                    return Some(waiter.thread);
                }
                left -= 1;
            }
        }
        None
    }
}

// Removes the waiters of `thread`.
fn remove_all(waiters: &mut Vec<Waiter>, thread: u32)
    ensures items { waiters.new.items ≡ leaving thread waiters.old.items }
    ensures capacity { vec_capacity waiters.new ≡ vec_capacity waiters.old }
{
    let mut i = 0;
    while i < waiters.len() {
        if waiters[i].thread == thread {
            waiters.remove(i);
        } else {
            i += 1;
        }
    }
}
