//! A thread's place, and the answers to its calls.

ghost use Rattle.std.specs.Prelude.{◌≡◌, ◌<◌, [], IsTrue};
ghost use Rattle.workers.specs.Seats.{new_seat};
ghost use Rattle.workers.specs.Logs.{IsSound};

use crate::front::Front;
use crate::naming::Naming;
use crate::parking::Parking;
use core_lang::value::Outcome;
use runner::states::Ready;
use source::memory::NoMemory;
use std::alloc::AllocError;
use std::marker::Model;
use thiserror::Error;

/// The answer of a call.
#[derive(Drop)]
pub struct Done {
    /// The position of its entry in the history.
    pub position: usize,
    /// How the call ended.
    pub outcome: Outcome,
    /// The numbers that it printed.
    pub prints: Vec<i64>,
}

/// Why a call is refused.
#[derive(Clone, Copy, PartialEq, Eq, Debug, Error)]
pub enum CallRefusal {
    /// A growth was refused.
    #[error("no memory")]
    NoMemory,
    /// The manager is not the one that the seat left, or its thread has an entry that the seat has not seen.
    #[error("strange")]
    Strange,
}

impl From<AllocError> for CallRefusal {
    fn from(_: AllocError) -> CallRefusal {
        CallRefusal::NoMemory
    }
}

impl From<NoMemory> for CallRefusal {
    fn from(_: NoMemory) -> CallRefusal {
        CallRefusal::NoMemory
    }
}

/// A thread's place at a [`crate::shared::Shared`]. Its value is the thread, the answers to its calls in order, and
/// what it has seen of the history. The answers are those of its own entries among the seen ones.
#[derive(Drop)]
pub struct Seat<'p, 'r, J: Naming> {
    // The number of its next call is the number of its answers: only a release raises it.
    pub(crate) ready: Ready<'p>,
    pub(crate) parking: Parking,
    pub(crate) seen: Front<'r, J>,
}

impl<'p, 'r, J: Naming> Model for Seat<'p, 'r, J> {
    ghost use Rattle.workers.specs.Seats.{SeatOf};
    ghost use Rattle.workers.specs.Answers.{replies_of};
    ghost use Rattle.workers.specs.Working.Within.{IsSeat};

    ghost Value = { SeatOf };

    ghost view = { λ s. record {
      thread = s.ready.thread;
      answers = replies_of s.ready.thread 0 s.seen;
      seen = s.seen;
    } };

    ghost invariant = { λ s. IsSeat J.plan s.ready.thread s.ready.step s.seen };
}

impl<'p, 'r, J: Naming> Seat<'p, 'r, J> {
    ghost use Rattle.std.specs.Prelude.{◌≡◌, ◌<◌, []};

    // A thread's place before its first call.
    pub(crate) fn new(thread: u32, parking: Parking, seen: Front<'r, J>) -> Seat<'p, 'r, J>
        requires few { thread < 64 }
        requires none { seen ≡ [] }
        ensures { result ≡ new_seat thread }
    {
        Seat {
            ready: Ready::new(thread),
            parking,
            seen,
        }
    }

    /// The thread.
    pub fn thread(&self) -> u32
        ensures thread { result ≡ self.now.thread }
        ensures few { self.now.thread < 64 }
    {
        self.ready.thread()
    }

    // Whether the seat is without an answer.
    pub(crate) fn is_new(&self) -> bool
        ensures { IsTrue result → self.now.answers ≡ [] }
    {
        self.ready.step() == 0
    }

    /// A law: what the seat has seen is a legal list of true entries.
    pub fn keeps_its_rules(&self)
        ensures { IsSound J.plan self.now.seen }
    {
        let _shown = &self.ready;
    }
}
