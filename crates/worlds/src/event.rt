//! The event of one step of a thread.

use locks::lock::Lock;

/// The event of one step of a thread.
#[derive(Clone, Copy, PartialEq, Eq, Debug)]
pub enum Event {
    /// Nothing: it has no open section and no further call.
    Idle,
    /// Its next call began.
    Began,
    /// It was granted a lock.
    Got(Lock),
    /// The given thread holds the lock that it asked for.
    Waits(Lock, u32),
    /// It ran one instruction.
    Moved,
    /// Its section ended, and its entry has this index in the history.
    Ended(usize),
}
