//! The status of a thread.

use locks::lock::Lock;

/// The status of a thread.
#[derive(Clone, Copy, PartialEq, Eq, Debug)]
pub enum ThreadStatus {
    /// Idle: it has no open section and no further call, or it is an unknown thread.
    Idle,
    /// Its next call can begin.
    Ready,
    /// Its section has asked for a lock that the given thread holds now.
    Waits(Lock, u32),
    /// Its section is open, and no thread holds a lock that it has asked for.
    Running,
}
