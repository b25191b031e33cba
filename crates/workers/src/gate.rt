//! The observer of the progress of calls.

/// The observer of the progress of each call. It is called while no lock is held, and may wait for other threads.
pub trait Gate: Sync {
    /// A call of `thread` has come as far as `step`: 0 after its begin, k after its k-th grant.
    fn pass(&self, thread: u32, step: u32);

    /// Whether it observes each grant before the next lock is asked for. Otherwise a call asks for all locks that it
    /// needs next in one hold of the Mutex, for the first ones in the hold in which it begins, and the gate is called
    /// after that: of the begin, and once for each lock that was granted. What is promised of a call does not depend on
    /// it.
    fn sees_each_grant(&self) -> bool {
        true
    }
}
