//! The answer to a request.

use moved_cells::grant::Grant;

/// The answer to a request for a lock.
pub enum Answer {
    /// The lock is granted, with its cells.
    Granted(Grant),
    /// This other thread holds the lock.
    Held(u32),
}
