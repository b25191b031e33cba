//! Turns: consecutive steps of one thread.

/// A number of consecutive steps of one thread.
#[derive(Clone, Copy, PartialEq, Eq, Debug)]
pub struct Turn {
    /// The thread, from 0 in the order of declaration.
    pub thread: u32,
    /// The number of steps.
    pub count: usize,
}
