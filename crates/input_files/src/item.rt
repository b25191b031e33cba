//! Items of a steps file.

/// How far an item takes its thread.
#[derive(Clone, Copy, PartialEq, Eq, Debug)]
pub enum Until {
    /// `T` and `T*N`: the given number of steps.
    Count(usize),
    /// `T!`: up to where the thread waits, its call ends, or it is idle. If it waits or is idle already, it makes no
    /// step.
    Stop,
    /// `T+`: up to where its call ends, or it waits. If it waits already, it makes one step, which asks once more; if
    /// it is idle, none.
    CallEnd,
}

/// An item of a steps file: steps of a thread.
#[derive(Clone, Copy, PartialEq, Eq, Debug)]
pub struct Item {
    /// The thread, from 0 in the order of declaration.
    pub thread: u32,
    /// How far its steps go.
    pub until: Until,
    /// The first byte of the item in the file, from 0.
    pub start: usize,
}
