//! The room that a run needs.

/// The most that one run of a section can need.
#[derive(Clone, Copy, PartialEq, Eq, Debug)]
pub struct Room {
    /// The number of locks that it holds.
    pub locks: usize,
    /// The number of cells of these locks together.
    pub cells: usize,
    /// The number of operands on its stack.
    pub operands: usize,
    /// The number of its locals.
    pub locals: usize,
}
