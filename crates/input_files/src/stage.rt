//! How far a history is read.

/// How far a history has been read, which decides what lines may follow.
#[derive(Clone, Copy, PartialEq, Eq, Debug)]
pub enum Stage {
    /// After the first line.
    Opening,
    /// After a call or one of its prints.
    Called,
    /// After `cells` or a cell.
    Cells,
    /// After `end`.
    Ended,
}
