//! The judgement on a recorded history.

use crate::wanted::Wanted;

/// The verdict on a recorded history. Lines are numbered from 1, the first line of the file being line 1.
#[derive(Clone, Copy, PartialEq, Eq, Debug)]
pub enum Verdict {
    /// Each line may come at its place, and the last line is `end`.
    Same,
    /// The first line that may not come at its place. Where lines are missing at the end, it is one more than the
    /// number of the last line.
    Differs(usize),
    /// All lines before this one may come, and up to its end this is the line of a thread's next call, which needs more
    /// turns than are given.
    Unsettled(usize),
}

/// A verdict and its reason.
#[derive(Debug, Drop)]
pub struct Judgement {
    /// The verdict on the history.
    pub verdict: Verdict,
    /// What may come at the line that differs, where one does.
    pub wanted: Option<Wanted>,
}
