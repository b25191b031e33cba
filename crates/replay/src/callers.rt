//! The callers of a history.

/// The callers whose calls a history has.
#[derive(Clone, Copy, PartialEq, Eq, Debug)]
pub enum Callers {
    /// The threads of the program: each makes the calls of its script in order, each once.
    Scripts,
    /// Anyone: threads numbered 0 to 4,294,967,295 make calls of any sections, with any arguments that fit.
    Anyone,
}

/// The terms on which a history is judged.
#[derive(Clone, Copy, PartialEq, Eq, Debug)]
pub struct Terms {
    /// The callers whose calls it has.
    pub callers: Callers,
    /// The limit of turns of each execution of a loop.
    pub turns: u64,
}
