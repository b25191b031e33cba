//! The state of a thread between steps.

use runner::states::{Asking, Ended, Ready, Running};

/// The state of a thread.
pub enum TypedState<'p> {
    /// It is in its own step. Between steps no thread has this state.
    Away,
    /// No section is open.
    Ready(Ready<'p>),
    /// The next step of its section is an instruction.
    Running(Running<'p>),
    /// Its section is to be granted a lock.
    Asking(Asking<'p>),
    /// Its section has an outcome.
    Ended(Ended<'p>),
}
