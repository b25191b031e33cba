//! Judges a recorded history line by line: which line may come next, the verdict, and laws of verdicts.
//!
//! - [`replay`]: the verdict on a recorded history of a program. [`judge`]: the verdict on that of a prepared one, and the
//!   reason.
//! - [`Callers`]: whose calls a history has, those of the scripts or anyone's. [`Terms`]: the terms on which a history is
//!   judged.
//! - [`Verdict`]: that it is the same, or the first line that differs or is not settled. [`Judgement`]: a verdict, and the
//!   reason.
//! - [`Wanted`]: what may come at a line that differs. [`Lack`]: what the line lacks.
//! - [`laws`]: what holds of every verdict.
//!
//! `specs/Told.antt` defines the call that a text writes, `specs/Readers.antt` the lines that may come next,
//! `specs/Verdicts.antt` what each verdict claims, and `specs/Wanted.antt` what is reported of a line that differs.
//!
//! How it is proved: `specs/Working/Reading` ties the progress of the code to a reader of the definitions (`IsAt`): each
//! thread's calls so far, and the least begin that its next may have. Who calls is a parameter of the definitions; only
//! `IsNext` and `AllCalled` differ. A call's line is read for thread and begin alone, and, where anyone may call, for
//! what it calls (`invocation_in`). The head that the call must have is written and compared, for no other call's line
//! reads so (`IsOnlyCall`). A line leads to one place at most, since the thread's number, and of a call from outside
//! what is called, can be read back (`proofs/OneVerdict`, `proofs/Nexts`). Lines that come are those of a history, and
//! conversely (`proofs/Following`, `proofs/HistoryLemmas`).
#![tactic(auto)]

pub mod callers;
mod calls;
mod candidate;
pub mod laws;
mod names;
mod progress;
mod reading;
mod replaying;
mod told;
pub mod verdict;
pub mod wanted;

pub use callers::{Callers, Terms};
pub use replaying::{judge, replay};
pub use verdict::{Judgement, Verdict};
pub use wanted::{Lack, Wanted};
