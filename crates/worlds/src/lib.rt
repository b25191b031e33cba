//! Concurrent execution, as definitions and laws: the world of a program's threads, one step of it, and what holds of
//! every run. This crate runs no code.
//!
//! - [`laws::every_run`]: the headline.
//! - [`laws::instructions_have_their_case`]: no open section is ever stuck.
//! - [`event::Event`]: the event of one step of a thread.
//!
//! In the words of transactions: every run is strictly serializable, in the order of the ends, and none has a deadlock.
//!
//! `specs/` defines which locks are asked for (`Asking`), a world and one step of a thread (`Worlds`), how locks are
//! granted one after another (`InTurn`), which thread waits for which and which goes on (`Waiting`), and the claims
//! about every run (`Claims`). `States` says what holds of each open section by itself, and how it belongs to the
//! world; `Ahead` says what is ahead of it. Nobody has to believe these two.
#![tactic(auto)]

pub mod event;
pub mod laws;
