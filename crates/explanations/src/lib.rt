//! What `explain` and the editors' server report of a text: its fault with notes, or notes on its lock order and
//! warnings.
//!
//! - [`told_of`]: makes the report. [`Diagnosis`]: the report.
//! - `cycle_edges`, `cycle_calls`: the notes on the edges of a cycle of lock classes: where a lock of each class is used,
//!   where the root of the next path is bound, and the calls of helpers that lead there. `cycle_order`: the notes on the
//!   order of the classes of a program that has one.
//! - `text`, `warnings`, `listed`: the warnings of a text, of its tree, on the lock classes that its sections list.
//!
//! `specs/Told` says what is reported of a text. `specs/CycleNotes`, `specs/CycleCalls` and `specs/OrderNotes` say which
//! notes are true, and their words. `specs/Warnings` says which warnings there are, in which order, and on what, but for
//! those on listed classes, which `specs/ListedClasses` defines. `specs/Names` defines the names that a program reads,
//! assigns and calls.
#![tactic(auto)]

mod body;
mod cycle_calls;
mod cycle_edges;
mod cycle_order;
mod cycle_teller;
mod listed;
mod name_set;
mod names;
mod program;
mod protecting;
mod telling;
mod text;
mod warnings;

pub use telling::{Diagnosis, told_of};
