//! Theorems about every program and every run, in words that are not the code's; nothing depends on them. They would
//! show an error in a definition or a promise.
//!
//! - [`meanings`]: helpers that are not called, sections that only call one helper, and `where`.
//! - [`closed_runs`]: runs of real threads: a run on one seat, calls that use no cell, a call that runs alone, and a run of
//!   all scripts as `simulate` runs it.
//! - [`ends_told`]: no run of a program's threads in which all calls end leaves other cells than those that `outcomes`
//!   reports.
//!
//! `specs/` has a file of the same name for each, which defines its claims.
#![tactic(auto)]

pub mod closed_runs;
pub mod ends_told;
pub mod meanings;
