//! The laws of threads that run sections in C over one memory with locks: C defines all behavior, each run is one of
//! `worlds`, and calls may come from outside. This crate runs no code of a section.
//!
//! - [`laws::every_run_in_c`]: the headline.
//! - [`laws::every_run_is_of_worlds`]: each run of threads in C is one of the world of `worlds`.
//! - [`meaning::sections_mean`], [`meaning::threads_mean`]: the meaning of the C of a program in memory.
//! - [`lock_laws`]: what the statements of an acquire do, that they acquire exactly what is asked for, and that the end
//!   releases it.
//! - [`outside::calls_may_come_from_outside`]: what holds of every run of a compiled program's scripts also holds of
//!   calls from outside the program.
//!
//! `specs/Threads` defines the state and one step of a thread, with undefined behavior as a case of its own: read this
//! first. `specs/Accesses` defines the cells that statements read or write, `specs/Claims` the claims, and
//! `specs/Meanings` those about a compiled program. `specs/Locking` has the statements of an acquire and of the end as
//! data, their text, and what they do in C; `specs/LockClaims` has the claims about them. `specs/Outside` defines calls
//! from outside.
//!
//! `proofs/Arrays` begins with an outline of the proofs about locks, and `proofs/Stands` with one of those about
//! threads.
#![tactic(auto)]

pub mod laws;
pub mod lock_laws;
pub mod meaning;
pub mod outside;
