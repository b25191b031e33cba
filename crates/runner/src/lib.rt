//! The life of one transaction, as types (typestate): a thread that is ready, and a section that is running, asking for a
//! lock, or ended. After the begin of a section, nothing allocates.
//!
//! - [`states::Ready`], [`states::Running`], [`states::Asking`], [`states::Ended`]: a thread by its next step.
//! - [`laws`]: when the cells of an open section stay part of a heap.
//!
//! `specs/` defines open sections and the effect of their calls (`Opens`, `Answers`). `Asked`, `Pending` and `Ties` only
//! say what the code relies on; nobody has to believe them. The machine of an open section is `runner_machine`'s.
#![tactic(auto)]

mod asker;
mod body;
pub mod laws;
mod open;
mod opening;
mod pending;
pub mod states;
