//! The lock manager (strict two-phase locking): it lends the cells of each lock to one section at a time, queues the
//! threads that wait, and keeps the commit history.
//!
//! - [`manager::Manager`]: opens sections, grants locks and ends sections.
//! - [`ticket::Ticket`], [`ticket::Receipt`]: the right to ask for a section's locks and to end it, and the result of
//!   ending it.
//! - [`answer::Answer`]: the answer to a request.
//! - [`no_circle`]: if each thread asks only for locks after all those that it holds, no threads wait in a cycle.
//!
//! To the manager a section is a transaction: it acquires locks as it runs, and releases all of them at its end, when its
//! entry is appended to the history.
//!
//! `specs/` defines the manager and its rules (`Managers`), the effect of each call (`Calls`), open sections and tickets
//! (`Sessions`) and queues (`Queues`). `Committed` and `Ties` only say what the code relies on; nobody has to believe
//! them.
#![tactic(auto)]

pub mod answer;
mod asking;
mod committed;
mod fitting;
mod giving;
pub mod manager;
mod opening;
mod places;
mod queue;
mod sections;
mod session;
pub mod ticket;
mod values;
mod writes;

pub use locks::laws::no_circle;
