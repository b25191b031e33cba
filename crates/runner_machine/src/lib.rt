//! A stack machine that runs the code of one section over the cells of the locks that it holds. It is allocated once and
//! begins anew in place for each section. After that begin nothing allocates.
//!
//! - [`machine::StackMachine`]: the machine. [`progress::Progress`]: the result of an instruction.
//! - [`operands::Operands`]: the operand stack of a section. [`prints::Prints`]: what a section has printed.
//! - [`holding::Holding`]: reads and writes cells of the locks that are held. At the section's end its grants are moved
//!   out, and its first reads and last writes are lent in order.
//!
//! `specs/Working` defines machines and the effect of an instruction, operand stacks, prints, and the cells that are
//! held. Nobody has to believe it.
#![tactic(auto)]

mod finding;
mod held_lock;
pub mod holding;
pub mod machine;
mod notes;
pub mod operands;
pub mod prints;
pub mod progress;
mod truths;
