//! The subset of C for the bodies of sections: its statements and their meaning, and the translation of instructions to
//! groups of statements.
//!
//! - [`statement::Statement`]: a statement, and the operands that it may have.
//! - [`laws::statements_run_in_turn`]: a list of statements starts where the list before it leads to the next
//!   statement.
//! - [`grouper::Grouper`]: the statements of each instruction of a section, one after another.
//! - [`numbers`]: the numbers that a code in memory pushes, and those of an initial heap, have 64 bits.
//! - [`group_laws`]: each group does what its instruction does, and the C of a section that runs alone does what the
//!   section does.
//!
//! `specs/Meaning` defines what statements do, and which behavior C leaves undefined. `specs/Groups` defines the group
//! of an instruction, `specs/Plans` the operands known before each, `specs/Alike` that a group does what its
//! instruction does, and `specs/Runs` and `specs/InC` how the C of a section runs.
#![tactic(auto)]

pub mod group_laws;
pub mod grouper;
pub mod laws;
pub mod numbers;
mod operands;
pub mod statement;
mod types;
