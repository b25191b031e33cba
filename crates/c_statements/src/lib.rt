//! Writes C statements, and the acquires before each point.
//!
//! - [`names`]: numbers, locals, temporaries and structs as text.
//! - [`operands::OperandScope`]: a section and its program, whose statements are written.
//! - [`acquires::Acquires`]: the acquires of a section.
//! - [`class_loops::ClassLoops`]: the loops that acquire or release a whole class.
//!
//! `specs/` defines the texts: names (`Names`), statements (`Statements`), acquires (`Acquires`). `Working` describes
//! what the code has done, and `Theory` has lemmas about texts.
#![tactic(auto)]

pub mod acquires;
pub mod class_loops;
pub mod names;
pub mod operands;
mod statements;
