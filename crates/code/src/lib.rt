//! The instruction set of a stack machine: what each instruction does, and the code of each section.
//!
//! - [`laws`]: laws of every run of a code.
//! - [`point_laws`]: laws of the code of a section's points, which is never stuck.
//! - [`run_laws`]: a section's code behaves as the section.
//! - [`instr::Instr`]: one instruction.
//! - [`section_code::ProgramCode`], passed on as [`Code`]: the code of a program: instructions, line tables, depths of
//!   operand stacks.
//! - [`places::SectionPlaces`]: the positions of a section's instructions in the program's text.
//! - [`Lister`]: writes the listing of a section, a line for each instruction, and single instructions. [`Listed`]: a
//!   section with what its listing needs. [`path_texts`]: its lock paths as texts.
//!
//! `specs/` defines what an instruction does over any memory (`Machine`), the memories (`Memory`) and what is seen of
//! them (`Seen`), the instructions of a section (`Lowering`), the point of each (`LineTables`), the depth of its
//! operand stack (`Needs`), a code that behaves as its section (`Alone`), the instructions ahead of a machine
//! (`Ahead`), the claims of the laws (`Laws`, `PointLaws`, `RunLaws`), and the listing of a program (`Listing`).
//! `Safety` has lemmas for the crates above; `Naming`, `Asked`, `Places` and `Sections` describe what the code has
//! done.
#![tactic(auto)]

pub mod instr;
pub mod laws;
mod lines;
mod listed;
pub mod places;
pub mod point_laws;
pub mod run_laws;
pub mod section_code;

pub use lines::{Lister, path_texts};
pub use listed::Listed;
pub use section_code::ProgramCode as Code;
