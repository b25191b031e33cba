//! Code generation: makes the code of a program, and the compiled program.
//!
//! - [`compiled::Program`]: a compiled program.
//! - [`lower`]: the code of each section, made by `section`, `assembler`, `emitter` and `sizes`. [`listing`]: its
//!   listing, a line for each instruction. [`listing_with_places`]: the same with the position of each statement in the
//!   text.
//! - [`rooms`]: the most that one run of each section needs.
//! - [`laws`]: the code of a program behaves as its sections, and calls of the program with its helpers expanded run as
//!   those of the accepted program.
//!
//! `code` defines the instructions of a section, where its points begin and how many operands they need. `specs/Plans`
//! defines compiled programs. `specs/Working` describes what the code has done with a section; nobody has to believe
//! it.
#![tactic(auto)]

mod assembler;
mod class_sizes;
pub mod compiled;
mod emitter;
pub mod laws;
mod program_code;
mod program_listing;
mod program_rooms;
mod section;
mod sizes;

pub use program_code::lower;
pub use program_listing::{listing, listing_with_places};
pub use program_rooms::rooms;
