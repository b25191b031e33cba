//! Writes the C text of sections.
//!
//! - [`names::Writer`]: writes the names of a program with a prefix, and whole sections.
//! - [`sections::prints`]: whether a section prints.
//! - [`marks::LineMarks`]: the lines of the program's file that the C of a section is marked with.
//!
//! `specs/` defines the texts: the lines of the program's file (`Marks`), the instructions of a code (`Instructions`),
//! whose statements `c_statements` defines, prototypes and whole sections (`Sections`). `Working` describes what the
//! code has done.
#![tactic(auto)]

mod groups;
mod instructions;
pub mod marks;
pub mod names;
mod releases;
pub mod sections;
mod targets;
mod temporaries;
