//! The C file of a program and its header: the parts that are the same in all files, the data, the sections, what
//! records and writes histories, and a main function.
//!
//! - [`header`]: the parts that another file can use: types, the functions that open and close the state, prototypes of
//!   sections.
//! - [`file`]: all functions. If AL_HISTORY is defined, they include the recorder of a history of the calls, and if AL_MAIN
//!   is defined, a program that runs the threads. If a [`SourceFile`] is given, the C of each statement names its line.
//!
//! `specs/Files.antt` defines both texts byte for byte, from the texts of sections that `c_sections` defines and those of
//! types, the state, pools and cells that `c_data` defines. `Fixed` has the parts that are the same in all programs,
//! `Recording` the recorder, which is the same too, `Histories` the functions that write a history, and `Mains` the program
//! that runs the threads.
#![tactic(auto)]

mod files;
mod fixed;
mod histories;
mod mains;
mod recording;
mod writer;

pub use files::{SourceFile, file, header};
