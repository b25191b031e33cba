//! The C text of what a program has beside its sections: its structs and the state, how it is opened and closed, access
//! to pools, and the text of the cells.
//!
//! - [`writer::DataWriter`]: writes the structs and the state, the functions that open and close it, the tests of
//!   pointers, and the functions that write numbers of objects and the cells.
//!
//! `specs/` defines the texts: the structs and the state (`Types`), how the state is opened and closed (`Openings`), the
//! functions over the pools of a struct (`Pools`), the function that writes the cells (`Cells`). `Joined` joins texts.
//! `Working` only says what the code has done, and `Theory` has lemmas about texts.
#![tactic(auto)]

mod cells;
mod openings;
mod places;
mod pools;
mod types;
pub mod writer;
