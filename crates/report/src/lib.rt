//! Writes histories: the exact texts of runs.
//!
//! - [`history_text`]: the calls and the values of all cells, in one of the two formats of [`input_files::Format`].
//! - [`entries_text`]: the same for the entries of a history.
//! - [`changed_text`]: the same for calls, with only the cells that changed.
//! - [`unsettled_text`]: the calls before one that is not settled, and that call.
//! - [`push_entries`]: the lines of the entries of a history.
//! - [`push_closing`]: the end of a history, with the values of all cells.
//! - [`Record`]: a call, how it ended and what it printed.
//! - [`read_history`], [`read_items`]: the files that the commands read.
//! - [`is_value`]: whether two values are equal.
//! - [`lines`] and [`pieces`]: single lines of a history, and their parts.
//!
//! `specs/History.antt` and `specs/Pieces.antt` define the texts byte for byte.
#![tactic(auto)]

mod histories;
pub mod lines;
pub mod pieces;
pub mod record;
mod values;

pub use histories::{
    changed_text, entries_text, history_text, push_closing, push_entries, unsettled_text,
};
pub use input_files::{read_history, read_items};
pub use record::Record;
pub use values::is_value;
