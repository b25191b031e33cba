//! The files that commands read beside a program: steps files and recorded histories.
//!
//! - [`read_items`]: the items of a steps file, or the fault of its first faulty item. [`item::Item`]: a thread and how
//!   far it goes. [`turn::Turn`]: a number of steps of one thread. [`steps_fault_line`]: the line that reports a fault.
//!   [`steps_refusal::StepsCode`], [`steps_refusal::StepsFault`]: what is wrong with an item, and where.
//! - [`read_history`]: the format and lines of a history, or the fault of its first faulty line. [`Recorded`]: the text
//!   that was read, whose lines [`next_line`] cuts off one by one, so that no copy is kept. [`history_fault_line`]: the
//!   line that reports a fault. [`Format`]: the two formats. [`history_refusal::HistoryCode`],
//!   [`history_refusal::HistoryFault`]: what is wrong with a line, and where.
//! - [`piece`]: the parts of a line: names, numbers, members, values.
//!
//! A name, a number, a cell or a type in a history is checked for its form only. `specs/Steps` defines the items of a
//! file and which are faulty, and `specs/Turns` the steps of turns. `specs/Pieces` defines the parts of a history's
//! lines, `specs/Lines` the lines and which may follow which, and `specs/Histories` what a file says. `specs/Working`
//! is for proofs; nobody has to believe it.
#![tactic(auto)]

pub mod format;
mod history_reading;
pub mod history_refusal;
mod history_telling;
pub mod item;
mod line;
mod number;
pub mod piece;
mod stage;
mod steps_reading;
pub mod steps_refusal;
mod steps_telling;
pub mod turn;
mod writing;

pub use format::Format;
pub use history_reading::{Recorded, next_line, read_history};
pub use history_telling::history_fault_line;
pub use steps_reading::read_items;
pub use steps_telling::steps_fault_line;
