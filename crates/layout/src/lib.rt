//! The memory layout of a program: the numbering of its locks, and the assignment of its cells to locks.
//!
//! - [`lay_out`]: the layout of a program.
//! - [`table::Layout`]: for each cell its lock, its initial value and its offset among the lock's cells. For each lock,
//!   its number.
//! - [`final_of`]: the objects that final references name.
//! - [`room::Room`]: the most that one run of a section can need.
//!
//! `specs/` defines the layout of a program (`Layouts`) and the cells of a lock (`LockCells`). Its other files only say
//! what the code has done (`Numbers`, `Growth`); nobody has to believe them.
#![tactic(auto)]

mod finals;
mod numbering;
mod places;
mod program_layout;
mod protection;
pub mod room;
pub mod table;

pub use finals::final_of;
pub use program_layout::lay_out;
