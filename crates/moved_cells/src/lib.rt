//! Ownership of a lock's cells by the section that holds the lock: the cells are moved out of the manager.
//!
//! - [`grant::Grant`]: a lock and its cells, which can be neither copied nor dropped.
//! - [`cells::Cells`]: the values of one lock's cells: one slice, in which a cell is found by its offset.
//! - [`laws::slots_are_cells`]: a value at the offset of a cell is the cell's.
//! - [`laws::heaps_have_values`]: a heap has a value for each of a lock's cells.
//!
//! `specs/` defines grants as data (`Grants`) and what the laws claim (`Laws`).
#![tactic(auto)]

pub mod cells;
pub mod grant;
pub mod laws;
