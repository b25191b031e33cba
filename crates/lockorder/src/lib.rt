//! Lock order: ranks the lock classes of a program, or finds a cycle among them.
//!
//! - [`order`]: the ranks of the lock classes, or a cycle of classes of which each must precede the next.
//! - [`order_by`]: the same, given the points of all sections.
//! - [`class_pairs`]: the pairs of classes of which the first must precede the second, and why.
//! - [`ranks::OrderRefusal`]: the error: a cycle, or out of memory.
//! - [`ranks::Cycle::fault`]: the fault of a cycle.
//! - [`text`]: the texts of cycles.
//!
//! The graph of which class must precede which is a lock-order graph, and the ranks are a topological order of it.
//!
//! `specs/` defines which class must precede which (`Edges`), the rank list, ranks and cycles (`Ranks`), the fault of a
//! cycle (`Faults`), and the pairs of classes as data (`ClassPairs`). Its other files describe what the code has done;
//! nobody has to believe them.
#![tactic(auto)]

mod bindings;
mod class_order;
mod cycles;
mod fault;
mod pairs;
mod path_sets;
mod ranking;
pub mod ranks;
mod section_edges;
mod table;
mod telling;
pub mod text;

pub use class_order::{class_pairs, order, order_by};
