//! Helpers: their call graph and its faults, and the expansion of helpers into the sections that call them.
//!
//! - [`graph::CallGraph`]: the calls of helpers and sections. The crates that resolve trees make it.
//! - [`graph_faults::check`]: notes the faults of a graph: recursion, depth, and what the calls of a section bring.
//!   `specs/Faults` defines them. `specs/Recursion`, `specs/Depths` and `specs/Counts` define how a recursion is
//!   reached, how deep calls go, and what they bring. [`call_laws`]: laws of a graph without these faults.
//! - [`callers`], [`extents`], [`settling`]: the callers of each helper, and what each helper comes to.
//! - [`program::expand`]: a program with the helpers of all its sections expanded. `core_lang` defines the tree of such
//!   a section, and proves that its runs are the same.
//! - [`body`], [`writing`], [`scope`]: what is expanded, its statements one after another, and the locals in scope by
//!   their new numbers. `idle`: the helpers that do nothing, whose calls are dropped. [`not_written_out`]: why a
//!   section is not expanded.
//! - [`prints`]: the most numbers that one run of a section prints. [`laws`]: laws of that, and of programs without
//!   helpers.
#![tactic(auto)]

pub mod body;
pub mod call_laws;
pub mod callers;
pub mod extents;
pub mod graph;
pub mod graph_faults;
mod idle;
pub mod laws;
pub mod not_written_out;
pub mod prints;
pub mod program;
pub mod scope;
pub mod settling;
pub mod writing;
