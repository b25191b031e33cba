//! An interpreter of resolved trees: runs sections whole, one at a time, on one heap.
//!
//! - [`run::run_whole`]: runs a section from its begin to its end, with a bound on the turns of each execution of a
//!   loop, and returns how it ended and what it printed, [`run::End`]: exactly what `run_call` of `core_lang`'s specs
//!   defines.
//! - [`execution::Execution`]: a section that is being run. Its statements run exactly as `core_lang`'s specs define.
//! - [`Heap`]: the values of all cells. [`heap::Heap::open`] makes the initial heap of a program.
//! - [`draft::Draft`]: a heap with the writes of one run, which are kept or undone.
//! - [`laws`]: laws of every answer.
#![tactic(auto)]

pub mod draft;
mod evaluate;
pub mod execution;
pub mod heap;
pub mod laws;
pub mod run;

pub use crate::heap::Heap;
