//! The compiler's passes in order: from the bytes of a source text to a compiled program, or to its first fault.
//!
//! - [`compile`]: the compiled program, or the fault of the first pass that has one.
//! - [`examine`]: the same without code, with the order of lock classes or a cycle of them: [`Ordered`], [`Cyclic`].
//!
//! `specs/` defines the program and the fault of a text (`Programs`), the facts about the order of its lock classes
//! (`Orders`), and about a cycle (`Cycles`). `lowering` defines compiled programs.
#![tactic(auto)]

mod passes;

pub use passes::{Cyclic, Ordered, compile, examine};
