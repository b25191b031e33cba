//! The name resolution and type check of a whole program: turns its tree into the resolved program, in which names are
//! numbers and every expression is typed, or finds its first fault of names and types.
//!
//! - [`program::check`]: the pass. [`program::first_faults`]: its faults only, with their reasons. The symbol table is
//!   that of `types_symbols`, and `types_bodies` checks sections.
//! - [`grown`]: the program so far, and how a lock, a global, an array, a section, a struct or a thread is added.
//!   [`struct_builder`]: structs with their members. [`pool`]: pools with their objects.
//! - [`constant`], [`initial`], [`thread`]: the values of constants, the faults of `init`s, and the calls of threads.
//! - [`calls`], [`call_bodies`], [`call_walk`]: the call graph of sections and helpers, read off the tree.
//!
//! `resolution` defines the program that a tree stands for (`specs/Tables`), well-typed trees (`specs/Typing`), what
//! names refer to (`specs/Scopes`) and the place of each fault (`specs/Faults`). `specs/Mistakes` of `source` defines
//! which fault is reported.
#![tactic(auto)]

pub mod call_bodies;
pub mod call_walk;
pub mod calls;
pub mod constant;
pub mod grown;
pub mod initial;
pub mod pool;
pub mod program;
pub mod struct_builder;
pub mod thread;
