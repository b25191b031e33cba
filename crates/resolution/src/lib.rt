//! Name resolution and typing, as definitions: the program that a tree stands for, with each name replaced by the
//! number of what it refers to, and the faults of trees that stand for none. The crates `types_symbols`, `types_bodies`
//! and `types` have the passes.
//!
//! - [`laws`]: laws of resolution and of faults.
//! - [`finding::Finding`]: a fault of names and types. [`finding::Firsts`]: the first faults so far. [`why::Why`]: the
//!   reason of a fault.
//! - [`wanted::Want`]: what is expected of an expression. [`wanted::Sort`]: what an expression is.
//! - [`body_limits::BodyLimits`]: the limits of parameters and locals. [`init_target::InitTarget`]: a field that an
//!   `init` names. [`owner_field::OwnerField`]: a final reference of a struct.
//!
//! `specs/` defines what names refer to (`Scopes`), well-typed trees (`Typing`), the resolved form of expressions,
//! statements, constants and annotations (`Expressions`, `Statements`, `Constants`, `Annotations`), the program that a
//! tree stands for (`Resolved`, `Tables`, `Numbers`, `Limits`), where parts stand in a program (`Where`), the call
//! graph (`CallGraphs`), and the faults, which of them are reported, and for what reason (`Faults`, `FirstFaults`,
//! `Reasons`). `Core` has resolved programs as data, and `CoreViews` which of them a value stands for.
#![tactic(auto)]

pub mod body_limits;
pub mod finding;
pub mod init_target;
pub mod laws;
pub mod owner_field;
pub mod wanted;
pub mod why;
