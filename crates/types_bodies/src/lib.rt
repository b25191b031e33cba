//! The type checker of bodies: turns the tree of a section or a helper into its resolved form, in which names are
//! numbers and every expression is typed, and notes its faults of names and types.
//!
//! - [`section::check_section`], [`section::check_helper`]: whole sections and helpers. `stmt`: statements, which bind
//!   locals in the checker as they go. `call`: calls of helpers. `owner`: the `where` of a `let`. `target`: the left
//!   sides of assignments.
//! - [`checker::Checker`]: the symbol table, and the locals up to the current place. [`expr`]: its methods on
//!   expressions: values, numbers and conditions. [`place`]: its methods on the places that expressions name: names,
//!   elements and paths.
//! - [`resolved_expr`]: resolved expressions, each a value with its sort or a condition, made from resolved parts.
//!   [`wanted`]: numbers, and which values are expected. [`checked`]: results that may be missing because of a fault.
//!
//! `specs/Working` defines the data that a value of these modules stands for. The crate `resolution` defines the
//! section that a tree stands for, the resolved form of expressions, and where their faults stand.
#![tactic(auto)]

mod call;
pub mod checked;
pub mod checker;
pub mod expr;
mod owner;
pub mod place;
pub mod resolved_expr;
pub mod section;
mod stmt;
mod target;
pub mod wanted;
