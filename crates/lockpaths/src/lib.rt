//! Lock paths: finds for each access of a program the path by which its section names the lock.
//!
//! - [`paths`]: the lock paths of each section, or the first fault: an access without a lock path, or a section with
//!   too many.
//! - [`table::Paths`]: the result.
//! - [`forms::Forms`]: what the `let`s and `var`s of a section say of its locals, and the normal forms of stable paths.
//!   [`nodes::Nodes`]: stable paths, each with an index. [`form`]: stable paths, and the states of a walk along one.
//!
//! `locks` defines lock paths and normal forms, and where a program has a fault.
#![tactic(auto)]

mod finder;
pub mod form;
pub mod forms;
mod found;
pub mod nodes;
mod program;
pub mod table;

pub use program::paths;
