//! The symbol table of a program: names and their places, the members of structs, the number of declarations of each
//! kind and before each one, the targets of `init`s, and the locals of a section so far. It also keeps the first faults
//! of names and types.
//!
//! - [`table::SymbolTable`]: the declarations with all their tables, and the faults that these show: repeated names,
//!   exceeded limits, a repeated `init`.
//! - [`declarations::Declarations`], [`members::Structure`], [`first_inits::FirstInits`], [`totals::Totals`],
//!   [`names::Names`]: the tables.
//! - [`scope`]: what a name refers to, in a section or outside of sections, and types as they are written.
//! - [`class_of`], [`report_lock`], [`FieldAnnotations`]: annotations: which lock protects a global, an array or a
//!   field, and the faults of each. [`class_named`], [`report_listed`]: the lock classes that a section takes whole.
//!
//! `specs/Working` defines the data that a value of the tables stands for, and the position of a walk along an
//! annotation. The crate `resolution` defines what names refer to, which lock an annotation names, and where faults
//! stand.
#![tactic(auto)]

mod annotation;
pub mod declarations;
pub mod first_inits;
mod listed;
pub mod members;
pub mod names;
pub mod scope;
pub mod table;
pub mod totals;

pub use annotation::{FieldAnnotations, class_of, report_lock};
pub use listed::{class_named, report_listed};
