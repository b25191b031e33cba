//! The parser: turns the tokens of a text into the tree of a program.
//!
//! - [`parse`]: the tree, or the first fault. That is a fault of the grammar, `E03` or `E04`, and if there is none,
//!   `E18`.
//! - [`find_tree`]: the tree, with its returns in any place, for the notes of a fault.
//! - [`one_tree`]: tokens have at most one tree.
//! - [`one_unexpected`], [`one_too_deep`], [`one_misplaced`], [`never_both`]: tokens have at most one `E03`, one `E04`
//!   and one `E18`, and never both an `E03` and an `E04`.
//!
//! `syntax/specs/Grammar.antt` is the grammar: which tokens spell which tree. `syntax/specs/Faults.antt` says what each
//! fault means.
//!
//! - `take`, `parts`: tokens that must or may come next, types, constants, parameters, annotations, and lists of them.
//! - `expr`, `local`, `call`, `stmt`: expressions, conditions and statements, first those that declare a local or call
//!   a helper.
//! - `member`, `thread`, `decl`, `whole`: members of structs, items of threads, declarations, whole programs.
//! - `returns`: the first misplaced `return`.
//!
//! What the functions compute is defined in `specs/Working/Reading.antt`, `Parts.antt`, `Expressions.antt`,
//! `Statements.antt` and `Declarations.antt`, as functions on lists. The law of readers in `specs/Theory` says that
//! they parse by the grammar.
#![tactic(auto)]

mod call;
mod decl;
mod expr;
mod growth;
mod local;
mod member;
mod parts;
mod returns;
mod stmt;
mod stop;
mod take;
mod thread;
mod whole;

pub use whole::{
    find_tree, never_both, one_misplaced, one_too_deep, one_tree, one_unexpected, parse,
};
