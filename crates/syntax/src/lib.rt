//! The syntax tree of a program: its declarations, statements and expressions, each part with its position in the text.
//!
//! - [`tree`]: the types. A chain of more than two operands is a list, and parentheses are kept.
//! - `specs/Trees.antt`: the same trees as plain data. `specs/Views.antt`: the tree that a value stands for.
//! - `specs/Grammar.antt`: which tokens spell which tree, the bound on nesting, and the faults of tokens that spell
//!   none.
//! - [`print_tree`]: prints a tree as a text that is parsed as that tree again (`specs/Working/Bare.antt`).
//! - `specs/Returns.antt`: where a `return` is misplaced or missing.
#![tactic(auto)]

mod print;
mod print_decl;
mod print_stmt;
mod print_thread;
mod print_whole;
mod printer;
pub mod tree;

pub use print_whole::print_tree;
