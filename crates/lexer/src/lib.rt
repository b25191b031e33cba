//! The lexer: turns the bytes of a source text into its tokens.
//!
//! [`lex`] returns the tokens that the text has by the relation `HasTokens` of the crate `source`, or its first fault.
//! [`one_list`] is the law that a text has at most one such list.
#![tactic(auto)]

mod bytes;
mod names;
mod token_error;
mod unit;
mod whole;
mod words;

pub use whole::{lex, one_list};
