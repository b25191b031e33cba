//! The formatter: writes a source text anew in the standard layout.
//!
//! - [`format`]: the text in the layout of `specs/Layout.antt`, or its fault of tokens or grammar.
//! - [`keeps_tokens`]: formatting keeps the tokens and comments, byte for byte and in order.
//! - [`formatted_twice`], [`keeps_program`]: formatting a formatted text changes nothing, and a formatted program is a
//!   program.
//! - [`one_layout`]: a text has at most one layout.
//!
//! `specs/Pieces.antt` defines the pieces of a text: tokens, comments and line feeds. `specs/Layout.antt` defines the
//! gap between two pieces, and `specs/Formatted.antt` why a text has no layout.
//!
//! - `kind`: the kinds of tokens that the layout distinguishes.
//! - `state`: what decides the gap before the next piece.
//! - `cut`: cuts lines, comments and tokens out of a text.
//! - `printer`, `whole`: write the pieces one after another.
#![tactic(auto)]

mod cut;
mod kind;
mod laws;
mod printer;
mod state;
mod whole;

pub use laws::{formatted_twice, keeps_program, keeps_tokens, one_layout};
pub use whole::format;
