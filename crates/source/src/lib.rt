//! Positions in a source text, its tokens, its faults and the line that reports a fault: the types that all passes
//! share.
//!
//! - [`span::Span`]: a range of bytes of the text.
//! - [`token::Token`]: a token and its position. The relation `HasTokens` of `specs/Texts.antt` says which tokens a
//!   text has.
//! - [`fault::Code`], [`fault::Fault`], [`fault::Refusal`]: the code of a fault, a fault with its position, and why a
//!   pass gives no result.
//! - [`mistake::Mistake`]: a fault by code and position. `specs/Mistakes.antt` defines which of several faults is
//!   reported.
//! - [`line::fault_line`]: `FILE:LINE:COL: CODE TEXT`, as `specs/Faults.antt` defines it.
//! - [`limits`]: the limits of texts, programs and runs. `specs/Limits` has the same numbers for definitions.
//! - [`cursor::Cursor`]: a position that moves through a text, with its line and column.
//! - [`keyed::KeyedState`]: hashes that the author of a text cannot predict.
//! - [`memory::NoMemory`]: the error of calls that can only fail for lack of memory.
#![tactic(auto)]

pub mod cursor;
pub mod fault;
pub mod keyed;
pub mod limits;
pub mod line;
pub mod memory;
pub mod mistake;
pub mod span;
pub mod token;
