//! Terminal colours for the text that explains a fault, as escape sequences of ECMA-48.
//!
//! - [`painted`]: the text in colours. `specs/Painted.antt` defines the colour of each word and line.
#![tactic(auto)]

mod lines;
mod style;

pub use lines::painted;
