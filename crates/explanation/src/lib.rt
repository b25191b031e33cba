//! Explanations for a person: of a fault (the line that reports it, the line of the source with a caret under the place,
//! notes, a remedy), or of a program without a fault (notes on why it is accepted, warnings).
//!
//! - [`Explanation`], [`Acceptance`]: the two texts, as `specs/Explanation` defines them byte for byte.
//! - [`Further`]: the faults that are reported with another.
//! - [`laws`]: a law of every shown place.
//! - [`Note`]: a note on a further place, or on the text as a whole. [`Warning`]: a warning about an accepted program
//!   that may not be as meant. [`Warned`]: what a warning says, in the words of `specs/Warnings`.
//! - [`fault_json`], [`accepted_json`]: the two texts as a JSON object on one line, which `specs/Json` defines. [`end_of`]:
//!   where a place ends. [`fault_words`]: the message of a fault. [`json_laws`]: laws of the JSON of every fault.
//! - [`page`]: the page of a code, as `explain CODE` writes it, and `specs/CodePages` defines it. [`remedy_of`]: what can
//!   be done about a fault of a code.
//! - [`CursorMarks`]: a text with marks, to find many positions in any order.
//! - [`push_source_line`]: the line of the source at a place.
//!
//! `specs/Shown` defines how a line of the source is shown, and `specs/Remedies` has the remedy of each code.
#![tactic(auto)]

mod code_page;
mod code_texts;
mod explanation;
mod further;
pub mod json_laws;
mod json_objects;
pub mod laws;
mod marks;
mod note;
mod notes;
mod place_ends;
mod remedy;
mod shown;
mod warning;

pub use crate::explanation::{Acceptance, Explanation};
pub use code_page::page;
pub use further::Further;
pub use json_objects::{accepted_json, fault_json, fault_words};
pub use marks::CursorMarks;
pub use note::Note;
pub use place_ends::end_of;
pub use remedy::remedy_of;
pub use shown::push_source_line;
pub use warning::{Warned, Warning};
