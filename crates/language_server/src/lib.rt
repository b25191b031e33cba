//! The language for the editors' server: the methods, their parameters, and what each of them finds (diagnostics, actions,
//! hints, hovers).
//!
//! - [`serve`]: serves an editor over a reader and a writer. [`Autolock`]: the language, as a server needs it. [`Method`]:
//!   the methods of requests about documents. `specs/Methods` defines what each of them finds, and `specs/Serving` what
//!   has been written when a server ends.
//! - `diagnostic_list`: the fault of a text, or its warnings (`specs/Diagnostics`).
//! - `actions`: the changes that the notes on its fault propose (`specs/Actions`, `specs/Changes`).
//! - `hint_list`: the locks that are acquired before statements (`specs/Takes`, `specs/Hints`). [`hint_laws`]: the hints
//!   agree with the lines of `check`.
//! - `hovers`: on a name its declaration, the lock class that belongs to the declaration, and the class's rank. Elsewhere
//!   a hover has the locks that are held at the statement, in each section that runs it (`specs/Ranks`, `specs/NameHovers`,
//!   `specs/Hovers`, `specs/Statements`, `specs/Held`, `specs/Hover`).
#![tactic(auto)]

mod action_laws;
mod actions;
mod changes;
mod class_lines;
mod diagnostic_list;
mod faulty;
mod finding;
mod held_paths;
pub mod hint_laws;
mod hint_list;
mod hover_object;
mod hovers;
mod language;
mod messages;
mod method;
mod name_hovers;
mod named_section;
mod parameters;
mod places;
mod section_lines;
mod section_takes;
mod serving;
mod statement_lines;
mod statements;
mod takes;
mod tokens;

pub use language::Autolock;
pub use method::Method;
pub use serving::serve;
