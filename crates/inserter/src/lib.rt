//! Lock placement: which locks a section acquires before each of its points, and laws of every run that does so.
//!
//! - [`place`]: the lists of lock paths before the points of all sections.
//! - [`place_by`]: the same, given the points of all sections.
//! - [`laws`]: each lock that a run asks for comes after all that it holds, each access finds the locks of its path
//!   held, a run holds at most as many locks as the paths of its section can name, and it holds a class that it takes
//!   whole from the first point that wants it to its end.
//! - [`placed::Placed`]: the lists.
//!
//! `specs/` defines the list before a point (`Placement`), the run of a section reduced to its locks (`Runs`), and the
//! claims of the laws (`Laws`).
#![tactic(auto)]

mod keys;
pub mod laws;
pub mod placed;
mod program_lists;
mod section_lists;

pub use program_lists::{place, place_by};
