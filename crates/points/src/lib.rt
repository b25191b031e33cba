//! Dataflow over the points of a section: which lock paths are used before and after each point, which are wanted, and
//! which are surely held.
//!
//! - [`points`]: the points of a section, and the sets of lock paths at each point.
//! - [`all_points`]: the points of all sections of a program.
//! - [`table::Points`]: the result: which point follows which, and which roots are bound later. Given the ranks of the
//!   classes, it gives the paths that are wanted at each point ([`Wanted`]), and those that are surely held there
//!   ([`Held`]).
//!
//! Over the graph of which point follows which, used before is a forward may analysis, used later a backward may
//! analysis, and surely held a forward must analysis.
//!
//! `specs/` defines when a path is used before a point and later (`Used`), the result (`Points`), and what is wanted
//! and surely held (`Wanted`). Its other files describe the passes of the code; nobody has to believe them.
#![tactic(auto)]

mod counting;
mod dataflow;
mod ends;
mod later;
mod pairs;
mod program;
mod ranking;
mod roots;
mod section;
pub mod table;
mod wanted;

pub use program::all_points;
pub use section::points;
pub use wanted::{Held, Wanted};
