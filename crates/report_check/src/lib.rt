//! The texts that the commands `check` and `order` write.
//!
//! - [`Check`]: the ranks of lock classes, and where sections acquire which locks, also with the helpers and the lines
//!   of the source. [`push_ranked`]: the class of a rank.
//! - [`Order`]: the order of the lock classes, as a graph in the language DOT. [`CyclicOrder`]: the same for a program
//!   that is refused, since its classes have a cycle. [`points_of_sections`]: the points of all sections.
//!
//! `specs/Check.antt`, `Sources.antt` and `Order.antt` define them byte for byte. `specs/Working/Values.antt` and
//! `OrderValues.antt` state the same of values of the code, `Positions.antt` where bytes are, and `HelperIndexes.antt`
//! which helper has a place; nobody has to believe these.
#![tactic(auto)]

mod check;
mod cyclic;
mod edges;
mod order;
mod positions;
mod section_points;
mod section_text;
mod sources;

pub use check::{Check, push_ranked};
pub use cyclic::CyclicOrder;
pub use order::Order;
pub use section_points::points_of_sections;
