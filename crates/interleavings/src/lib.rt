//! A scheduler: runs the threads of a compiled program step by step, finds the steps of a steps file's items, and makes
//! steps files at random or with rival threads.
//!
//! - [`world::World`]: the threads of a compiled program, and one step of one of them.
//! - [`world::run`]: the world after turns, which are lists of steps, and the claims about it.
//! - [`items::turns_of`]: the turns of a steps file's items. [`world::World::steps_until`] takes those of one item.
//! - [`status::ThreadStatus`]: the status of a thread. [`coming::Coming`]: what its next step does.
//! - [`drawn`]: random items for a program. [`rivals`]: items that make its threads wait for each other.
//!   [`steps_text`]: the steps file with some items. [`schedule_laws`]: such a file is read back.
//!
//! `specs/Threads` defines the model of such a world, `specs/Statuses` and `specs/Coming` what a thread can do next,
//! and `specs/Items` the steps of items. `specs/Schedules` defines the text of items, `specs/Drawn` random items, and
//! `specs/Rivals` those that make threads wait. `specs/Working` is for proofs; nobody has to believe it.
#![tactic(auto)]

pub mod coming;
mod drawing;
pub mod items;
pub mod schedule_laws;
mod state;
pub mod status;
mod stepping;
mod telling;
mod waiting;
pub mod world;

pub use drawing::drawn;
pub use telling::steps_text;
pub use waiting::rivals;
