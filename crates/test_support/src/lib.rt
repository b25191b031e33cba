//! What tests share: files of cases and how they are judged, and answers about a text, a compiled program, a manager's
//! calls, failing streams, and threads that a test holds where it wants.
//!
//! - [`paragraph`], [`asked`], [`repetition`], [`ending`], [`tally`], [`judging`]: files of texts and the expected answer
//!   for each. The program `test_cases` says how such a file is written.
//! - [`saying::said_of`], [`told::Told`]: the answer to a case's question about a text.
//! - [`texts`]: answers about a compiled text: where its cells lie, which calls it takes, what the steps of a thread are,
//!   and what a lock manager answers to the calls of a [`Scenario`].
//! - [`judge_read`], [`judge_written`], [`judge_answer`]: judge the answer of an engine over failing readers and writers.
//!   [`writer`]: a failing writer. [`room`]: room for all that is written for a text. [`LOST_UPDATE`], [`HISTORY`]: a
//!   program, and what is written for it.
//! - [`in_turn`], [`in_agreement`], [`over_one_row`], [`side_by_side`], [`by_threads`]: threads that run the sections of a
//!   text. A [`Scene`] has the text, the calls of the seats ([`SeatCall`]), and which thread is held at which mark
//!   ([`Hold`], [`Mark`]).
#![tactic(auto)]

mod analysing;
pub mod asked;
mod calls_taken;
pub mod ending;
mod engines;
pub mod judging;
mod layouts;
mod manager_calls;
pub mod paragraph;
mod reading;
pub mod repetition;
mod rereading;
pub mod saying;
mod scenarios;
mod scene;
mod stage;
mod stream_judging;
mod streams;
pub mod tally;
mod telling_tokens;
pub mod texts;
mod thread_runs;
mod threads_told;
pub mod told;
mod turns;
mod world_steps;

pub use scenarios::Scenario;
pub use scene::{Hold, Mark, Scene, SeatCall};
pub use stream_judging::{HISTORY, LOST_UPDATE, judge_answer, judge_read, judge_written};
pub use streams::{room, writer};
pub use thread_runs::{by_threads, in_agreement, in_turn, over_one_row, side_by_side};
