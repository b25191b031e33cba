//! The engines of the commands, over any readers and writers.
//!
//! An engine reads everything, computes the status and both texts as a function of the bytes, then writes each text once.
//! Where memory is refused, nothing of the text has been written. `specs/Engines.antt` says what each engine does with its
//! files and outputs, whatever it answers; `specs/Requests.antt` says what is answered to each request, by the file of
//! `specs` that is named below.
//!
//! - [`serve`]: answers each request that reads only the program's file. [`serve_beside`]: answers each that reads a second
//!   file.
//! - [`serve_report`]: reports on an accepted program, without threads. A report is one of these: the order in which the
//!   program acquires its locks, with the locks before each statement, also as [`check`] (`Checks`), the instructions of
//!   each section, also as [`listing`] (`Listings`), the sections in C (`Emissions`), all calls one after another, also as
//!   [`serial`] (`Serial`), the ends of the cells, over the orders of the calls (`Outcomes`), or a steps file (`Schedules`).
//! - [`order_graph`]: which lock class has to come before which, as a graph (`OrderGraphs`).
//! - [`explain`]: the fault of a program, with its place (`Explanations`). [`explain_code`]: the meaning of a code (`Pages`).
//! - [`format`]: the text in its layout (`Formats`).
//! - [`lsp`]: answers an editor's messages in turn (`Editors`).
//! - [`run`]: a history of the program's scripts, each run by a thread of its own, or how a number of such runs differ
//!   (`ThreadRuns`).
//! - [`simulate`]: the world after the steps of a steps file (`Simulations`), or the steps one after another, and the world
//!   after them (`Traces`). [`replay`]: the verdict on a recorded history, and why it differs (`Replays`).
//! - [`Status`]: how a command ended, which is the exit status.
//! - [`SourceText`]: a file to read. [`ReadError`]: why it was not read. [`Streams`]: the two outputs, each a [`Sink`].
//!
//! How it is proved: an engine has three layers. One reads all files (`Streams::read`). One is a pure function from
//! bytes and a request to a status and two texts (`report_answer`, `explain_answer`, `beside_answer`; `threads_answer`
//! is not pure). One writes the answer (`Streams::give`), piece by piece, since its first text is a rope. One lemma
//! over any answers and files says that an answer that was written is what `Serves` asks (`proofs/ServingLemmas`), and
//! another says this of the engines of one file, whose text may be cut (`proofs/AloneLemmas`).
#![tactic(auto)]

mod answer;
mod code_pages;
mod editors;
mod engine;
mod explaining;
mod exploring;
mod formats;
mod order_calls;
mod ordering;
mod replaying;
mod running;
mod schedule;
mod scheduling;
mod simulating;
mod sink;
mod source_text;
mod status;
mod streams;
mod threads_run;
mod tracing;
mod why;

pub use code_pages::explain_code;
pub use editors::lsp;
pub use engine::{
    check, listing, replay, run, serial, serve, serve_beside, serve_report, simulate,
};
pub use explaining::explain;
pub use formats::format;
pub use ordering::order_graph;
pub use sink::Sink;
pub use source_text::{ReadError, SourceText};
pub use status::Status;
pub use streams::Streams;
