//! A language server without a language: frames, messages, and the life of a session.
//!
//! - [`Incoming`], [`Outgoing`]: the two ends of the connection to a client, which remember whether they failed.
//! - [`serve`]: the loop over any reader, writer and service, which reads a frame, answers its message, writes the
//!   answer, and repeats. [`End`]: why it ended. `specs/Loop` defines what it has written then: the whole answers to
//!   the messages in turn, and after a failed write a beginning of one more.
//! - [`Server`]: a session, which is such a service. [`Language`]: what it needs of the language whose texts it serves.
//!   [`Request`]: a request about an open text. [`deeds::Deed`]: what it does for a message. [`deeds::Phase`]: the
//!   phase of a session. `specs/Deeds` defines the deed of a message, and `specs/Sessions` what each deed writes and
//!   changes.
//! - `calls`, `parameters`, `replies`: the messages, which are JSON. `specs/Calls`, `specs/Parameters` and
//!   `specs/Replies` define them as JSON data.
//! - `frame_reading`, `frame_writing`: a frame is a header of lines, an empty line and a body. `specs/Frames` defines
//!   the bytes of a frame, and the bodies of an input. [`fields`]: the lines of a header.
#![tactic(auto)]

mod calls;
pub mod deeds;
mod documents;
pub mod fields;
mod frame_reading;
mod frame_writing;
mod incoming;
mod language;
mod outgoing;
mod parameters;
mod replies;
mod server;
mod serving;
mod writing;

pub use incoming::Incoming;
pub use language::{Language, Request};
pub use outgoing::Outgoing;
pub use server::Server;
pub use serving::{End, serve};
