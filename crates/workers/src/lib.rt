//! The concurrent runtime: threads that call the sections of a program from seats, with the lock manager under one Mutex
//! and one commit history, which is closed at the end.
//!
//! - [`shared::Shared::call`]: the answer of a call is that of a legal history after which the call, run whole, ends and
//!   prints as the answer says.
//! - [`shared::Shared::close`]: one history has every answer of every seat at its position, and nothing else.
//! - [`shared::Shared::agree`]: what two seats have seen are prefixes of each other, and the answers to two callers can't
//!   contradict each other.
//! - [`threads::run_threads`]: one thread for each script of a program. The calls of its script are in the history, in
//!   order and each once.
//! - [`seat::Seat`]: a thread's place at a [`shared::Shared`], with the answers to its calls and what it has seen.
//! - [`closed::Closed`]: a closed history.
//! - [`guarded::Guarded`]: the state under the Mutex. Whenever the Mutex is free, no threads wait in a cycle.
//! - [`gate::Gate`]: observes, while no lock is held, the progress of each call. [`delaying::DelayingGate`]: delays
//!   threads for moments that are drawn from a seed, which makes the calls of short scripts interleave.
//! - [`row::Row`], [`front::Front`], [`log::Log`], [`naming::Naming`]: what threads have seen of one row of entries,
//!   which only grows. At run time there are a row's length, the length of what each thread has seen, and the length of
//!   the row with each thread's last entry; the entries themselves are known to contracts alone, by `logbook`'s tokens.
//!
//! `specs/Seats` defines a seat as data, `specs/Answers` what answers and a closed history say, `specs/Seen` what a
//! call adds to what its seat has seen, and `specs/Logs` when a log is one that the program can make. `specs/Working`
//! mirrors the code: nobody has to believe it.
//!
//! `specs/Working` begins with how this is proved.
#![tactic(auto)]

mod answer_room;
mod asking;
pub mod closed;
mod closing;
pub mod delaying;
pub mod front;
pub mod gate;
pub mod guarded;
mod lock_ends;
pub mod log;
pub mod naming;
mod parking;
mod print_rooms;
pub mod row;
mod rule;
pub mod seat;
mod seating;
pub mod shared;
pub mod threads;
