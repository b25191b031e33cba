//! The scenes that threads play.

use core_lang::value::Value;

/// A text, the calls of its seats, and the threads that are held.
#[derive(Clone, Copy)]
pub struct Scene<'a> {
    /// The text of a program.
    pub text: &'a str,
    /// The calls, by seat.
    pub calls: &'a [SeatCall<'a>],
    /// The holds, in the order in which they hold a thread that comes to the marks of several.
    pub holds: &'a [Hold],
}

/// A call of a seat.
#[derive(Clone, Copy)]
pub struct SeatCall<'a> {
    /// The number of the section.
    pub section: usize,
    /// The arguments.
    pub arguments: &'a [Value],
}

/// The progress of a thread with its call.
#[derive(Clone, Copy, PartialEq, Eq)]
pub enum Mark {
    /// It is about to call.
    Ready,
    /// Its call has passed this step.
    Passed(u32),
    /// Its call is over.
    Over,
}

impl Mark {
    // The number of the mark. A thread comes to its marks in the order of their numbers.
    pub(crate) fn number(self) -> u32 {
        match self {
            Mark::Ready => 0,
            Mark::Passed(step) => step.saturating_add(1),
            Mark::Over => u32::MAX,
        }
    }
}

/// Holds a thread that has come to a mark until another thread has come to one, and then for a number of turns more.
#[derive(Clone, Copy)]
pub struct Hold {
    /// The thread that is held.
    pub thread: u32,
    /// The mark at which it is held.
    pub at: Mark,
    /// The thread for which it waits.
    pub other: u32,
    /// The mark to which that thread has to come.
    pub until: Mark,
    /// The number of turns for which it is held after that.
    pub turns: u32,
}
