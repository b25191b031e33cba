//! The record of a call.

ghost use Rattle.std.specs.Prelude.{◌≡◌};
ghost use Rattle.report.specs.Entry.{entry_of, entry_said, entry_of_commit};

use core_lang::value::{Outcome, Value};
use history::kept::EntryRef;

/// A call, borrowed.
#[derive(Clone, Copy)]
pub struct CallRef<'a> {
    /// The thread, in order of declaration, from 0.
    pub thread: usize,
    /// The index of the call in its thread's script, from 0.
    pub step: usize,
    /// The length of the history when it began.
    pub begun: usize,
    /// The section, an index into the program's sections.
    pub section: usize,
    /// A value for each parameter.
    pub arguments: &'a [Value],
}

/// A call, how it ended and what it printed.
#[derive(Drop)]
pub struct Record<'a> {
    /// The call.
    pub call: CallRef<'a>,
    /// How the section ended.
    pub outcome: Outcome,
    /// The numbers that it printed, in order.
    pub prints: Vec<i64>,
}

/// A call, how it ended and what it printed, borrowed.
#[derive(Clone, Copy)]
pub struct RecordRef<'a> {
    /// The call.
    pub call: CallRef<'a>,
    /// How the section ended.
    pub outcome: Outcome,
    /// The numbers that it printed, in order.
    pub prints: &'a [i64],
}

impl Record<'_> {
    /// The record, borrowed.
    pub fn said(&self) -> RecordRef<'_>
        ensures { entry_said result ≡ entry_of self.now }
    {
        RecordRef {
            call: self.call,
            outcome: self.outcome,
            prints: &self.prints,
        }
    }
}

/// The record of a finished section.
pub fn said_of<'h>(entry: &EntryRef<'h>) -> RecordRef<'h>
    ensures { entry_said result ≡ entry_of_commit entry.now }
{
    let call = CallRef {
        thread: entry.thread() as usize,
        step: entry.step(),
        begun: entry.begun(),
        section: entry.section(),
        arguments: entry.arguments(),
    };
    RecordRef {
        call,
        outcome: entry.outcome(),
        prints: entry.prints(),
    }
}
