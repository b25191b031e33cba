//! The progress in a history.

ghost use Rattle.std.specs.Prelude.{◌≡◌, ◌∷◌, OnOk, IfSome};
ghost use Rattle.replay.specs.Working.Seats.{seat_in, IsWithSeat};

use meaning::heap::Heap;
use source::memory::NoMemory;
use std::collections::BTreeMap;

/// The progress of a thread.
#[derive(Clone, Copy, Debug)]
pub(crate) struct ThreadProgress {
    /// The number of its calls so far.
    pub called: usize,
    /// The least begin of its next call: one more than the position of its last call, or 0.
    pub least: usize,
}

/// The lines that may come.
#[derive(Clone, Copy, Debug)]
pub(crate) enum Stage {
    /// The prints of the last call that are left, then a call or `cells`.
    Calls,
    /// The lines of the cells from this number on, then `end`.
    Cells(usize),
    /// None.
    Ended,
}

/// The progress in a history.
#[derive(Drop)]
pub(crate) struct Progress {
    /// The values of all cells after the calls so far.
    pub heap: Heap,
    /// The progress of each thread that has called, by its number.
    pub seats: BTreeMap<usize, ThreadProgress>,
    /// The number of calls so far.
    pub position: usize,
    /// The prints of the last call.
    pub prints: Vec<i64>,
    /// The number of these prints whose lines have come.
    pub told: usize,
    /// The lines that may come.
    pub stage: Stage,
}

impl Progress {
    /// The progress of `thread`.
    pub(crate) fn seat(&self, thread: usize) -> ThreadProgress
        ensures { result ≡ seat_in self.now.seats thread }
    {
        match self.seats.get(&thread) {
            Some(seat) => *seat,
            None => ThreadProgress {
                called: 0,
                least: 0,
            },
        }
    }
}

/// Sets the progress of `thread`.
pub(crate) fn set_seat(
    seats: &mut BTreeMap<usize, ThreadProgress>,
    thread: usize,
    seat: ThreadProgress,
) -> Result<(), NoMemory>
    ensures { OnOk result (IsWithSeat thread seat seats.old seats.new) }
{
    seats.insert(thread, seat)?;
    Ok(())
}

/// The finding on a line.
#[derive(Clone, Copy, Debug)]
pub(crate) enum Finding {
    /// It may come.
    Came,
    /// It may not come.
    Other,
    /// It may not come: up to its end it is the line of a call, but the call ends otherwise.
    EndsOtherwise,
    /// Up to its end it is the line of a call that the turns don't settle.
    Beyond,
}
