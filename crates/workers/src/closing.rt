//! Whether what seats have seen are a history's entries, up to the last one of each seat's thread, and these are all
//! entries of the row.

ghost use Rattle.std.specs.Prelude.{◌⊎◌, IsTrue};
ghost use Rattle.std.specs.List.{All};
ghost use Rattle.workers.specs.Answers.{HasSeat, IsSeated};
ghost use Rattle.workers.specs.Working.Within.{IsIn};
ghost use Rattle.workers.specs.Logs.{NoneOf};

use crate::log::Log;
use crate::naming::Naming;
use crate::seat::Seat;

/// Whether what each seat has seen is a prefix of the entries, no later entry is of the seat's thread, each entry's
/// thread has a seat, and the row has no other entries.
pub fn fit<J: Naming>(seats: &[Seat<'_, '_, J>], log: &Log<'_, J>) -> bool
    ensures seen { IsTrue result → All (IsIn log.now) seats.now }
    ensures seated { IsTrue result → All (IsSeated seats.now) log.now }
{
    let entries = log.front();
    // (a look that no clause mentions: another log on the row may have got further in the meantime)
    if entries.whole().len() != entries.len() {
        return false;
    }
    all_in(seats, log) && are_seated(seats, log)
}

// Whether what each seat has seen is a prefix of the entries, and no later entry is of the seat's thread.
fn all_in<J: Naming>(seats: &[Seat<'_, '_, J>], log: &Log<'_, J>) -> bool
    ensures { IsTrue result → All (IsIn log.now) seats.now }
{
    seats.iter().all(|s| is_in(s, log))
}

fn is_in<J: Naming>(seat: &Seat<'_, '_, J>, log: &Log<'_, J>) -> bool
    ensures { IsTrue result → IsIn log.now seat.now }
{
    if !seat.seen.begins(&log.front()) {
        return false;
    }
    log.has_none_of(seat.thread(), seat.seen.len())
}

// Whether each entry's thread has a seat.
fn are_seated<J: Naming>(seats: &[Seat<'_, '_, J>], log: &Log<'_, J>) -> bool
    ensures { IsTrue result → All (IsSeated seats.now) log.now }
{
    for thread in 0..64 {
        if !is_settled(seats, log, thread) {
            return false;
        }
    }
    log.is_below(64)
}

// Whether `thread` has no entry, or has a seat.
fn is_settled<J: Naming>(seats: &[Seat<'_, '_, J>], log: &Log<'_, J>, thread: u32) -> bool
    ensures { IsTrue result → NoneOf thread log.now ⊎ HasSeat seats.now thread }
{
    if log.has_none_of(thread, 0) {
        return true;
    }
    is_seated(seats, thread)
}

// Whether `thread` has a seat.
fn is_seated<J: Naming>(seats: &[Seat<'_, '_, J>], thread: u32) -> bool
    ensures { IsTrue result → HasSeat seats.now thread }
{
    for s in seats {
        if s.thread() == thread {
            return true;
        }
    }
    false
}
