//! A log: the entries that a borrower adds to a row.

ghost use Rattle.std.specs.Prelude.{◌≡◌, ◌<◌, ◌↔◌, ◌++◌, ◌∷◌, [], drop, length, IfOk, IsTrue, MatchBool};
ghost use Rattle.std.specs.List.{All};
ghost use Rattle.workers.specs.Logs.{NoneOf};

use crate::front::Front;
use crate::naming::Naming;
use crate::row::Row;
use history::kept::EntryRef;
use source::memory::NoMemory;
use std::alloc::Global;
use std::marker::Model;

/// The log on the row that `J` names, to which entries are added. Its value is its entries.
#[derive(Drop)]
pub struct Log<'r, J: Naming> {
    front: Front<'r, J>,
    // By thread: the length of the log with the thread's last entry; 0, where it has none.
    ends: Vec<usize>,
}

impl<'r, J: Naming> Model for Log<'r, J> {
    ghost use Rattle.std.specs.Prelude.{◌≡◌, List};
    ghost use Rattle.history.specs.Commits.{Commit};
    ghost use Rattle.workers.specs.Working.Rules.{AreEnds};

    ghost Value = { List Commit };

    ghost view = { λ l. l.front };

    ghost invariant = { λ l. AreEnds l.ends.items l.front };
}

impl<'r, J: Naming> Log<'r, J> {
    ghost use Rattle.std.specs.Prelude.{◌≡◌, []};

    /// A log without entries at the start of a row, for the entries of the threads below `threads`. The row is
    /// unchanged. Where the row has entries already, none can be added to this log.
    ///
    /// # Errors
    ///
    /// `NoMemory`: a growth was refused.
    pub fn of(row: &'r Row, alloc: Global, threads: u32) -> Result<Log<'r, J>, NoMemory>
        requires { row.now ≡ J.book }
        ensures { IfOk result (λ log. log ≡ []) }
    {
        let mut ends = Vec::with_capacity(alloc, threads as usize)?;
        for _ in 0..threads {
            ends.push(0)?;
        }
        Ok(Log {
            front: Front::new(row),
            ends,
        })
    }

    /// The present log, as a prefix that can be seen.
    pub fn front(&self) -> Front<'r, J>
        ensures { result ≡ self.now }
    {
        self.front.again()
    }

    /// Appends an entry, if it is of one of the log's threads, the log is not at its greatest length, and all entries
    /// of the row are the log's. Otherwise nothing changes. Returns whether it was appended.
    pub fn enter(&mut self, entry: &EntryRef<'_>) -> bool
        ensures { MatchBool result (self.new ≡ self.old ++ entry.now ∷ []) (self.new ≡ self.old) }
    {
        let thread = entry.thread() as usize;
        let count = self.front.len();
        if thread >= self.ends.len() || count == usize::MAX {
            return false;
        }
        if !self.front.add(entry) {
            return false;
        }
        self.ends[thread] = count + 1;
        true
    }

    /// Whether none of the entries from position `from` on is of `thread`.
    pub fn has_none_of(&self, thread: u32, from: usize) -> bool
        ensures { IsTrue result ↔ NoneOf thread (drop from self.now) }
    {
        match self.ends.get(thread as usize) {
            Some(end) => *end <= from,
            // All entries are of threads with a place in `ends`.
            None => true,
        }
    }

    /// Whether each entry is of a thread below `threads`.
    pub fn is_below(&self, threads: u32) -> bool
        ensures { IsTrue result → All (λ c. c.thread < threads) self.now }
    {
        self.ends.len() <= threads as usize
    }
}
