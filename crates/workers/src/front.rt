//! The prefixes of a row that threads have seen.

ghost use Rattle.std.specs.Prelude.{◌≡◌, ◌<◌, ◌+◌, ◌^◌, ◌↔◌, ◌++◌, ◌∷◌, [], length, IsTrue, MatchBool};
ghost use Rattle.workers.specs.Logs.{Begins};

use crate::naming::Naming;
use crate::row::Row;
use crate::rule::{Add, Entered, Law, Look, Nothing};
use history::kept::EntryRef;
use logbook::{Offer, Seen};
use std::marker::{Model, PhantomData};

/// A prefix, which was seen, of the row that `J` names. Its value is its entries.
#[derive(Drop)]
pub struct Front<'r, J: Naming> {
    row: &'r Row,
    count: usize,
    seen: Seen<Entered, u64, Law>,
    of: PhantomData<J>,
}

impl<'r, J: Naming> Model for Front<'r, J> {
    ghost use Rattle.std.specs.Prelude.{◌≡◌, List, length};
    ghost use Rattle.history.specs.Commits.{Commit};

    ghost Value = { List Commit };

    ghost view = { λ f. f.seen.log };

    ghost invariant = { λ f. (f.count ≡ length f.seen.log) × (f.seen.book ≡ J.book) × (f.row.now ≡ J.book) };
}

impl<'r, J: Naming> Front<'r, J> {
    ghost use Rattle.std.specs.Prelude.{◌≡◌, []};

    // The empty prefix of a row.
    pub(crate) fn new(row: &'r Row) -> Front<'r, J>
        requires { row.now ≡ J.book }
        ensures { result ≡ [] }
    {
        Front {
            row,
            count: 0,
            seen: row.nothing(),
            of: PhantomData,
        }
    }

    /// The number of its entries.
    pub fn len(&self) -> usize
        ensures { result ≡ length self.now }
    {
        self.count
    }

    /// A copy.
    pub fn again(&self) -> Front<'r, J>
        ensures { result ≡ self.now }
    {
        Front {
            row: self.row,
            count: self.count,
            seen: self.seen.again(),
            of: PhantomData,
        }
    }

    /// Two fronts of one row are prefixes of each other; returns whether `self` is a prefix of `other`.
    pub fn begins(&self, other: &Front<'r, J>) -> bool
        ensures one { MatchBool result (Begins self.now other.now) (Begins other.now self.now) }
        ensures exact { IsTrue result ↔ Begins self.now other.now }
    {
        let mut both = self.seen.again();
        both.learn(&other.seen);
        self.count <= other.count
    }

    /// The present row as a whole.
    pub fn whole(&self) -> Front<'r, J>
        ensures { Begins self.now result }
    {
        let mut seen = self.seen.again();
        let mut offer: Offer<Entered, u64, Law, Nothing> = seen.plain::<Nothing, (), Look>(&());
        let count = self.row.word().load::<Look, Nothing>(&mut seen, &mut offer);
        Front {
            row: self.row,
            count: count as usize,
            seen,
            of: PhantomData,
        }
    }

    // Appends an entry to the row, and sees it. Returns false, and changes nothing, where the row has more entries than
    // were seen.
    pub(crate) fn add(&mut self, entry: &EntryRef<'_>) -> bool
        requires { length self.old + 1 < 2 ^ 64 }
        ensures { MatchBool result (self.new ≡ self.old ++ entry.now ∷ []) (self.new ≡ self.old) }
    {
        let mut seen = self.seen.again();
        let mut offer: Offer<Entered, u64, Law, Nothing> = seen.plain::<Nothing, EntryRef<'_>, Add>(
            entry,
        );
        let mut pen = seen.no_pen();
        let count = self.count as u64;
        let found = self
            .row
            .word()
            .compare_exchange::<Add, Nothing>(count, count + 1, &mut seen, &mut offer, &mut pen);
        if found != count {
            return false;
        }
        self.seen = seen;
        self.count += 1;
        true
    }
}
