//! The entries of a history.

ghost use Rattle.std.specs.Prelude.{◌≡◌, ◌<◌, ◌+◌, [], ◌∷◌, ◌++◌, length, slice_get, Some, OnOk, OnErr};
ghost use Rattle.history.specs.Working.Histories.{IsPromised, IsWithin, nothing_promised, with_promise};

use crate::kept::EntryRef;
use crate::lists::{Lists, Packed};
use source::memory::NoMemory;
use std::alloc::Global;
use std::marker::Model;

/// The entries, in the order in which their sections ended, with the room for further ones. Room for an entry is made
/// before its section begins, so that entering it takes no memory and can't fail.
///
/// The lists of all entries of one kind stand in one array, which grows by doubling: an entry takes the length of its
/// lists, and most entries allocate nothing.
#[derive(Drop)]
pub struct History {
    entries: Vec<Packed>,
    lists: Lists,
}

impl Model for History {
    ghost use Rattle.std.specs.Prelude.{◌+◌, ◌≤◌, vec_len, vec_capacity};
    ghost use Rattle.std.specs.List.{All};
    ghost use Rattle.history.specs.Working.Histories.{HistoryOf};

    ghost Value = { HistoryOf };

    ghost use Rattle.history.specs.Working.Lists.{commits_in, IsPacked};

    ghost view = { λ h. record { commits = commits_in h.lists h.entries.items; promised = h.lists.promised } };

    ghost invariant = { λ h.
        All (IsPacked h.lists) h.entries.items
        × (vec_len h.entries + h.lists.promised.entries ≤ vec_capacity h.entries) };
}

impl History {
    /// A history without entries.
    pub fn new(alloc: Global) -> History
        ensures { result ≡ record { commits = []; promised = nothing_promised } }
    {
        History {
            entries: Vec::new(alloc),
            lists: Lists::new(alloc),
        }
    }

    /// Makes room for one more entry, of a section that reads and writes at most `cells` cells.
    ///
    /// # Errors
    ///
    /// Out of memory. The history is then unchanged.
    pub fn promise(&mut self, cells: usize) -> Result<(), NoMemory>
        ensures ok { OnOk result (self.new ≡ record self.old { promised = with_promise self.old.promised cells }) }
        ensures err { OnErr result (self.new ≡ self.old) }
    {
        self.entries.reserve(self.lists.promised() + 1)?;
        self.lists.promise(cells)
    }

    /// Appends a copy of a finished section, into room that was made for `cells` cells.
    pub fn enter(&mut self, cells: usize, entry: &EntryRef<'_>)
        requires promised { IsPromised self.old.promised cells }
        requires within { IsWithin cells entry.now }
        ensures promised { self.old.promised ≡ with_promise self.new.promised cells }
        ensures commits { self.new.commits ≡ self.old.commits ++ entry.now ∷ [] }
    {
        let packed = self.lists.pack(cells, entry);
        match self.entries.push(packed) {
            Ok(()) => {}
            Err(_) => unreachable!(),
        }
    }

    /// Gives up the room that was made for one entry of `cells` cells.
    pub fn forgo(&mut self, cells: usize)
        requires { IsPromised self.old.promised cells }
        ensures promised { self.old.promised ≡ with_promise self.new.promised cells }
        ensures commits { self.new.commits ≡ self.old.commits }
    {
        self.lists.forgo(cells);
    }

    /// The number of entries.
    #[inline]
    pub fn len(&self) -> usize
        ensures { result ≡ length self.now.commits }
    {
        self.entries.len()
    }

    /// The entry at `position`, counted from 0.
    #[inline]
    pub fn get(&self, position: usize) -> EntryRef<'_>
        requires { position < length self.now.commits }
        ensures { slice_get self.now.commits position ≡ Some result }
    {
        self.lists.kept(&self.entries[position])
    }
}
