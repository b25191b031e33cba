//! The arrays that hold the lists of entries.

ghost use Rattle.std.specs.Prelude.{◌≡◌, ◌≤◌, ◌+◌, ◌++◌, [], length, vec_len, vec_capacity, OnOk, OnErr};
ghost use Rattle.history.specs.Working.Histories.{IsPromised, IsWithin, nothing_promised, with_promise};
ghost use Rattle.history.specs.Working.Arrays.{with_room};
ghost use Rattle.history.specs.Working.Lists.{part_behind, packed_commit, packed_behind, with_lists, IsPacked};

use crate::kept::{CellValue, EntryRef};
use core_lang::value::{Outcome, Value};
use source::limits::{PARAMETER_LIMIT, PRINT_LIMIT};
use source::memory::NoMemory;
use std::alloc::Global;
use std::marker::Model;

/// The range of a list in the array of its kind.
#[derive(Clone, Copy)]
pub struct Part {
    /// The index of its first item.
    pub begin: usize,
    /// The index after its last item.
    pub end: usize,
}

/// A finished section whose lists stand in the arrays.
#[derive(Clone, Copy)]
pub struct Packed {
    /// The thread that ran the section.
    pub thread: u32,
    /// The number of the call among the thread's calls.
    pub step: usize,
    /// The section, an index into the program's sections.
    pub section: usize,
    /// The arguments of the call.
    pub arguments: Part,
    /// The length of the history when the section began.
    pub begun: usize,
    /// Each cell that it read before it wrote it, with the value that it found.
    pub reads: Part,
    /// Each cell that it wrote, with the value that it wrote last.
    pub writes: Part,
    /// How the section ended.
    pub outcome: Outcome,
    /// The numbers that it printed.
    pub prints: Part,
}

/// The lists of entries, those of one kind one after another in one array, and the room that was made in them. Room
/// that a section left unused serves the next one.
#[derive(Drop)]
pub struct Lists {
    arguments: Vec<Value>,
    reads: Vec<CellValue>,
    writes: Vec<CellValue>,
    prints: Vec<i64>,
    // The number of entries for which room was made, and that of their reads together, which is also that of writes.
    entries: usize,
    cells: usize,
}

impl Model for Lists {
    ghost use Rattle.std.specs.Prelude.{◌≤◌, ◌+◌, ◌*◌, vec_len, vec_capacity};
    ghost use Rattle.history.specs.Working.Arrays.{ListsOf};

    ghost Value = { ListsOf };

    ghost view = { λ l. record {
      arguments = l.arguments.items;
      reads = l.reads.items;
      writes = l.writes.items;
      prints = l.prints.items;
      promised = record { entries = l.entries; cells = l.cells };
    } };

    ghost invariant = { λ l.
        (vec_len l.arguments + 8 * l.entries ≤ vec_capacity l.arguments)
        × (vec_len l.reads + l.cells ≤ vec_capacity l.reads)
        × (vec_len l.writes + l.cells ≤ vec_capacity l.writes)
        × (vec_len l.prints + 256 * l.entries ≤ vec_capacity l.prints) };
}

impl Lists {
    /// Arrays without lists.
    pub fn new(alloc: Global) -> Lists
        ensures { result
            ≡ record { arguments = []; reads = []; writes = []; prints = []; promised = nothing_promised } }
    {
        Lists {
            arguments: Vec::new(alloc),
            reads: Vec::new(alloc),
            writes: Vec::new(alloc),
            prints: Vec::new(alloc),
            entries: 0,
            cells: 0,
        }
    }

    /// The number of further entries for which room was made.
    pub fn promised(&self) -> usize
        ensures { result ≡ self.now.promised.entries }
    {
        self.entries
    }

    /// Makes room for the lists of one more entry, of a section that reads and writes at most `cells` cells.
    ///
    /// # Errors
    ///
    /// Out of memory. The lists are then unchanged.
    pub fn promise(&mut self, cells: usize) -> Result<(), NoMemory>
        ensures ok { OnOk result (self.new ≡ with_room self.old cells) }
        ensures err { OnErr result (self.new ≡ self.old) }
    {
        let Some(cells) = self.cells.checked_add(cells) else {
            return Err(NoMemory);
        };
        let entries = self.entries + 1;
        self.arguments.reserve(PARAMETER_LIMIT * entries)?;
        self.reads.reserve(cells)?;
        self.writes.reserve(cells)?;
        self.prints.reserve(PRINT_LIMIT * entries)?;
        self.entries = entries;
        self.cells = cells;
        Ok(())
    }

    /// Gives up the room that was made for one entry of `cells` cells.
    pub fn forgo(&mut self, cells: usize)
        requires { IsPromised self.old.promised cells }
        ensures { self.old ≡ with_room self.new cells }
    {
        self.entries -= 1;
        self.cells -= cells;
    }

    /// Appends the lists of `entry` into the room that was made for them, and returns where they stand.
    pub fn pack(&mut self, cells: usize, entry: &EntryRef<'_>) -> Packed
        requires promised { IsPromised self.old.promised cells }
        requires within { IsWithin cells entry.now }
        ensures packed { result ≡ packed_behind self.old entry.now }
        ensures lists { self.new ≡ with_lists self.old entry.now self.new.promised }
        ensures promised { self.old.promised ≡ with_promise self.new.promised cells }
    {
        self.entries -= 1;
        self.cells -= cells;
        Packed {
            thread: entry.thread(),
            step: entry.step(),
            section: entry.section(),
            arguments: append(&mut self.arguments, entry.arguments()),
            begun: entry.begun(),
            reads: append(&mut self.reads, entry.reads()),
            writes: append(&mut self.writes, entry.writes()),
            outcome: entry.outcome(),
            prints: append(&mut self.prints, entry.prints()),
        }
    }

    /// The entry whose lists stand at the places of `packed`.
    #[inline]
    pub fn kept(&self, packed: &Packed) -> EntryRef<'_>
        requires { IsPacked self.now packed.now }
        ensures { result ≡ packed_commit self.now packed.now }
    {
        EntryRef {
            thread: packed.thread,
            step: packed.step,
            section: packed.section,
            arguments: &self.arguments[packed.arguments.begin..packed.arguments.end],
            begun: packed.begun,
            reads: &self.reads[packed.reads.begin..packed.reads.end],
            writes: &self.writes[packed.writes.begin..packed.writes.end],
            outcome: packed.outcome,
            prints: &self.prints[packed.prints.begin..packed.prints.end],
        }
    }
}

// Appends `list` to `array`, which has room for it, and returns where it stands.
fn append<T: Copy>(array: &mut Vec<T>, list: &[T]) -> Part
    requires { vec_len array.old + length list.now ≤ vec_capacity array.old }
    ensures items { array.new.items ≡ array.old.items ++ list.now }
    ensures len { vec_len array.new ≡ vec_len array.old + length list.now }
    ensures capacity { vec_capacity array.old ≤ vec_capacity array.new }
    ensures part { result ≡ part_behind array.old.items list.now }
{
    let begin = array.len();
    match array.extend_from_slice(list) {
        Ok(()) => {}
        Err(_) => unreachable!(),
    }
    Part {
        begin,
        end: array.len(),
    }
}
