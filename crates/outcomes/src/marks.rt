//! Marks of the threads that touch cells and arrays.

ghost use Rattle.std.specs.Prelude.{◌≡◌, ◌<◌, true, ℕ, length, IfOk};
ghost use Rattle.bit_set.specs.Working.Sets.{has_number};
ghost use Rattle.outcomes.specs.Working.Marking.{has_mark, mark_at, HaveMore};

use bit_set::set::BitSet;
use core_lang::typed::CellOwner;
use source::memory::NoMemory;
use std::alloc::Global;

/// The threads that touch each cell.
#[derive(Drop)]
pub struct TouchMarks {
    /// By cell: the threads that touch it.
    pub cells: Vec<BitSet>,
    /// By array: the threads that touch elements of it which are not known.
    pub arrays: Vec<BitSet>,
}

impl TouchMarks {
    /// No marks, for the given numbers of cells and arrays. The only error is `NoMemory`.
    pub fn new(alloc: Global, cells: usize, arrays: usize) -> Result<TouchMarks, NoMemory>
        ensures { IfOk result (λ marks. length marks.cells.items ≡ cells) }
    {
        Ok(TouchMarks {
            cells: vec![in alloc; BitSet::new(); cells]?,
            arrays: vec![in alloc; BitSet::new(); arrays]?,
        })
    }

    /// The threads that touch `cell`, directly or as an unknown element of its array.
    pub fn threads_at(&self, cell: usize, owner: CellOwner) -> BitSet
        ensures { (thread : ℕ) → has_number result thread ≡ mark_at self.now cell owner thread }
    {
        let by_itself = at(&self.cells, cell);
        match owner {
            CellOwner::Element { array, .. } => by_itself.union(at(&self.arrays, array)),
            _ => by_itself,
        }
    }
}

// The threads that marked `place`.
fn at(rows: &[BitSet], place: usize) -> BitSet
    ensures { (thread : ℕ) → has_number result thread ≡ has_mark rows.now place thread }
{
    match rows.get(place) {
        Some(threads) => *threads,
        None => BitSet::new(),
    }
}

/// Marks `place` for `thread`, if the place exists; returns whether it does.
pub fn mark(rows: &mut Vec<BitSet>, place: usize, thread: usize) -> bool
    requires { thread < 128 }
    ensures more { HaveMore rows.old.items rows.new.items }
    ensures marked { result ≡ true → has_mark rows.new.items place thread ≡ true }
{
    if place < rows.len() {
        rows[place] = rows[place].with(thread);
        true
    } else {
        false
    }
}
