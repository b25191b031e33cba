//! The layout of a program.

ghost use Rattle.std.specs.Prelude.{◌≡◌, ◌≢◌, ◌↔◌, ◌<◌, ◌^◌, ◌-◌, length, slice_get, Some, None, OnOk, IfOk, IsTrue};
ghost use Rattle.std.specs.List.{Contains};
ghost use Rattle.layout.specs.LockCells as lock_cells;

use crate::numbering::Numbering;
use crate::places::CellPlace;
use core_lang::value::Value;
use locks::lock::Lock;
use source::memory::NoMemory;
use std::alloc::Global;
use std::marker::Model;

/// The layout of a program's cells and locks. Its value is the initial value and the lock of each cell, and the list of
/// the locks.
///
/// Cells, classes and objects go by their numbers in [`core_lang::typed::Typed`].
#[derive(Drop)]
pub struct Layout {
    numbering: Numbering,
    cells: Vec<CellPlace>,
    // For each lock, the number of cells that it protects.
    sizes: Vec<u32>,
}

impl Model for Layout {
    ghost use Rattle.std.specs.Prelude.{map};
    ghost use Rattle.layout.specs.Layouts.{LayoutOf};

    ghost Value = { LayoutOf };

    ghost use Rattle.layout.specs.Working.Numbers.{openings_in, locks_in, ArePlaced};

    ghost view = { λ l. record {
      opening = openings_in l.cells.items;
      cell_locks = locks_in l.cells.items;
      locks = l.numbering.locks.items;
    } };

    ghost invariant = { λ l. ArePlaced l.numbering.locks.items l.cells.items l.sizes.items };
}

impl Layout {
    ghost use Rattle.layout.specs.Working.Growth.{without_cells, with_cell};

    // The layout with the locks of a program, without cells.
    pub(crate) fn without_cells(
        alloc: Global,
        numbering: Numbering,
        cells: usize,
    ) -> Result<Layout, NoMemory>
        ensures { IfOk result (λ layout. layout ≡ without_cells numbering) }
    {
        let sizes = vec![in alloc; 0u32; numbering.locks.len()]?;
        let cells = Vec::with_capacity(alloc, cells)?;
        Ok(Layout {
            numbering,
            cells,
            sizes,
        })
    }

    // Adds the next cell, after the cells that its lock has so far.
    pub(crate) fn add(&mut self, opening: Value, lock: Lock) -> Result<(), NoMemory>
        requires lock { Contains self.old.locks lock }
        requires few { length self.old.cell_locks < 2 ^ 32 - 1 }
        ensures { OnOk result (self.new ≡ with_cell self.old opening lock) }
    {
        let number = self.numbering.number_of(lock);
        let offset = self.sizes[number];
        self.cells.push(CellPlace {
            opening,
            lock,
            offset,
        })?;
        self.sizes[number] = offset + 1;
        Ok(())
    }

    /// The lock that protects `cell`.
    #[inline]
    pub fn lock_of(&self, cell: usize) -> Lock
        requires { cell < length self.now.cell_locks }
        ensures lock { slice_get self.now.cell_locks cell ≡ Some result }
        ensures listed { Contains self.now.locks result }
    {
        self.cells[cell].lock
    }

    /// The value of `cell` before any section has run.
    #[inline]
    pub fn opening(&self, cell: usize) -> Value
        requires { cell < length self.now.opening }
        ensures { slice_get self.now.opening cell ≡ Some result }
    {
        self.cells[cell].opening
    }

    /// The lock that protects `cell`, and the cell's index among the cells of this lock. The cells are counted from 0,
    /// in order of their numbers.
    #[inline]
    pub fn slot_of(&self, cell: usize) -> (Lock, u32)
        requires { cell < length self.now.cell_locks }
        ensures slot { lock_cells.IsSlot self.now.cell_locks cell result.0 result.1 }
        ensures listed { Contains self.now.locks result.0 }
    {
        let place = self.cells[cell];
        (place.lock, place.offset)
    }

    /// The number of cells that `lock` protects.
    #[inline]
    pub fn cells_of(&self, lock: Lock) -> u32
        requires { Contains self.now.locks lock }
        ensures { result ≡ length (lock_cells.cells_of self.now.cell_locks lock) }
    {
        self.sizes[self.numbering.number_of(lock)]
    }

    /// The number of `lock`: its index in the list of locks.
    #[inline]
    pub fn lock_number(&self, lock: Lock) -> usize
        requires { Contains self.now.locks lock }
        ensures { slice_get self.now.locks result ≡ Some lock }
    {
        self.numbering.number_of(lock)
    }

    /// Whether `lock` is one of the locks.
    #[inline]
    pub fn has_lock(&self, lock: Lock) -> bool
        ensures { IsTrue result ↔ Contains self.now.locks lock }
    {
        self.numbering.has(lock)
    }

    /// The locks, each at its number.
    #[inline]
    pub fn locks(&self) -> &[Lock]
        ensures { result.now ≡ self.now.locks }
    {
        self.numbering.locks.as_slice()
    }

    /// The number of cells.
    #[inline]
    pub fn cells_count(&self) -> usize
        ensures { result ≡ length self.now.cell_locks }
    {
        self.cells.len()
    }

    /// The number of locks.
    #[inline]
    pub fn locks_count(&self) -> usize
        ensures { result ≡ length self.now.locks }
    {
        self.numbering.locks.len()
    }
}
