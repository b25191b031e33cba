//! The values that the entries leave in each cell.

ghost use Rattle.std.specs.Prelude.{◌≡◌, ◌↔◌, ◌<◌, [], length, map, slice_get, Some, IfOk, IsTrue};
ghost use Rattle.std.specs.List.{Contains, All};
ghost use Rattle.locks.specs.declared.lock.Lock.{Lock as LockOf};
ghost use Rattle.code.specs.Memory.{overwritten, Agrees};
ghost use Rattle.layout.specs.LockCells.{cells_of};
ghost use Rattle.moved_cells.specs.Working.Grants.{IsWhole, cells_in, values_on, locks_of};
ghost use Rattle.lock_manager.specs.declared.places.LockPlace.TheVariants as place;
ghost use Rattle.lock_manager.specs.Working.Managers.{IsLayout, number_from, given_back};
ghost use Rattle.lock_manager.specs.Working.Calls.{AreOf};
ghost use Rattle.lock_manager.specs.Working.Ties.{all_restored, AreNow};
ghost use Rattle.lock_manager.specs.Working.Committed.{at_opening, with_writes, lock_values, restored, AreOfCells};

use crate::fitting::{are_in_step, are_whole};
use crate::opening::{members, opening_values};
use crate::places::LockPlace;
use crate::values::{agrees, cells_with, have, reset, write_all};
use crate::writes::Writes;
use core_lang::value::Value;
use history::kept::CellValue;
use layout::table::Layout;
use locks::lock::Lock;
use moved_cells::cells::Cells;
use moved_cells::grant::Grant;
use source::memory::NoMemory;
use std::alloc::Global;
use std::marker::Model;

/// The layout of a program, and the value that the entries leave in each cell.
#[derive(Drop)]
pub struct Committed<'p> {
    layout: &'p Layout,
    // The cells of each lock, by the lock's number.
    members: Vec<Vec<usize>>,
    // By cell. A section that is given up restores from here what it may have changed.
    values: Vec<Value>,
}

impl<'p> Model for Committed<'p> {
    ghost use Rattle.lock_manager.specs.Working.Committed.{CommittedOf, IsComplete, rows};

    ghost Value = { CommittedOf };

    ghost view = { λ c. record { layout = c.layout.now; values = c.values.items } };

    ghost invariant = { λ c. IsComplete c.layout.now (rows c.members.items) c.values.items };
}

impl<'p> Committed<'p> {
    /// The state without entries: each cell has its initial value.
    ///
    /// # Errors
    ///
    /// Out of memory.
    pub fn open(alloc: Global, layout: &'p Layout) -> Result<Committed<'p>, NoMemory>
        requires { IsLayout layout.now }
        ensures { IfOk result (λ committed. committed ≡ at_opening layout.now) }
    {
        let members = members(alloc, layout)?;
        let values = opening_values(alloc, layout)?;
        Ok(Committed {
            layout,
            members,
            values,
        })
    }

    /// The places of all locks while their cells are with the manager.
    ///
    /// # Errors
    ///
    /// Out of memory.
    pub fn free_places(&self, alloc: Global) -> Result<Vec<LockPlace>, NoMemory>
        ensures { IfOk result
            (λ places. places.items ≡ map (λ l. place.Free (lock_values self.now l)) self.now.layout.locks) }
    {
        let mut places = Vec::with_capacity(alloc, self.members.len())?;
        for row in &self.members {
            places.push(LockPlace::Free(cells_with(alloc, row, &self.values)?))?;
        }
        Ok(places)
    }

    /// The number of `lock`.
    pub fn number_of(&self, lock: Lock) -> usize
        requires { Contains self.now.layout.locks lock }
        ensures at { slice_get self.now.layout.locks result ≡ Some lock }
        ensures found { number_from 0 self.now.layout.locks lock ≡ Some result }
    {
        self.layout.lock_number(lock)
    }

    /// Whether `lock` is a lock of the program.
    pub fn has_lock(&self, lock: Lock) -> bool
        ensures { IsTrue result ↔ Contains self.now.layout.locks lock }
    {
        self.layout.has_lock(lock)
    }

    // The cells of `lock`.
    fn row(&self, lock: Lock) -> &[usize]
        requires { Contains self.now.layout.locks lock }
        ensures cells { result.now ≡ cells_of self.now.layout.cell_locks lock }
        ensures within { All (λ cell. cell < length self.now.values) result.now }
    {
        self.members[self.number_of(lock)].as_slice()
    }

    /// The lock that protects `cell`, if the cell exists.
    pub fn lock_of(&self, cell: usize) -> Option<Lock>
        ensures lock { result ≡ slice_get self.now.layout.cell_locks cell }
        ensures listed { (lock : LockOf) → result ≡ Some lock → Contains self.now.layout.locks lock }
    {
        if cell < self.layout.cells_count() {
            Some(self.layout.lock_of(cell))
        } else {
            None
        }
    }

    /// Applies `writes`.
    pub fn overwrite(&mut self, writes: &[CellValue])
        requires { AreOfCells self.old writes.now }
        ensures { self.new ≡ with_writes self.old writes.now }
    {
        write_all(&mut self.values, writes);
    }

    /// Puts the cells of `grants` back to their places, and empties the list.
    pub fn put_back(&self, places: &mut Vec<LockPlace>, grants: &mut Vec<Grant>)
        requires count { length places.old.items ≡ length self.now.layout.locks }
        requires listed { All (λ g. Contains self.now.layout.locks g.lock) grants.old.items }
        ensures back { places.new.items ≡ given_back self.now.layout.locks places.old.items grants.old.items }
        ensures none { grants.new.items ≡ [] }
    {
        while let Some(grant) = grants.pop() {
            let (lock, cells) = grant.into_parts();
            let number = self.number_of(lock);
            places[number] = LockPlace::Free(cells);
        }
    }

    /// Puts the cells of `grants` back with the values that the entries leave in them, and empties the list.
    pub fn restore(&self, places: &mut Vec<LockPlace>, grants: &mut Vec<Grant>)
        requires count { length places.old.items ≡ length self.now.layout.locks }
        requires listed { All (λ g. Contains self.now.layout.locks g.lock) grants.old.items }
        requires whole { All (IsWhole self.now.layout.cell_locks) grants.old.items }
        ensures back { places.new.items ≡ all_restored self.now places.old.items grants.old.items }
        ensures none { grants.new.items ≡ [] }
    {
        while let Some(grant) = grants.pop() {
            let (lock, mut cells) = grant.into_parts();
            self.reset(lock, &mut cells);
            let number = self.number_of(lock);
            places[number] = LockPlace::Free(cells);
        }
    }

    // Sets the cells of `lock` to the values that the entries leave in them.
    fn reset(&self, lock: Lock, cells: &mut Cells)
        requires listed { Contains self.now.layout.locks lock }
        requires count { length cells.old ≡ length (cells_of self.now.layout.cell_locks lock) }
        ensures { cells.new ≡ lock_values self.now lock }
    {
        let count = self.layout.cells_of(lock);
        reset(cells, self.row(lock), &self.values, count);
    }

    /// The value that the entries leave in `cell`.
    pub fn value(&self, cell: usize) -> Value
        requires { cell < length self.now.values }
        ensures { slice_get self.now.values cell ≡ Some result }
    {
        self.values[cell]
    }

    /// Whether each cell in `reads` has the value that was read.
    pub fn agrees(&self, reads: &[CellValue]) -> bool
        ensures { IsTrue result ↔ Agrees self.now.values reads.now }
    {
        agrees(&self.values, reads)
    }

    /// Tests that the grants are of the locks in `held`, in the same order, and that each has all cells of its lock.
    pub fn are_in_step(&self, held: &[Lock], grants: &[Grant]) -> bool
        requires { All (Contains self.now.layout.locks) held.now }
        ensures { IsTrue result → AreOf self.now.layout.cell_locks held.now grants.now }
    {
        are_in_step(self.layout, held, grants)
    }

    /// Whether each grant has all cells of its lock.
    pub fn are_whole(&self, grants: &[Grant]) -> bool
        requires { All (λ g. Contains self.now.layout.locks g.lock) grants.now }
        ensures { IsTrue result ↔ All (IsWhole self.now.layout.cell_locks) grants.now }
    {
        are_whole(self.layout, grants)
    }

    /// Whether the cells of `grants` have the values that the entries leave, with `writes` applied.
    #[inline(always)]
    pub fn are_now(&self, grants: &[Grant], writes: &[CellValue]) -> bool
        requires listed { All (λ g. Contains self.now.layout.locks g.lock) grants.now }
        requires whole { All (IsWhole self.now.layout.cell_locks) grants.now }
        ensures { IsTrue result ↔ AreNow self.now writes.now grants.now }
    {
        let made = Writes::of(writes);
        for grant in grants {
            let row = self.row(grant.lock());
            if !have(&self.values, &made, row, grant.values()) {
                return false;
            }
        }
        true
    }
}
