//! The cells that an open section holds.

ghost use Rattle.std.specs.Prelude.{◌≡◌, ◌<◌, ◌≤◌, [], length, OnOk, OnErr, vec_capacity};
ghost use Rattle.std.specs.List.{All};
ghost use Rattle.locks.specs.Locks.{among};
ghost use Rattle.layout.specs.Layouts.{AreDistinct};
ghost use Rattle.moved_cells.specs.Working.Grants.{IsWhole, locks_of};
ghost use Rattle.runner_machine.specs.Working.Noted.{AreEmptyNotes};
ghost use Rattle.runner_machine.specs.Working.Held.{cells_granted, CanHold, no_grants, with_grant, without_grants, IsLoad, IsStore};

use crate::finding::spot_of;
use crate::held_lock::{HeldLock, find, hold};
use crate::notes::Notes;
use core_lang::value::Value;
use history::kept::CellValue;
use layout::room::Room;
use layout::table::Layout;
use locks::lock::Lock;
use moved_cells::grant::Grant;
use moved_cells::laws::slots_are_cells;
use source::memory::NoMemory;
use std::alloc::Global;
use std::marker::Model;
use std::mem;

/// The cells that an open section holds: its grants, what it read of cells that it had not written, and what it wrote
/// last. It can't be copied. It is passed from one section to the next, and ends only when it holds nothing.
pub struct Holding<'p> {
    layout: &'p Layout,
    grants: Vec<Grant>,
    // The lock of each grant, by which the grant is found.
    held: Vec<HeldLock>,
    // By place, where places are counted grant after grant.
    reads: Notes,
    writes: Notes,
    lock_room: usize,
    cell_room: usize,
}

impl<'p> Model for Holding<'p> {
    ghost use Rattle.std.specs.Prelude.{◌≤◌, vec_capacity};
    ghost use Rattle.runner_machine.specs.Working.Held.{HoldingOf};

    ghost Value = { HoldingOf };

    ghost use Rattle.runner_machine.specs.Working.Kept.{holding_of, IsKept};
    ghost use Rattle.runner_machine.specs.Working.Finding.{AreHeld, AreInRuns};

    ghost view = { λ h. holding_of h.layout.now h.grants.items h.reads h.writes h.lock_room h.cell_room };

    ghost invariant = { λ h.
        IsKept h.layout.now.cell_locks h.grants.items h.reads h.writes h.lock_room h.cell_room
        × (h.lock_room ≤ vec_capacity h.grants)
        × (h.lock_room ≤ vec_capacity h.held)
        × AreHeld h.grants.items h.held.items
        × AreInRuns h.held.items };
}

impl<'p> Holding<'p> {
    /// A holding without grants and without room.
    pub fn new(alloc: Global, layout: &'p Layout) -> Holding<'p>
        ensures { result ≡ no_grants layout.now 0 0 }
    {
        Holding {
            layout,
            grants: Vec::new(alloc),
            held: Vec::new(alloc),
            reads: Notes::new(alloc),
            writes: Notes::new(alloc),
            lock_room: 0,
            cell_room: 0,
        }
    }

    /// Begins the next section: no grants, and room for the locks and cells of `room`. The memory grows if it is too
    /// small.
    ///
    /// # Errors
    ///
    /// Out of memory. The room is then empty.
    pub fn renew(&mut self, layout: &'p Layout, room: Room) -> Result<(), NoMemory>
        requires none { self.old.locks ≡ [] }
        ensures ok { OnOk result (self.new ≡ no_grants layout.now room.locks room.cells) }
        ensures none { self.new.locks ≡ [] }
    {
        self.layout = layout;
        self.lock_room = 0;
        self.cell_room = 0;
        self.reads.clear();
        self.writes.clear();
        make_room(room.locks, &mut self.grants, &mut self.held)?;
        renew_notes(room.cells, &mut self.reads, &mut self.writes)?;
        self.lock_room = room.locks;
        self.cell_room = room.cells;
        Ok(())
    }

    /// Whether `lock` is held.
    pub fn holds(&self, lock: Lock) -> bool
        ensures { result ≡ among self.now.locks lock }
    {
        find(&self.held, lock).is_some()
    }

    /// The value of `cell`, if the cell is held. The read is noted, unless the cell was written.
    #[inline]
    pub fn load(&mut self, cell: u32) -> Option<Value>
        ensures { IsLoad self.old cell result self.new }
    {
        slots_are_cells();
        match spot_of(self.layout, &self.held, cell) {
            Some(spot) => {
                let value = self.grants[spot.index].read(spot.offset);
                match self.writes.number(spot.place, cell) {
                    Some(_) => {}
                    None => self.reads.note(spot.place, cell, value),
                }
                Some(value)
            }
            None => None,
        }
    }

    /// Sets `cell` to `value` and notes the write, if the cell is held. Returns whether it is held.
    #[inline]
    pub fn store(&mut self, cell: u32, value: Value) -> bool
        ensures { IsStore self.old cell value result self.new }
    {
        slots_are_cells();
        match spot_of(self.layout, &self.held, cell) {
            Some(spot) => {
                self.grants[spot.index].write(spot.offset, value);
                self.writes.note(spot.place, cell, value);
                true
            }
            None => false,
        }
    }

    /// Adds a grant.
    pub fn grant(&mut self, grant: Grant)
        requires { CanHold self.old grant }
        ensures { self.new ≡ with_grant self.old grant }
    {
        hold(&mut self.held, grant.lock(), grant.values().len());
        match self.grants.push(grant) {
            Ok(()) => {}
            Err(_) => unreachable!(),
        }
    }

    /// Ends the section: moves the grants, the oldest first, into the empty list `grants`, and puts the reads and
    /// writes in order of the cells' numbers. The room is then empty.
    pub fn finish(&mut self, grants: &mut Vec<Grant>)
        requires none { grants.old.items ≡ [] }
        ensures left { self.new ≡ without_grants self.old }
        ensures locks { locks_of grants.new.items ≡ self.old.locks }
        ensures whole { All (IsWhole self.old.layout.cell_locks) grants.new.items }
        ensures cells { cells_granted self.old.layout.cell_locks grants.new.items ≡ self.old.memory.cells }
        ensures reads { 0 < self.old.cell_room → length self.new.memory.reads ≤ self.old.cell_room }
        ensures writes { 0 < self.old.cell_room → length self.new.memory.writes ≤ self.old.cell_room }
    {
        mem::swap(&mut self.grants, grants);
        self.held.clear();
        self.reads.finish();
        self.writes.finish();
        self.lock_room = 0;
        self.cell_room = 0;
    }

    /// Each cell that was read before it was written, with the value found, in order of the cells' numbers.
    pub fn reads(&self) -> &[CellValue]
        requires { self.now.cell_room ≡ 0 }
        ensures { result.now ≡ self.now.memory.reads }
    {
        self.reads.list()
    }

    /// Each cell that was written, with the last value written, in order of the cells' numbers.
    pub fn writes(&self) -> &[CellValue]
        requires { self.now.cell_room ≡ 0 }
        ensures { result.now ≡ self.now.memory.writes }
    {
        self.writes.list()
    }

    /// Frees the memory of a holding without grants.
    pub fn let_go(self)
        requires { self.locks ≡ [] }
    {
        let Holding {
            layout: _,
            grants,
            held: _,
            reads: _,
            writes: _,
            lock_room: _,
            cell_room: _,
        } = self;
        grants.destroy_empty();
    }

    /// A law: each lock is held once, and the locks and cells don't exceed the room.
    pub fn keeps_its_rules(&self)
        ensures distinct { AreDistinct self.now.locks }
        ensures locks { length self.now.locks ≤ self.now.lock_room }
        ensures cells { length self.now.memory.cells ≤ self.now.cell_room }
    {
        let _ = &self.grants;
    }
}

// Makes room for `room` grants. Errors: out of memory.
fn make_room(room: usize, grants: &mut Vec<Grant>, held: &mut Vec<HeldLock>) -> Result<(), NoMemory>
    ensures grants { grants.new.items ≡ grants.old.items }
    ensures held { held.new.items ≡ held.old.items }
    ensures grants_room { OnOk result (room ≤ vec_capacity grants.new) }
    ensures held_room { OnOk result (room ≤ vec_capacity held.new) }
{
    grants.reserve(room)?;
    held.reserve(room)?;
    Ok(())
}

// Makes room for notes at `room` places. Errors: out of memory; then neither has room.
fn renew_notes(room: usize, reads: &mut Notes, writes: &mut Notes) -> Result<(), NoMemory>
    ensures ok { OnOk result (AreEmptyNotes room reads.new × AreEmptyNotes room writes.new) }
    ensures err { OnErr result (AreEmptyNotes 0 reads.new × AreEmptyNotes 0 writes.new) }
{
    if reads.renew(room).is_err() || writes.renew(room).is_err() {
        reads.clear();
        writes.clear();
        return Err(NoMemory);
    }
    Ok(())
}
