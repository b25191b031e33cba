//! The cells whose value differs from the opening value, found from what was overwritten.

ghost use Rattle.std.specs.Prelude.{◌≡◌, ◌<◌, ◌++◌, length, IfOk, OnOk};
ghost use Rattle.std.specs.Bool.{Decides};
ghost use Rattle.std.specs.List.Sorted.{IsNonDecreasing};
ghost use Rattle.meaning.specs.Working.Undo.{undone};
ghost use Rattle.outcomes.specs.Working.Changes.{applied, change_at, changes_of, AreAmong};

use crate::state::Change;
use core_lang::value::Value;
use meaning::draft::Draft;
use meaning::heap::Heap;
use std::alloc::{AllocError, Global};
use std::mem;

/// The greatest number of cells for which all are compared, whatever was written.
const FEW_CELLS: usize = 16;

fn same_value(a: Value, b: Value) -> bool
    ensures { Decides result (a ≡ b) }
{
    a == b
}

/// The overwrites since the opening.
#[derive(Drop)]
pub(crate) struct Writes<'a> {
    /// The values of the cells before any call.
    pub(crate) opening: &'a [Value],
    /// The earlier overwrites: the cells, with their values before.
    pub(crate) first: &'a [(usize, Value)],
    /// The later overwrites.
    pub(crate) then: &'a [(usize, Value)],
}

impl Writes<'_> {
    /// The cells that were written, in rising order, possibly with repetitions.
    fn cells(&self, alloc: Global) -> Result<Vec<usize>, AllocError>
        ensures order { IfOk result (λ cells. IsNonDecreasing cells.items) }
        ensures first { IfOk result (λ cells. AreAmong self.now.first.now cells.items) }
        ensures then { IfOk result (λ cells. AreAmong self.now.then.now cells.items) }
    {
        let mut cells = Vec::new(alloc);
        for write in self.first {
            cells.push(write.0)?;
        }
        for write in self.then {
            cells.push(write.0)?;
        }
        cells.sort_unstable();
        Ok(cells)
    }

    /// The changes of the cells, whose present values are `now`, in the memory of `memory`.
    ///
    /// # Errors
    ///
    /// Out of memory.
    pub(crate) fn changes(
        &self,
        alloc: Global,
        memory: Vec<Change>,
        now: &[Value],
    ) -> Result<Vec<Change>, AllocError>
        requires long { length now.now ≡ length self.now.opening.now }
        requires writes { undone self.now.first.now (undone self.now.then.now now.now) ≡ self.now.opening.now }
        ensures { IfOk result (λ changes. changes.items ≡ changes_of self.now.opening.now now.now) }
    {
        if now.len() <= FEW_CELLS || now.len() <= self.first.len() {
            return all_changes(memory, self.opening, now);
        }
        let cells = self.cells(alloc)?;
        let mut changes = memory;
        changes.clear();
        let mut below = 0;
        for cell in &cells {
            let cell = *cell;
            if below <= cell && cell < now.len() {
                note_change(&mut changes, self.opening, now, cell)?;
                below = cell + 1;
            }
        }
        Ok(changes)
    }
}

/// Appends the change of `cell`, if its value differs from the opening value.
fn note_change(
    changes: &mut Vec<Change>,
    opening: &[Value],
    now: &[Value],
    cell: usize,
) -> Result<(), AllocError>
    requires opening { cell < length opening.now }
    requires now { cell < length now.now }
    ensures { OnOk result (changes.new.items ≡ changes.old.items ++ change_at opening.now now.now cell) }
{
    let value = now[cell];
    if !same_value(opening[cell], value) {
        changes.push(Change { cell, value })?;
    }
    Ok(())
}

/// The changes of the cells, found by comparing all of them, in the memory of `memory`.
///
/// # Errors
///
/// Out of memory.
pub(crate) fn all_changes(
    memory: Vec<Change>,
    opening: &[Value],
    now: &[Value],
) -> Result<Vec<Change>, AllocError>
    requires { length now.now ≡ length opening.now }
    ensures { IfOk result (λ changes. changes.items ≡ changes_of opening.now now.now) }
{
    let mut changes = memory;
    changes.clear();
    for cell in 0..opening.len() {
        note_change(&mut changes, opening, now, cell)?;
    }
    Ok(changes)
}

/// Applies `changes` to `heap`, and returns what they overwrote.
///
/// # Errors
///
/// Out of memory.
pub(crate) fn make_changes(
    alloc: Global,
    heap: &mut Heap,
    changes: &[Change],
) -> Result<Vec<(usize, Value)>, AllocError>
    ensures cells { OnOk result (heap.new ≡ applied changes.now heap.old) }
    ensures back { IfOk result (λ overwritten. undone overwritten.items heap.new ≡ heap.old) }
{
    let mut draft = Draft::new(mem::replace(heap, Heap::new(alloc)));
    for change in changes {
        if change.cell < draft.cells().len() {
            draft.write(change.cell, change.value)?;
        }
    }
    let (changed, overwritten) = draft.keep_both(alloc);
    *heap = changed;
    Ok(overwritten)
}

/// The values of all cells: the opening values with `changes`.
///
/// # Errors
///
/// Out of memory.
pub(crate) fn cells_of(
    alloc: Global,
    opening: &[Value],
    changes: &[Change],
) -> Result<Vec<Value>, AllocError>
    ensures { IfOk result (λ cells. cells.items ≡ applied changes.now opening.now) }
{
    let mut cells = Vec::from_slice(alloc, opening)?;
    for change in changes {
        if let Some(place) = cells.get_mut(change.cell) {
            *place = change.value;
        }
    }
    Ok(cells)
}
