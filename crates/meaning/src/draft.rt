//! A heap with the writes of one run, which can be undone.

ghost use Rattle.std.specs.Prelude.{◌≡◌, ◌<◌, length, replicate, false, slice_set, OnOk, OnErr};
ghost use Rattle.meaning.specs.Working.Undo.{undone, IsKept};

use crate::heap::Heap;
use core_lang::value::Value;
use std::alloc::{AllocError, Global};
use std::marker::Model;

/// A heap, with the values that the run's first write to each cell overwrote.
#[derive(Drop)]
pub struct Draft {
    cells: Vec<Value>,
    overwritten: Vec<(usize, Value)>,
    is_written: Vec<bool>,
}

impl Model for Draft {
    ghost use Rattle.std.specs.Prelude.{length};
    ghost use Rattle.meaning.specs.Working.Undo.{Changed, undone, IsKept};

    ghost Value = { Changed };

    ghost view = { λ d. record { now = d.cells.items; before = undone d.overwritten.items d.cells.items } };

    ghost invariant = { λ d. IsKept d.is_written.items d.overwritten.items (length d.cells.items) };
}

impl Draft {
    /// A draft of `heap` without writes.
    #[inline]
    pub fn new(heap: Heap) -> Draft
        ensures now { result.now ≡ heap }
        ensures before { result.before ≡ heap }
    {
        let mut overwritten = heap.spare;
        overwritten.clear();
        Draft {
            cells: heap.cells,
            overwritten,
            is_written: heap.is_written,
        }
    }

    /// The current values of the cells.
    #[inline(always)]
    pub fn cells(&self) -> &[Value]
        ensures { result.now ≡ self.now.now }
    {
        self.cells.as_slice()
    }

    /// Writes a cell, after its former value is kept. An error changes nothing.
    #[inline(always)]
    pub fn write(&mut self, cell: usize, value: Value) -> Result<(), AllocError>
        requires { cell < length self.old.now }
        ensures now { OnOk result (self.new.now ≡ slice_set self.old.now cell value) }
        ensures before { self.new.before ≡ self.old.before }
    {
        remember(
            &mut self.overwritten,
            &mut self.is_written,
            self.cells.as_slice(),
            cell,
            value,
        )?;
        self.cells[cell] = value;
        Ok(())
    }

    /// The heap with the writes.
    #[inline]
    pub fn keep(self) -> Heap
        ensures now { result ≡ self.now }
        ensures long { length result ≡ length self.before }
    {
        Heap {
            is_written: cleared(
                self.is_written,
                self.cells.as_slice(),
                self.overwritten.as_slice(),
            ),
            cells: self.cells,
            spare: self.overwritten,
        }
    }

    /// The heap with the writes, and what the first write to each cell overwrote.
    pub fn keep_both(self, alloc: Global) -> (Heap, Vec<(usize, Value)>)
        ensures now { result.0 ≡ self.now }
        ensures long { length result.0 ≡ length self.before }
        ensures before { undone result.1.items result.0 ≡ self.before }
    {
        let heap = Heap {
            is_written: cleared(
                self.is_written,
                self.cells.as_slice(),
                self.overwritten.as_slice(),
            ),
            cells: self.cells,
            spare: Vec::new(alloc),
        };
        (heap, self.overwritten)
    }

    /// The heap as it was before the writes.
    pub fn undo(self) -> Heap
        ensures { result ≡ self.before }
    {
        let is_written = cleared(
            self.is_written,
            self.cells.as_slice(),
            self.overwritten.as_slice(),
        );
        let mut overwritten = self.overwritten;
        Heap {
            cells: restored(self.cells, &mut overwritten),
            is_written,
            spare: overwritten,
        }
    }
}

// Clears the marks of these cells, after which no cell is marked if these were all.
#[inline]
fn cleared(is_written: Vec<bool>, cells: &[Value], overwritten: &[(usize, Value)]) -> Vec<bool>
    requires { IsKept is_written.items overwritten.now (length cells.now) }
    ensures { result.items ≡ replicate (length cells.now) false }
{
    let _cells = cells;
    let mut marks = is_written;
    for write in overwritten {
        clear(&mut marks, write.0);
    }
    marks
}

#[inline(always)]
fn clear(marks: &mut Vec<bool>, cell: usize)
    ensures { marks.new.items ≡ slice_set marks.old.items cell false }
{
    if let Some(mark) = marks.get_mut(cell) {
        *mark = false;
    }
}

// The cells with the overwritten values.
pub(crate) fn restored(cells: Vec<Value>, overwritten: &mut Vec<(usize, Value)>) -> Vec<Value>
    ensures value { result.items ≡ undone overwritten.old.items cells.items }
    ensures len { length result.items ≡ length cells.items }
{
    let mut cells = cells;
    while let Some((cell, value)) = overwritten.pop() {
        if let Some(place) = cells.get_mut(cell) {
            *place = value;
        }
    }
    cells
}

// Keeps the value of a cell before its first write.
#[inline(always)]
fn remember(
    overwritten: &mut Vec<(usize, Value)>,
    is_written: &mut Vec<bool>,
    cells: &[Value],
    cell: usize,
    value: Value,
) -> Result<(), AllocError>
    requires kept { IsKept is_written.old.items overwritten.old.items (length cells.now) }
    requires within { cell < length cells.now }
    ensures before { OnOk result
        (undone overwritten.new.items (slice_set cells.now cell value) ≡ undone overwritten.old.items cells.now) }
    ensures err { OnErr result (overwritten.new.items ≡ overwritten.old.items) }
    ensures kept { IsKept is_written.new.items overwritten.new.items (length cells.now) }
{
    if is_written[cell] {
        return Ok(());
    }
    overwritten.push((cell, cells[cell]))?;
    is_written[cell] = true;
    Ok(())
}
