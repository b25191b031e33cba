//! Writing, copying and comparing the values of cells.

ghost use Rattle.std.specs.Prelude.{◌≡◌, ◌<◌, ◌↔◌, length, slice_get, Some, IfOk, IsTrue};
ghost use Rattle.std.specs.List.{All};
ghost use Rattle.code.specs.Memory.{overwritten, Agrees};
ghost use Rattle.moved_cells.specs.Working.Grants.{numbered, values_on};

use crate::writes::Writes;
use core_lang::value::Value;
use history::kept::CellValue;
use moved_cells::cells::Cells;
use source::memory::NoMemory;
use std::alloc::Global;

/// Applies `writes`, the last one first: of two writes of one cell the first one counts.
pub fn write_all(values: &mut Vec<Value>, writes: &[CellValue])
    requires { All (λ w. w.0 < length values.old.items) writes.now }
    ensures { values.new.items ≡ overwritten values.old.items writes.now }
{
    let mut left = writes.len();
    while left > 0 {
        left -= 1;
        let (cell, value) = writes[left];
        values[cell as usize] = value;
    }
}

/// The values of the cells in `row`.
///
/// # Errors
///
/// Out of memory.
pub fn cells_with(alloc: Global, row: &[usize], values: &[Value]) -> Result<Cells, NoMemory>
    requires { All (λ cell. cell < length values.now) row.now }
    ensures { IfOk result (λ cells. cells ≡ values_on values.now row.now) }
{
    let mut cells = Cells::new(alloc);
    for cell in row {
        cells.push(values[*cell])?;
    }
    Ok(cells)
}

/// Sets the first `count` of `cells` to the values of the cells in `row`.
pub fn reset(cells: &mut Cells, row: &[usize], values: &[Value], count: u32)
    requires count { count ≡ length row.now }
    requires long { length cells.old ≡ length row.now }
    requires cells { All (λ cell. cell < length values.now) row.now }
    ensures { cells.new ≡ values_on values.now row.now }
{
    for offset in 0..count {
        cells.write(offset, values[row[offset as usize]]);
    }
}

// Whether two values are equal.
fn same(a: Value, b: Value) -> bool
    ensures { IsTrue result ↔ (a ≡ b) }
{
    a == b
}

/// Whether each cell in `reads` has the value that was read.
pub fn agrees(values: &[Value], reads: &[CellValue]) -> bool
    ensures { IsTrue result ↔ Agrees values.now reads.now }
{
    for (cell, value) in reads {
        let cell = *cell as usize;
        if cell >= values.len() {
            return false;
        }
        if !same(values[cell], *value) {
            return false;
        }
    }
    true
}

/// Whether `now` are the values of `cells` after the writes.
pub fn have(values: &[Value], writes: &Writes, cells: &[usize], now: &[Value]) -> bool
    requires count { length now.now ≡ length cells.now }
    requires cells { All (λ cell. cell < length values.now) cells.now }
    ensures { IsTrue result ↔ Agrees (overwritten values.now writes.now.writes.now) (numbered cells.now now.now) }
{
    for offset in 0..cells.len() {
        if !same(writes.value(values, cells[offset]), now[offset]) {
            return false;
        }
    }
    true
}
