//! The cells of each lock, and their initial values.

ghost use Rattle.std.specs.Prelude.{◌≡◌, [], replicate, IfOk};
ghost use Rattle.lock_manager.specs.Working.Managers.{IsLayout};
ghost use Rattle.lock_manager.specs.Working.Committed.{members_of, rows};

use core_lang::value::Value;
use layout::table::Layout;
use source::memory::NoMemory;
use std::alloc::Global;

// A list of `count` empty rows.
fn empty_rows(alloc: Global, count: usize) -> Result<Vec<Vec<usize>>, NoMemory>
    ensures { IfOk result (λ all. rows all.items ≡ replicate count []) }
{
    let mut all = Vec::with_capacity(alloc, count)?;
    for _ in 0..count {
        all.push(Vec::new(alloc))?;
    }
    Ok(all)
}

/// The cells of each lock, by the lock's number.
///
/// # Errors
///
/// Out of memory.
pub fn members(alloc: Global, layout: &Layout) -> Result<Vec<Vec<usize>>, NoMemory>
    requires { IsLayout layout.now }
    ensures { IfOk result (λ all. rows all.items ≡ members_of layout.now) }
{
    let mut all = empty_rows(alloc, layout.locks_count())?;
    for cell in 0..layout.cells_count() {
        let number = layout.lock_number(layout.lock_of(cell));
        all[number].push(cell)?;
    }
    Ok(all)
}

/// The initial values of all cells.
///
/// # Errors
///
/// Out of memory.
pub fn opening_values(alloc: Global, layout: &Layout) -> Result<Vec<Value>, NoMemory>
    requires { IsLayout layout.now }
    ensures { IfOk result (λ values. values.items ≡ layout.now.opening) }
{
    let mut values = Vec::with_capacity(alloc, layout.cells_count())?;
    for cell in 0..layout.cells_count() {
        values.push(layout.opening(cell))?;
    }
    Ok(values)
}
