//! The writes of an entry, by cell.

ghost use Rattle.std.specs.Prelude.{◌≡◌, ◌<◌, true, length, slice_get, Some};
ghost use Rattle.code.specs.Memory.{overwritten, value_at};
ghost use Rattle.lock_manager.specs.Working.Ties.{Rise};

use core_lang::value::Value;
use history::kept::CellValue;

/// The most writes that are searched from the first on. More of them are searched by bisection, if they are in order.
const FEW: usize = 4;

/// The writes of an entry. The write of a cell is found by bisection if the entry has more than 4 writes and their
/// cells rise.
#[derive(Clone, Copy)]
pub struct Writes<'w> {
    writes: &'w [CellValue],
    in_order: bool,
    ghost told: { in_order ≡ true → Rise writes.now },
}

impl<'w> Writes<'w> {
    /// The writes of an entry.
    pub fn of(writes: &'w [CellValue]) -> Writes<'w>
        ensures { result.writes.now ≡ writes.now }
    {
        Writes {
            writes,
            in_order: writes.len() > FEW && rise(writes),
        }
    }

    /// The value of `cell` after the writes.
    pub fn value(&self, values: &[Value], cell: usize) -> Value
        requires { cell < length values.now }
        ensures { slice_get (overwritten values.now self.now.writes.now) cell ≡ Some result }
    {
        code::laws::written_values_stand();
        let written = if self.in_order {
            halved(self.writes, cell)
        } else {
            searched(self.writes, cell)
        };
        match written {
            Some(value) => value,
            None => values[cell],
        }
    }
}

// Whether each write is of a cell with a greater number than the one before.
fn rise(writes: &[CellValue]) -> bool
    ensures { result ≡ true → Rise writes.now }
{
    for k in 1..writes.len() {
        if writes[k - 1].0 >= writes[k].0 {
            return false;
        }
    }
    true
}

// The value of the first write of `cell`.
fn searched(writes: &[CellValue], cell: usize) -> Option<Value>
    ensures { result ≡ value_at writes.now cell }
{
    for (number, value) in writes {
        if *number as usize == cell {
            return Some(*value);
        }
    }
    None
}

// The value of the write of `cell`, among writes in order of their cells.
fn halved(writes: &[CellValue], cell: usize) -> Option<Value>
    requires { Rise writes.now }
    ensures { result ≡ value_at writes.now cell }
{
    let mut low = 0;
    let mut high = writes.len();
    while low < high {
        let middle = low + (high - low) / 2;
        if (writes[middle].0 as usize) < cell {
            low = middle + 1;
        } else {
            high = middle;
        }
    }
    if low == writes.len() {
        return None;
    }
    if writes[low].0 as usize != cell {
        return None;
    }
    Some(writes[low].1)
}
