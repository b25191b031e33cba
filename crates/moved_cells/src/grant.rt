//! A lock, and its cells.

ghost use Rattle.std.specs.Prelude.{◌≡◌, ◌<◌, length, slice_get, slice_set, Some};

use crate::cells::Cells;
use core_lang::value::Value;
use locks::lock::Lock;
use std::marker::Model;

/// A lock that a section holds, with its cells. It can be neither copied nor dropped: only [`Grant::into_parts`] ends
/// it.
pub struct Grant {
    lock: Lock,
    cells: Cells,
}

impl Model for Grant {
    ghost use Rattle.moved_cells.specs.Working.Grants.{GrantOf};

    ghost Value = { GrantOf };

    ghost view = { λ g. record { lock = g.lock; values = g.cells } };
}

impl Grant {
    /// The grant of `lock` with `cells`.
    pub fn new(lock: Lock, cells: Cells) -> Grant
        ensures { result ≡ record { lock = lock; values = cells } }
    {
        Grant { lock, cells }
    }

    /// The lock.
    #[inline]
    pub fn lock(&self) -> Lock
        ensures { result ≡ self.now.lock }
    {
        self.lock
    }

    /// The value of the cell at `offset`.
    #[inline]
    pub fn read(&self, offset: u32) -> Value
        requires { offset < length self.now.values }
        ensures { slice_get self.now.values offset ≡ Some result }
    {
        self.cells.read(offset)
    }

    /// Sets the cell at `offset` to `value`.
    #[inline]
    pub fn write(&mut self, offset: u32, value: Value)
        requires { offset < length self.old.values }
        ensures { self.new ≡ record self.old { values = slice_set self.old.values offset value } }
    {
        self.cells.write(offset, value);
    }

    /// The values of all cells of the lock, in order of the cells' numbers.
    #[inline]
    pub fn values(&self) -> &[Value]
        ensures { result.now ≡ self.now.values }
    {
        self.cells.values()
    }

    /// Takes the grant apart into its lock and its cells, to give them back.
    pub fn into_parts(self) -> (Lock, Cells)
        ensures lock { result.0 ≡ self.lock }
        ensures cells { result.1 ≡ self.values }
    {
        let Grant { lock, cells } = self;
        (lock, cells)
    }
}
