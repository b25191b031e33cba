//! The values of one lock's cells.

ghost use Rattle.std.specs.Prelude.{◌≡◌, ◌<◌, ◌^◌, [], ◌∷◌, ◌++◌, length, slice_get, slice_set, Some, OnOk, OnErr};

use core_lang::value::Value;
use source::memory::NoMemory;
use std::alloc::Global;
use std::marker::Model;

/// The values of one lock's cells, in one slice in order of the cells' numbers. The index of a cell is its offset, as
/// returned by [`layout::table::Layout::slot_of`].
#[derive(Drop)]
pub struct Cells {
    values: Vec<Value>,
}

impl Model for Cells {
    ghost use Rattle.std.specs.Prelude.{List};
    ghost use Rattle.core_lang.specs.declared.value.Value.{Value as Held};

    ghost Value = { List Held };

    ghost view = { λ c. c.values.items };
}

impl Cells {
    /// No cells.
    pub fn new(alloc: Global) -> Cells
        ensures { result ≡ [] }
    {
        Cells {
            values: Vec::new(alloc),
        }
    }

    /// Appends a cell with `value`.
    ///
    /// # Errors
    ///
    /// Out of memory. The cells are then unchanged.
    pub fn push(&mut self, value: Value) -> Result<(), NoMemory>
        ensures ok { OnOk result (self.new ≡ self.old ++ value ∷ []) }
        ensures err { OnErr result (self.new ≡ self.old) }
    {
        self.values.push(value)?;
        Ok(())
    }

    /// The value of the cell at `offset`.
    #[inline]
    pub fn read(&self, offset: u32) -> Value
        requires { offset < length self.now }
        ensures { slice_get self.now offset ≡ Some result }
    {
        self.values[offset as usize]
    }

    /// Sets the cell at `offset` to `value`.
    #[inline]
    pub fn write(&mut self, offset: u32, value: Value)
        requires { offset < length self.old }
        ensures { self.new ≡ slice_set self.old offset value }
    {
        self.values[offset as usize] = value;
    }

    /// The values, in order of the cells' numbers.
    #[inline]
    pub fn values(&self) -> &[Value]
        ensures { result.now ≡ self.now }
    {
        self.values.as_slice()
    }
}
