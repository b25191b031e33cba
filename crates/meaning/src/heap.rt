//! The values of all cells.

ghost use Rattle.std.specs.Prelude.{◌≡◌, ◌<◌, [], IfOk, Some, length, slice_get};
ghost use Rattle.std.specs.Bool.{Decides};
ghost use Rattle.core_lang.specs.Serial.{opening_heap};
ghost use Rattle.core_lang.specs.Typing.{HasCells};
ghost use Rattle.meaning.specs.Working.Undo.{undone};

use crate::draft::restored;
use core_lang::typed::Typed;
use core_lang::value::Value;
use source::memory::NoMemory;
use std::alloc::Global;
use std::marker::Model;
use std::mem;

/// The values of all cells of a program, by the cell's number. Its model is the list of them.
#[derive(Drop)]
pub struct Heap {
    pub(crate) cells: Vec<Value>,
    // Whether the current run has written the cell; false for all cells outside a run.
    pub(crate) is_written: Vec<bool>,
    // Memory for what the next run overwrites. Its content does not matter.
    pub(crate) spare: Vec<(usize, Value)>,
}

impl Model for Heap {
    ghost use Rattle.std.specs.Prelude.{◌≡◌, List, length, replicate, false};
    ghost use Rattle.core_lang.specs.declared.value.Value.{Value as Held};

    ghost Value = { List Held };

    ghost view = { λ h. h.cells.items };

    ghost invariant = { λ h. h.is_written.items ≡ replicate (length h.cells.items) false };
}

impl Heap {
    /// The initial heap of a program: each cell's initial value.
    ///
    /// # Errors
    ///
    /// Out of memory.
    pub fn open(alloc: Global, program: &Typed) -> Result<Heap, NoMemory>
        ensures opens { IfOk result (λ heap. heap ≡ opening_heap program.now) }
        ensures cells { IfOk result (λ heap. HasCells program.now heap) }
    {
        let mut cells = Vec::with_capacity(alloc, program.cells.len())?;
        for cell in &program.cells {
            cells.push(cell.opening)?;
        }
        let is_written = vec![in alloc; false; cells.len()]?;
        Ok(Heap {
            cells,
            is_written,
            spare: Vec::new(alloc),
        })
    }

    /// The values of the cells, by number.
    #[inline]
    pub fn cells(&self) -> &[Value]
        ensures { result.now ≡ self.now }
    {
        self.cells.as_slice()
    }

    /// The value of a cell.
    #[inline]
    pub fn get(&self, cell: usize) -> Value
        requires { cell < length self.now }
        ensures { slice_get self.now cell ≡ Some result }
    {
        self.cells[cell]
    }

    /// Whether the heap has as many cells as the program.
    pub fn has_cells_of(&self, program: &Typed) -> bool
        ensures { Decides result (HasCells program.now self.now) }
    {
        self.cells.len() == program.cells.len()
    }

    /// Takes back the writes that overwrote these values, the last one first: of a run, what its end says.
    pub fn take_back(&mut self, alloc: Global, overwritten: Vec<(usize, Value)>)
        ensures { self.new ≡ undone overwritten.items self.old }
    {
        let heap = mem::replace(self, Heap::new(alloc));
        let mut overwritten = overwritten;
        *self = Heap {
            cells: restored(heap.cells, &mut overwritten),
            is_written: heap.is_written,
            spare: overwritten,
        };
    }

    /// A heap without cells.
    #[inline]
    pub fn new(alloc: Global) -> Heap
        ensures { result ≡ [] }
    {
        Heap {
            cells: Vec::new(alloc),
            is_written: Vec::new(alloc),
            spare: Vec::new(alloc),
        }
    }
}
