//! The ends, distinguished by what is asked for.

ghost use Rattle.std.specs.Prelude.{◌≡◌, ◌<◌, ◌+◌, ◌^◌, IfOk, OnOk, length, map, slice_index_or};
ghost use Rattle.core_lang.specs.Serial.{opening_heap};
ghost use Rattle.core_lang.specs.WellFormed.{calls_together};
ghost use Rattle.outcomes.specs.Ends.{seen_cells, told_of};
ghost use Rattle.outcomes.specs.Working.Changes.{AreChanges, changes_of};
ghost use Rattle.outcomes.specs.Working.States.{orders_to};
ghost use Rattle.outcomes.specs.Working.Searching.{AreGood};
ghost use Rattle.outcomes.specs.Working.Steps.{Tells, AreToldOfStates, IsBack, start_of, state_in};

use crate::changes::all_changes;
use crate::layer::Layer;
use crate::outcome::{Cells, FinalState};
use crate::search::{Search, Work, told};
use crate::state::{Change, State};
use core_lang::value::Value;
use meaning::heap::Heap;
use source::memory::NoMemory;
use std::alloc::{AllocError, Global};

/// The value of the cell `number`; null, if the cell doesn't exist.
fn value_at(cells: &[Value], number: usize) -> Value
    ensures { result ≡ slice_index_or cells.now number (Value.Ref None) }
{
    cells.get(number).copied().unwrap_or(Value::Ref(None))
}

/// The values of the cells that are asked for.
///
/// # Errors
///
/// Out of memory.
pub(crate) fn seen_cells(
    alloc: Global,
    asked: &Cells,
    cells: &[Value],
) -> Result<Vec<Value>, AllocError>
    ensures { IfOk result (λ seen. seen.items ≡ seen_cells asked.now cells.now) }
{
    match asked {
        Cells::Every => Vec::from_slice(alloc, cells),
        Cells::These(numbers) => {
            let mut seen = Vec::new(alloc);
            for number in numbers {
                seen.push(value_at(cells, *number))?;
            }
            Ok(seen)
        }
    }
}

/// The changes of the cells that are asked for, from those of all cells.
///
/// # Errors
///
/// Out of memory.
pub(crate) fn seen_changes(
    alloc: Global,
    asked: &Cells,
    opening: &[Value],
    cells: &[Value],
    changes: Vec<Change>,
) -> Result<Vec<Change>, AllocError>
    requires long { length opening.now ≡ length (seen_cells asked.now cells.now) }
    requires every { asked.now ≡ Cells.Every → changes.items ≡ changes_of opening.now cells.now }
    ensures { IfOk result (λ seen. seen.items ≡ changes_of opening.now (seen_cells asked.now cells.now)) }
{
    match asked {
        Cells::Every => Ok(changes),
        Cells::These(_) => {
            let seen = seen_cells(alloc, asked, cells)?;
            all_changes(Vec::new(alloc), opening, &seen)
        }
    }
}

impl Search<'_> {
    /// Adds the end of `state`, whose cells `heap` has, to `ends`.
    fn tell(
        &self,
        alloc: Global,
        heap: &Heap,
        ends: &mut Layer<'_>,
        state: &State,
    ) -> Result<(), NoMemory>
        requires heap { heap.now ≡ (state_in self.now state.now).left.cells }
        requires changes { AreChanges (opening_heap self.now.program.now) state.now.changes.items }
        requires opening { ends.old.opening ≡ seen_cells self.now.asked.now.cells (opening_heap self.now.program.now) }
        requires fit { orders_to ends.old.states + state.now.orders < 2 ^ 64 }
        ensures { OnOk result (Tells self.now ends.old ends.new state.now) }
    {
        let asked = &self.asked.cells;
        let changes = Vec::from_slice(alloc, &state.changes)?;
        let changes = seen_changes(alloc, asked, ends.opening(), heap.cells(), changes)?;
        match ends.find(&state.done, &changes, &state.answers) {
            Some(number) => ends.add_orders(number, state.orders),
            None => {
                let done = Vec::from_slice(alloc, &state.done)?;
                let answers = Vec::from_slice(alloc, &state.answers)?;
                ends.push(State {
                    done,
                    changes,
                    answers,
                    orders: state.orders,
                    first: state.first,
                })?;
            }
        }
        Ok(())
    }

    /// The ends of the states of `layer`, in which all calls are done, with orders of the trail.
    ///
    /// # Errors
    ///
    /// Out of memory.
    pub(crate) fn ends_of(
        &self,
        alloc: Global,
        work: &mut Work<'_>,
        layer: &Layer<'_>,
    ) -> Result<Vec<FinalState>, NoMemory>
        requires work { IsBack self.now work.old }
        requires opening { layer.now.opening ≡ opening_heap self.now.program.now }
        requires layer { AreGood self.now.program.now self.now.turns
            (calls_together self.now.program.now.threads.items) (start_of self.now) work.old.trail layer.now.states }
        ensures told { IfOk result
            (λ ends. AreToldOfStates self.now work.old.trail layer.now.states (map told_of ends.items)) }
        ensures trail { OnOk result (work.new.trail ≡ work.old.trail) }
    {
        // Read for its range.
        let _all = layer.orders();
        let opening = seen_cells(alloc, &self.asked.cells, layer.opening())?;
        let mut ends = Layer::new(alloc, self.hashing, &opening);
        for number in 0..layer.len() {
            let state = layer.get(number);
            work.visit(alloc, state)?;
            self.tell(alloc, &work.heap, &mut ends, state)?;
        }
        let told = told(alloc, &ends, &work.trail)?;
        Ok(told)
    }
}
