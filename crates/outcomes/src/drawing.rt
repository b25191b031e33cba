//! The ends of orders that are drawn at random.

ghost use Rattle.std.specs.Prelude.{◌≡◌, ◌<◌, ◌≤◌, ◌+◌, ◌^◌, ◌++◌, ◌∷◌, [], length, slice_index_or, IfOk, OnOk};
ghost use Rattle.core_lang.specs.Serial.{opening_heap};
ghost use Rattle.meaning.specs.Working.Undo.{undone};
ghost use Rattle.core_lang.specs.WellFormed.{calls_together};
ghost use Rattle.outcomes.specs.Working.Changes.{changes_of};
ghost use Rattle.outcomes.specs.Working.States.{orders_to};
ghost use Rattle.outcomes.specs.Orders.{orders, none_done};
ghost use Rattle.outcomes.specs.Working.Trails.{IsBegun};
ghost use Rattle.outcomes.specs.Working.Steps.{CanSearch};
ghost use Rattle.outcomes.specs.Ends.{Finds, seen_cells};
ghost use Rattle.outcomes.specs.Working.Drawing.{IsWalk, HasCallLeft, calls_of_thread, Advances, Walks, Notes};

use crate::changes::Writes;
use crate::layer::Layer;
use crate::outcome::{Cells, Found};
use crate::search::{Search, answered, told};
use crate::state::{Change, State};
use crate::telling::{seen_cells, seen_changes};
use crate::trail::Trail;
use core_lang::value::Value;
use core_lang::{laws, value};
use meaning::heap::Heap;
use meaning::run::End;
use rand::rngs::SmallRng;
use rand::{RngExt, SeedableRng};
use source::memory::NoMemory;
use std::alloc::{AllocError, Global};
use std::mem;

/// A run of calls, one after another.
#[derive(Drop)]
pub(crate) struct Walk {
    /// The heap that they left.
    pub(crate) heap: Heap,
    /// The values that they overwrote, with their cells.
    pub(crate) overwritten: Vec<(usize, Value)>,
    /// The number of calls of each thread.
    pub(crate) done: Vec<usize>,
    /// How the calls ended, by their numbers; empty, if that isn't asked for.
    pub(crate) answers: Vec<Option<value::Outcome>>,
    /// Their order.
    pub(crate) order: Vec<usize>,
}

/// The distinct ends of orders that were drawn.
#[derive(Drop)]
pub(crate) struct Drawing<'a> {
    /// The run of the last order.
    pub(crate) walk: Walk,
    /// The ends, as states in which all calls are done.
    pub(crate) ends: Layer<'a>,
    /// An order for each end.
    pub(crate) trail: Trail,
}

/// Appends `then` to `before`, and returns the list `then` emptied.
fn keep_writes(
    before: &mut Vec<(usize, Value)>,
    then: Vec<(usize, Value)>,
) -> Result<Vec<(usize, Value)>, AllocError>
    ensures kept { OnOk result (before.new.items ≡ before.old.items ++ then.items) }
    ensures empty { IfOk result (λ memory. memory.items ≡ []) }
{
    before.extend_from_slice(&then)?;
    let mut memory = then;
    memory.clear();
    Ok(memory)
}

impl Search<'_> {
    /// The number of calls of `thread` that are left.
    fn left(&self, done: &[usize], thread: usize) -> usize
        requires thread { thread < length self.now.program.now.threads.items }
        requires threads { length done.now ≡ length self.now.program.now.threads.items }
        requires few { slice_index_or done.now thread 0 ≤ calls_of_thread self.now.program.now.threads.items thread }
        ensures { result + slice_index_or done.now thread 0
            ≡ calls_of_thread self.now.program.now.threads.items thread }
    {
        self.program.threads[thread].calls.len() - done[thread]
    }

    /// The thread of the call `number`, if the calls that are left are counted from 0, thread by thread.
    fn thread_of(&self, walk: &Walk, number: usize) -> usize
        requires search { CanSearch self.now }
        requires walk { IsWalk self.now walk.now }
        requires number { number + length walk.now.order.items < calls_together self.now.program.now.threads.items }
        ensures { HasCallLeft self.now.program.now walk.now.done.items result }
    {
        let mut thread = 0;
        let mut number = number;
        while self.left(&walk.done, thread) <= number {
            number -= self.left(&walk.done, thread);
            thread += 1;
        }
        thread
    }

    /// Makes the next call of `thread`, and returns whether the turns settle it.
    fn advance(&self, alloc: Global, walk: &mut Walk, thread: usize) -> Result<bool, NoMemory>
        requires search { CanSearch self.now }
        requires walk { IsWalk self.now walk.old }
        requires left { HasCallLeft self.now.program.now walk.old.done.items thread }
        ensures { IfOk result (Advances self.now walk.old walk.new thread) }
    {
        let call = self.next(&walk.done, thread).unwrap();
        let Some(end) = self.run(alloc, &mut walk.heap, call)? else {
            return Ok(false);
        };
        let End {
            outcome,
            overwritten,
            ..
        } = end;
        // The next call uses its memory.
        let memory = keep_writes(&mut walk.overwritten, overwritten)?;
        walk.heap.take_back(alloc, memory);
        let number = self.call_number(thread, walk.done[thread]);
        walk.answers = answered(alloc, &walk.answers, number, outcome)?;
        walk.done[thread] += 1;
        walk.order.push(thread)?;
        Ok(true)
    }

    /// Makes all calls from the opening cells, in an order that is drawn uniformly from all orders. If the turns don't
    /// settle a call, returns its thread; the order is then that of the calls before it.
    fn walk(
        &self,
        alloc: Global,
        random: &mut SmallRng,
        walk: &mut Walk,
    ) -> Result<Option<usize>, NoMemory>
        requires search { CanSearch self.now }
        requires walk { undone walk.old.overwritten.items walk.old.heap ≡ opening_heap self.now.program.now }
        ensures { IfOk result (Walks self.now walk.new) }
    {
        let overwritten = mem::replace(&mut walk.overwritten, Vec::new(alloc));
        walk.heap.take_back(alloc, overwritten);
        walk.done = vec![in alloc; 0; self.program.threads.len()]?;
        walk.answers = self.no_answers(alloc)?;
        walk.order.clear();
        let calls = self.calls();
        while walk.order.len() < calls {
            let number = random.random_range(0..calls - walk.order.len());
            let thread = self.thread_of(walk, number);
            if !self.advance(alloc, walk, thread)? {
                return Ok(Some(thread));
            }
        }
        Ok(None)
    }
}

impl Drawing<'_> {
    /// The changes of the cells that are asked for.
    fn changes(
        &self,
        alloc: Global,
        asked: &Cells,
        opening: &[Value],
    ) -> Result<Vec<Change>, AllocError>
        requires long { length self.now.walk.heap ≡ length opening.now }
        requires writes { undone self.now.walk.overwritten.items self.now.walk.heap ≡ opening.now }
        requires ends { self.now.ends.opening ≡ seen_cells asked.now opening.now }
        ensures { let seen = seen_cells asked.now self.now.walk.heap in
            IfOk result (λ changes. changes.items ≡ changes_of self.now.ends.opening seen) }
    {
        let cells = self.walk.heap.cells();
        let writes = Writes {
            opening,
            first: &self.walk.overwritten,
            then: &[],
        };
        let changes = writes.changes(alloc, Vec::new(alloc), cells)?;
        seen_changes(alloc, asked, self.ends.opening(), cells, changes)
    }

    /// Adds the end of the last order to the ends, which are distinguished by the cells in `asked`.
    fn note(&mut self, alloc: Global, asked: &Cells, opening: &[Value]) -> Result<(), NoMemory>
        requires long { length self.old.walk.heap ≡ length opening.now }
        requires writes { undone self.old.walk.overwritten.items self.old.walk.heap ≡ opening.now }
        requires ends { self.old.ends.opening ≡ seen_cells asked.now opening.now }
        requires begun { IsBegun self.old.trail }
        requires fit { orders_to self.old.ends.states + 1 < 2 ^ 64 }
        ensures { OnOk result (Notes asked.now self.old self.new) }
    {
        let changes = self.changes(alloc, asked, opening)?;
        match self
            .ends
            .find(&self.walk.done, &changes, &self.walk.answers)
        {
            Some(number) => self.ends.add_orders(number, 1),
            None => {
                let first = self.trail.add(&self.walk.order)?;
                let done = Vec::from_slice(alloc, &self.walk.done)?;
                let answers = Vec::from_slice(alloc, &self.walk.answers)?;
                self.ends.push(State {
                    done,
                    changes,
                    answers,
                    orders: 1,
                    first,
                })?;
            }
        }
        Ok(())
    }
}

impl Search<'_> {
    /// The ends after orders that are drawn from `seed`; their number is the most orders of the search.
    ///
    /// # Errors
    ///
    /// Out of memory.
    pub(crate) fn drawn(&self, alloc: Global, seed: u64) -> Result<Found, NoMemory>
        requires search { CanSearch self.now }
        requires more { self.now.most < length (orders self.now.program.now) }
        ensures { IfOk result (Finds self.now.program.now self.now.turns self.now.most self.now.asked.now) }
    {
        laws::whole_within_some_turns();
        let mut random = SmallRng::seed_from_u64(seed);
        let heap = Heap::open(alloc, self.program)?;
        let opening = Vec::from_slice(alloc, heap.cells())?;
        let seen = seen_cells(alloc, &self.asked.cells, &opening)?;
        let mut drawing = Drawing {
            walk: Walk {
                heap,
                overwritten: Vec::new(alloc),
                done: Vec::new(alloc),
                answers: Vec::new(alloc),
                order: Vec::new(alloc),
            },
            ends: Layer::new(alloc, self.hashing, &seen),
            trail: Trail::new(alloc),
        };
        for _ in 0..self.most {
            if let Some(thread) = self.walk(alloc, &mut random, &mut drawing.walk)? {
                let order = Vec::from_slice(alloc, &drawing.walk.order)?;
                return Ok(Found::Unsettled { order, thread });
            }
            drawing.note(alloc, &self.asked.cells, &opening)?;
        }
        Ok(Found::Drawn(told(alloc, &drawing.ends, &drawing.trail)?))
    }
}
