//! The search for all ends, layer by layer, where a layer has the states after a number of calls.

ghost use Rattle.std.specs.Prelude.{◌≡◌, ◌<◌, ◌≤◌, ◌+◌, ◌^◌, [], ◌∷◌, length};
ghost use Rattle.std.specs.Prelude.{IsTrue, MatchBool, map, replicate, slice_index, slice_set, IfNone};
ghost use Rattle.std.specs.Prelude.{true, None, Some, OnOk, IfOk, MatchOption};
ghost use Rattle.core_lang.specs.Serial.{invocation, opening_heap};
ghost use Rattle.core_lang.specs.Typing.{IsHeap, HasCells};
ghost use Rattle.core_lang.specs.WellFormed.{CanCall, calls_together};
ghost use Rattle.outcomes.specs.Working.States.{orders_to};
ghost use Rattle.outcomes.specs.Orders.{next_call, call_number, orders};
ghost use Rattle.outcomes.specs.Working.Drawing.{calls_of_thread};
ghost use Rattle.outcomes.specs.Working.Steps.{CanSearch, FindsOrHasMore, Leaves, Puts, Visits, left_by, state_in, IsNext};
ghost use Rattle.outcomes.specs.Working.Steps.{IsAtWork, IsReached, AreReached, Steps, made_by, made_from, made_from_all, opening_state, FirstsAre};
ghost use Rattle.outcomes.specs.Ends.{Finds, told_of, no_answers, answered};
ghost use Rattle.outcomes.specs.Working.Searching.{as_told};
ghost use Rattle.outcomes.specs.Working.Changes.{AreChanges, changes_of};
ghost use Rattle.meaning.specs.Working.Undo.{undone};
ghost use Rattle.outcomes.specs.Commuting.{AreIndependent};
ghost use Rattle.outcomes.specs.Working.Reducing.{FindsOrLeavesMore, IsOneGroup};

use crate::changes::{Writes, cells_of, make_changes};
use crate::groups::groups;
use crate::layer::{Layer, Place};
use crate::outcome::{Asked, FinalState, Found};
use crate::state::{Change, State};
use crate::trail::Trail;
use core_lang::typed::{Call, Typed};
use core_lang::value::Value;
use core_lang::{laws, value};
use meaning::heap::Heap;
use meaning::run::End;
use meaning_registers::prepared::Prepared;
use source::keyed::KeyedState;
use source::memory::NoMemory;
use std::alloc::{AllocError, Global};
use std::mem;

/// A search: the program, its limits, and what is asked for.
pub struct Search<'a> {
    /// The program.
    pub program: &'a Typed,
    /// The same program, prepared for its calls.
    pub prepared: &'a Prepared<'a>,
    /// The most turns of each execution of a loop.
    pub turns: u64,
    /// The limit of orders: up to this number all are run, and otherwise this number is drawn.
    pub most: u64,
    /// The parts of a state by which ends are distinguished.
    pub asked: &'a Asked,
    /// The hasher of states, keyed by the program's text.
    pub hashing: KeyedState,
}

/// The working state of a search: a heap to run calls on, the states of the layer that is made, and the orders that
/// lead to states.
#[derive(Drop)]
pub(crate) struct Work<'a> {
    pub(crate) heap: Heap,
    // The values that were overwritten between the opening cells and the heap.
    pub(crate) overwritten: Vec<(usize, Value)>,
    pub(crate) next: Layer<'a>,
    pub(crate) trail: Trail,
    // The number of calls that lead to a state of the layer before.
    pub(crate) depth: usize,
    // Memory for the parts of the next state. Its content does not matter.
    pub(crate) done: Vec<usize>,
    pub(crate) changed: Vec<Change>,
}

/// The state that a call leaves.
#[derive(Drop)]
pub(crate) struct After {
    /// The changes of the cells.
    pub(crate) changes: Vec<Change>,
    /// How the calls ended, by their numbers; empty, if that isn't asked for.
    pub(crate) answers: Vec<Option<value::Outcome>>,
}

/// The reason for which a search ends early.
#[derive(Clone, Copy)]
pub(crate) enum EarlyEnd {
    /// The program has more orders than the limit.
    TooMany,
    /// After the order of this number, the turns don't settle the next call of a thread.
    Beyond { first: usize, thread: usize },
}

impl Search<'_> {
    /// Runs `call` on `heap`. If the turns settle it, returns how it ends, and the heap is the one that it leaves.
    ///
    /// # Errors
    ///
    /// Out of memory.
    pub(crate) fn run(
        &self,
        alloc: Global,
        heap: &mut Heap,
        call: &Call,
    ) -> Result<Option<End>, NoMemory>
        requires search { CanSearch self.now }
        requires heap { HasCells self.now.program.now heap.old }
        requires typed { IsHeap self.now.program.now heap.old }
        requires call { CanCall self.now.program.now call.now.section call.now.arguments.items }
        ensures { IfOk result (Leaves self.now.program.now self.now.turns (invocation call.now) heap.old heap.new) }
    {
        let ended = self
            .prepared
            .run_whole(alloc, call.section, &call.arguments, heap, self.turns)?;
        Ok(ended)
    }
}

impl Work<'_> {
    /// Sets the heap to the cells of `state`.
    ///
    /// # Errors
    ///
    /// Out of memory.
    pub(crate) fn visit(&mut self, alloc: Global, state: &State) -> Result<(), AllocError>
        requires { undone self.old.overwritten.items self.old.heap ≡ self.old.next.opening }
        ensures { OnOk result (Visits self.old self.new state.now) }
    {
        let overwritten = mem::replace(&mut self.overwritten, Vec::new(alloc));
        self.heap.take_back(alloc, overwritten);
        self.overwritten = make_changes(alloc, &mut self.heap, &state.changes)?;
        Ok(())
    }

    /// The changes of the cells after a run that overwrote `then`, in the memory of `memory`.
    fn changes(
        &self,
        alloc: Global,
        memory: Vec<Change>,
        then: &[(usize, Value)],
    ) -> Result<Vec<Change>, AllocError>
        requires long { length self.now.heap ≡ length self.now.next.opening }
        requires writes { undone self.now.overwritten.items (undone then.now self.now.heap) ≡ self.now.next.opening }
        ensures { IfOk result (λ changes. changes.items ≡ changes_of self.now.next.opening self.now.heap) }
    {
        let writes = Writes {
            opening: self.next.opening(),
            first: &self.overwritten,
            then,
        };
        writes.changes(alloc, memory, self.heap.cells())
    }

    /// Adds the state after a call of `thread` to the layer that is made.
    fn put(
        &mut self,
        alloc: Global,
        from: &State,
        thread: usize,
        after: After,
    ) -> Result<(), NoMemory>
        requires thread { thread < length from.now.done.items }
        requires short { slice_index from.now.done.items thread + 1 < 2 ^ 64 }
        requires first { from.now.first < length self.old.trail }
        requires fit { orders_to self.old.next.states + from.now.orders < 2 ^ 64 }
        requires changes { AreChanges self.old.next.opening after.changes.items }
        ensures { OnOk result (Puts self.old self.new from.now thread (left_by self.old.next.opening after)) }
    {
        let After { changes, answers } = after;
        let mut done = mem::replace(&mut self.done, Vec::new(alloc));
        done.clear();
        done.extend_from_slice(&from.done)?;
        done[thread] += 1;
        let place = self.next.place(&done, &changes, &answers);
        self.done = done;
        self.changed = changes;
        match place {
            Place::Found(number) => self.next.add_orders(number, from.orders),
            Place::Free(key) => {
                let first = self.trail.extend(from.first, thread)?;
                let state = State {
                    done: Vec::from_slice(alloc, &self.done)?,
                    changes: Vec::from_slice(alloc, &self.changed)?,
                    answers,
                    orders: from.orders,
                    first,
                };
                self.next.push_by(key, state)?;
            }
        }
        Ok(())
    }
}

impl Search<'_> {
    /// The next call of `thread`, after `done` calls of each thread; `None`, if its script has ended.
    pub(crate) fn next(&self, done: &[usize], thread: usize) -> Option<&Call>
        requires search { CanSearch self.now }
        requires thread { thread < length self.now.program.now.threads.items }
        requires threads { length done.now ≡ length self.now.program.now.threads.items }
        ensures { MatchOption result (next_call self.now.program.now done.now thread ≡ None)
            (λ call. IsNext self.now.program.now done.now thread call.now) }
    {
        self.program.threads[thread].calls.get(done[thread])
    }

    /// Whether `orders` and `more` together are within the limit.
    fn has_room(&self, orders: u64, more: u64) -> bool
        ensures few { MatchBool result (orders + more ≤ self.now.most) (self.now.most < orders + more) }
        ensures fit { IsTrue result → orders + more < 2 ^ 64 }
    {
        let most = self.most;
        match orders.checked_add(more) {
            Some(all) => all <= most,
            None => false,
        }
    }

    /// The number of the call `step` of `thread` among the calls of all threads.
    pub(crate) fn call_number(&self, thread: usize, step: usize) -> usize
        requires search { CanSearch self.now }
        requires thread { thread < length self.now.program.now.threads.items }
        requires step { step < calls_of_thread self.now.program.now.threads.items thread }
        ensures { result ≡ call_number self.now.program.now thread step }
    {
        let mut before = 0;
        for other in &self.program.threads[..thread] {
            before += other.calls.len();
        }
        before + step
    }

    /// Makes the next call of `thread` from the state `from`, if it has one left, and adds the state after it.
    ///
    /// # Errors
    ///
    /// Out of memory.
    pub(crate) fn step(
        &self,
        alloc: Global,
        work: &mut Work<'_>,
        from: &State,
        thread: usize,
    ) -> Result<Option<EarlyEnd>, NoMemory>
        requires search { CanSearch self.now }
        requires work { IsAtWork self.now work.old }
        requires from { IsReached self.now work.old from.now }
        requires there { work.old.heap ≡ (state_in self.now from.now).left.cells }
        requires thread { thread < length self.now.program.now.threads.items }
        ensures steps { IfOk result (Steps self.now work.old work.new (made_by self.now from.now thread)) }
        ensures there { IfOk result (λ stop. IfNone stop (work.new.heap ≡ work.old.heap)) }
    {
        let Some(call) = self.next(&from.done, thread) else {
            return Ok(None);
        };
        let Some(end) = self.run(alloc, &mut work.heap, call)? else {
            return Ok(Some(EarlyEnd::Beyond {
                first: from.first,
                thread,
            }));
        };
        if !self.has_room(work.next.orders(), from.orders) {
            return Ok(Some(EarlyEnd::TooMany));
        }
        let memory = mem::replace(&mut work.changed, Vec::new(alloc));
        let changes = work.changes(alloc, memory, &end.overwritten)?;
        let End {
            outcome,
            overwritten,
            ..
        } = end;
        work.heap.take_back(alloc, overwritten);
        let number = self.call_number(thread, from.done[thread]);
        let answers = answered(alloc, &from.answers, number, outcome)?;
        work.put(alloc, from, thread, After { changes, answers })?;
        Ok(None)
    }

    /// Makes the next call of each thread that has one left.
    fn expand(
        &self,
        alloc: Global,
        work: &mut Work<'_>,
        from: &State,
    ) -> Result<Option<EarlyEnd>, NoMemory>
        requires search { CanSearch self.now }
        requires work { IsAtWork self.now work.old }
        requires from { IsReached self.now work.old from.now }
        ensures { IfOk result (Steps self.now work.old work.new (made_from self.now from.now)) }
    {
        work.visit(alloc, from)?;
        for thread in 0..self.program.threads.len() {
            if let Some(stop) = self.step(alloc, work, from, thread)? {
                return Ok(Some(stop));
            }
        }
        Ok(None)
    }

    /// Makes the next call of each thread that has one left, from each of these states.
    fn expand_all(
        &self,
        alloc: Global,
        work: &mut Work<'_>,
        layer: &Layer<'_>,
    ) -> Result<Option<EarlyEnd>, NoMemory>
        requires search { CanSearch self.now }
        requires work { IsAtWork self.now work.old }
        requires opening { layer.now.opening ≡ opening_heap self.now.program.now }
        requires layer { AreReached self.now work.old layer.now.states }
        ensures { IfOk result (Steps self.now work.old work.new (made_from_all self.now layer.now.states)) }
    {
        for number in 0..layer.len() {
            if let Some(stop) = self.expand(alloc, work, layer.get(number))? {
                return Ok(Some(stop));
            }
        }
        Ok(None)
    }
}

/// Whether all groups are equal.
fn are_one(groups: &[usize]) -> bool
    ensures { IsTrue result → IsOneGroup groups.now }
{
    for thread in 0..groups.len() {
        if groups[thread] != groups[0] {
            return false;
        }
    }
    true
}

/// The outcomes with that of call `number`; unchanged, if they have no place for it.
///
/// # Errors
///
/// Out of memory.
pub(crate) fn answered(
    alloc: Global,
    answers: &[Option<value::Outcome>],
    number: usize,
    outcome: value::Outcome,
) -> Result<Vec<Option<value::Outcome>>, AllocError>
    ensures { IfOk result (λ after. after.items ≡ slice_set answers.now number (Some outcome)) }
{
    if answers.is_empty() {
        return Ok(Vec::new(alloc));
    }
    let mut after = Vec::from_slice(alloc, answers)?;
    if number < after.len() {
        after[number] = Some(outcome);
    }
    Ok(after)
}

/// The states of `layer` as ends, with the orders of `trail`.
///
/// # Errors
///
/// Out of memory.
pub(crate) fn told(
    alloc: Global,
    layer: &Layer<'_>,
    trail: &Trail,
) -> Result<Vec<FinalState>, NoMemory>
    requires { FirstsAre trail.now layer.now.states }
    ensures { IfOk result (λ ends. map told_of ends.items ≡ map (as_told trail.now) layer.now.states) }
{
    let mut ends = Vec::new(alloc);
    for number in 0..layer.len() {
        let state = layer.get(number);
        ends.push(FinalState {
            cells: cells_of(alloc, layer.opening(), &state.changes)?,
            answers: Vec::from_slice(alloc, &state.answers)?,
            count: state.orders,
            order: trail.order(alloc, state.first)?,
        })?;
    }
    Ok(ends)
}

impl Search<'_> {
    /// The number of calls of all threads.
    pub(crate) fn calls(&self) -> usize
        requires { CanSearch self.now }
        ensures { result ≡ calls_together self.now.program.now.threads.items }
    {
        let mut count = 0;
        for thread in &self.program.threads {
            count += thread.calls.len();
        }
        count
    }

    /// The outcomes before the first call.
    ///
    /// # Errors
    ///
    /// Out of memory.
    pub(crate) fn no_answers(
        &self,
        alloc: Global,
    ) -> Result<Vec<Option<value::Outcome>>, AllocError>
        requires { CanSearch self.now }
        ensures { IfOk result (λ answers. answers.items ≡ no_answers self.now.asked.now.answers self.now.program.now) }
    {
        if self.asked.answers {
            return vec![in alloc; None; self.calls()];
        }
        Ok(Vec::new(alloc))
    }

    /// The layer of the state in which no call is done.
    ///
    /// # Errors
    ///
    /// Out of memory.
    pub(crate) fn opening<'a>(
        &self,
        alloc: Global,
        opening: &'a [Value],
    ) -> Result<Layer<'a>, NoMemory>
        requires search { CanSearch self.now }
        requires opening { opening.now ≡ opening_heap self.now.program.now }
        ensures states { IfOk result (λ layer. layer.states ≡ opening_state self.now ∷ []) }
        ensures opening { IfOk result (λ layer. layer.opening ≡ opening.now) }
    {
        let mut layer = Layer::new(alloc, self.hashing, opening);
        layer.push(State {
            done: vec![in alloc; 0; self.program.threads.len()]?,
            changes: Vec::new(alloc),
            answers: self.no_answers(alloc)?,
            orders: 1,
            first: 0,
        })?;
        Ok(layer)
    }

    /// The ends of all orders, or an unsettled call. `None` means that the program has more orders than the limit.
    fn all(&self, alloc: Global) -> Result<Option<Found>, NoMemory>
        requires { CanSearch self.now }
        ensures { IfOk result (FindsOrHasMore self.now) }
    {
        laws::whole_within_some_turns();
        laws::settled_are_serial();
        laws::at_most_one_serial();
        let heap = Heap::open(alloc, self.program)?;
        let opening = Vec::from_slice(alloc, heap.cells())?;
        let mut layer = self.opening(alloc, &opening)?;
        let mut work = Work {
            heap,
            overwritten: Vec::new(alloc),
            next: Layer::new(alloc, self.hashing, &opening),
            trail: Trail::new(alloc),
            depth: 0,
            done: Vec::new(alloc),
            changed: Vec::new(alloc),
        };
        let calls = self.calls();
        for depth in 0..calls {
            work.depth = depth;
            match self.expand_all(alloc, &mut work, &layer)? {
                None => {}
                Some(EarlyEnd::TooMany) => return Ok(None),
                Some(EarlyEnd::Beyond { first, thread }) => {
                    let order = work.trail.order(alloc, first)?;
                    return Ok(Some(Found::Unsettled { order, thread }));
                }
            }
            layer = mem::replace(&mut work.next, Layer::new(alloc, self.hashing, &opening));
        }
        let ends = self.ends_of(alloc, &mut work, &layer)?;
        let configurations = work.trail.len();
        Ok(Some(Found::All {
            ends,
            configurations,
        }))
    }

    /// The ends of all orders, found by orders that stand for all, or an unsettled call. `None` means that these are
    /// more than the limit.
    ///
    /// If all threads are in one group, these are all orders, which are more than the limit.
    fn by_groups(&self, alloc: Global, groups: &[usize]) -> Result<Option<Found>, NoMemory>
        requires search { CanSearch self.now }
        requires groups { AreIndependent self.now.program.now groups.now }
        requires more { self.now.most < length (orders self.now.program.now) }
        ensures { IfOk result (FindsOrLeavesMore self.now groups.now) }
    {
        if are_one(groups) {
            return Ok(None);
        }
        self.reduced(alloc, groups)
    }

    /// The ends of all orders, if all of them, or some that stand for all, are within the limit. Otherwise the ends of
    /// orders that are drawn from `seed`, as many as the limit. No clause says which are drawn.
    ///
    /// Each end is reported once, with one order that leads to it and, if all orders were run or some were drawn, the
    /// number of these that do. If some orders stand for all, each end is reported with one of them. A call that the
    /// turns don't settle is reported with an order after which it is the next one.
    ///
    /// # Errors
    ///
    /// Out of memory.
    pub fn ends(&self, alloc: Global, seed: u64) -> Result<Found, NoMemory>
        requires { CanSearch self.now }
        ensures { IfOk result (Finds self.now.program.now self.now.turns self.now.most self.now.asked.now) }
    {
        if let Some(found) = self.all(alloc)? {
            return Ok(found);
        }
        let groups = groups(alloc, self.program, self.prepared.written())?;
        match self.by_groups(alloc, &groups)? {
            Some(found) => Ok(found),
            None => self.drawn(alloc, seed),
        }
    }
}
