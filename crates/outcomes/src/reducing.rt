//! The search over some of the orders, which stand for all (partial-order reduction).

ghost use Rattle.std.specs.Prelude.{◌≡◌, ◌<◌, [], length, map, IfOk};
ghost use Rattle.core_lang.specs.Serial.{opening_heap};
ghost use Rattle.core_lang.specs.Typing.{HasCells};
ghost use Rattle.core_lang.specs.WellFormed.{calls_together};
ghost use Rattle.outcomes.specs.Commuting.{AreIndependent};
ghost use Rattle.outcomes.specs.Ends.{told_of};
ghost use Rattle.outcomes.specs.Orders.{orders};
ghost use Rattle.outcomes.specs.Working.Steps.{CanSearch, IsAtWork, IsReached, AreReached, Steps, state_in};
ghost use Rattle.outcomes.specs.Working.Reducing.{first_ready, reduced_from, reduced_from_all, FindsOrLeavesMore};

use crate::layer::Layer;
use crate::outcome::Found;
use crate::search::{EarlyEnd, Search, Work};
use crate::state::State;
use crate::trail::Trail;
use core_lang::laws;
use meaning::heap::Heap;
use source::memory::NoMemory;
use std::alloc::Global;
use std::mem;

impl Search<'_> {
    /// The first thread that has a call left.
    fn first_ready(&self, done: &[usize]) -> Option<usize>
        requires search { CanSearch self.now }
        requires threads { length done.now ≡ length self.now.program.now.threads.items }
        ensures { result ≡ first_ready self.now.program.now done.now (length self.now.program.now.threads.items) }
    {
        for thread in 0..self.program.threads.len() {
            if let Some(_next) = self.next(done, thread) {
                return Some(thread);
            }
        }
        None
    }

    /// Makes the next call of each thread of the first group that has a call left.
    fn expand_group(
        &self,
        alloc: Global,
        work: &mut Work<'_>,
        from: &State,
        groups: &[usize],
    ) -> Result<Option<EarlyEnd>, NoMemory>
        requires search { CanSearch self.now }
        requires work { IsAtWork self.now work.old }
        requires from { IsReached self.now work.old from.now }
        requires groups { length groups.now ≡ length self.now.program.now.threads.items }
        ensures { IfOk result
            (Steps self.now work.old work.new (reduced_from self.now groups.now (state_in self.now from.now))) }
    {
        let Some(first) = self.first_ready(&from.done) else {
            return Ok(None);
        };
        let group = groups[first];
        work.visit(alloc, from)?;
        for thread in 0..self.program.threads.len() {
            if groups[thread] == group {
                if let Some(stop) = self.step(alloc, work, from, thread)? {
                    return Ok(Some(stop));
                }
            }
        }
        Ok(None)
    }

    /// Makes these calls from each state of `layer`.
    fn expand_groups(
        &self,
        alloc: Global,
        work: &mut Work<'_>,
        layer: &Layer<'_>,
        groups: &[usize],
    ) -> Result<Option<EarlyEnd>, NoMemory>
        requires search { CanSearch self.now }
        requires work { IsAtWork self.now work.old }
        requires opening { layer.now.opening ≡ opening_heap self.now.program.now }
        requires layer { AreReached self.now work.old layer.now.states }
        requires groups { length groups.now ≡ length self.now.program.now.threads.items }
        ensures { IfOk result
            (Steps self.now work.old work.new (reduced_from_all self.now groups.now layer.now.states)) }
    {
        for number in 0..layer.len() {
            if let Some(stop) = self.expand_group(alloc, work, layer.get(number), groups)? {
                return Ok(Some(stop));
            }
        }
        Ok(None)
    }

    /// The ends of all orders, found by the orders in which each group's calls come before the next group's, or an
    /// unsettled call. `None` means that these orders are more than the limit.
    ///
    /// # Errors
    ///
    /// Out of memory.
    pub(crate) fn reduced(&self, alloc: Global, groups: &[usize]) -> Result<Option<Found>, NoMemory>
        requires search { CanSearch self.now }
        requires groups { AreIndependent self.now.program.now groups.now }
        requires more { self.now.most < length (orders self.now.program.now) }
        ensures { IfOk result (FindsOrLeavesMore self.now groups.now) }
    {
        laws::whole_within_some_turns();
        laws::settled_are_serial();
        laws::at_most_one_serial();
        let heap = Heap::open(alloc, self.program)?;
        let opening = Vec::from_slice(alloc, heap.cells())?;
        let mut layer = self.opening(alloc, &opening)?;
        let mut work = Work {
            heap,
            overwritten: Vec::new(alloc),
            next: Layer::new(alloc, self.hashing, &opening),
            trail: Trail::new(alloc),
            depth: 0,
            done: Vec::new(alloc),
            changed: Vec::new(alloc),
        };
        let calls = self.calls();
        for depth in 0..calls {
            work.depth = depth;
            match self.expand_groups(alloc, &mut work, &layer, groups)? {
                None => {}
                Some(EarlyEnd::TooMany) => return Ok(None),
                Some(EarlyEnd::Beyond { first, thread }) => {
                    let order = work.trail.order(alloc, first)?;
                    return Ok(Some(Found::Unsettled { order, thread }));
                }
            }
            layer = mem::replace(&mut work.next, Layer::new(alloc, self.hashing, &opening));
        }
        let ends = self.ends_of(alloc, &mut work, &layer)?;
        let configurations = work.trail.len();
        Ok(Some(Found::Reduced {
            ends,
            configurations,
        }))
    }
}
