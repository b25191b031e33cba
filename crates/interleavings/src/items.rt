//! The turns of the items of a steps file.

ghost use Rattle.std.specs.Prelude.{◌≡◌, ◌≤◌, ⊤, ℕ, length, drop, replicate, true, IfOk, OnOk, OnErr, MatchOption};
ghost use Rattle.input_files.specs.Steps.{Answers, IfFault};
ghost use Rattle.interleavings.specs.Items.{is_idle, is_stopped, until_stop, until_call_end, steps_until, turns_of};
ghost use Rattle.interleavings.specs.Working.Found.{is_end, Stops, Takes, is_counted, are_counted, count_within, Adds, IsTooMuch};
ghost use Rattle.interleavings.specs.Working.Found.{RunsItems, RunsFromOpening, RunIsTooMuch, CountsItems, CountIsTooMuch};
ghost use Rattle.interleavings.specs.Threads.{at_opening, with_steps, StopsAtBegin};

use crate::status::ThreadStatus;
use crate::world::World;
use input_files::item::{Item, Until};
use input_files::steps_refusal::{StepsCode, StepsFault, StepsRefusal};
use input_files::turn::Turn;
use lowering::compiled::Program;
use source::limits;
use source::memory::NoMemory;
use std::alloc::Global;
use worlds::event::Event;

// The most steps of a file.
const STEP_LIMIT: usize = limits::STEP_LIMIT as usize;

fn is_idle(status: ThreadStatus) -> bool
    ensures { result ≡ is_idle status }
{
    match status {
        ThreadStatus::Idle => true,
        ThreadStatus::Ready | ThreadStatus::Waits(_, _) | ThreadStatus::Running => false,
    }
}

fn is_stopped(status: ThreadStatus) -> bool
    ensures { result ≡ is_stopped status }
{
    match status {
        ThreadStatus::Idle | ThreadStatus::Waits(_, _) => true,
        ThreadStatus::Ready | ThreadStatus::Running => false,
    }
}

fn is_end(event: Event) -> bool
    ensures { result ≡ is_end event }
{
    match event {
        Event::Ended(_) => true,
        Event::Idle | Event::Began | Event::Got(_) | Event::Waits(_, _) | Event::Moved => false,
    }
}

impl World<'_> {
    // Takes the steps of `T!` and returns their number, if it is at most `most`. If it is more, some are taken.
    fn until_stop(
        &mut self,
        alloc: Global,
        thread: u32,
        left: usize,
    ) -> Result<Option<usize>, NoMemory>
        ensures count { IfOk result (λ count. count ≡ until_stop self.old.plan thread left self.old.world) }
        ensures within { IfOk result (λ count. MatchOption count ⊤ (λ n. n ≤ left)) }
        ensures world { IfOk result (λ count. Takes thread count self.old self.new) }
        ensures err { OnErr result (Stops thread self.old self.new) }
    {
        let mut count = 0;
        'steps: loop {
            if is_stopped(self.state(thread)) {
                return Ok(Some(count));
            }
            if count == left {
                return Ok(None);
            }
            let event = self.step(alloc, thread)?;
            count += 1;
            if is_end(event) {
                return Ok(Some(count));
            }
            count += self.run_on(thread, left - count);
        }
    }

    // Takes the steps of `T+` in the same way.
    fn until_call_end(
        &mut self,
        alloc: Global,
        thread: u32,
        left: usize,
    ) -> Result<Option<usize>, NoMemory>
        ensures count { IfOk result (λ count. count ≡ until_call_end self.old.plan thread left self.old.world) }
        ensures within { IfOk result (λ count. MatchOption count ⊤ (λ n. n ≤ left)) }
        ensures world { IfOk result (λ count. Takes thread count self.old self.new) }
        ensures err { OnErr result (Stops thread self.old self.new) }
    {
        if is_idle(self.state(thread)) {
            return Ok(Some(0));
        }
        if left == 0 {
            return Ok(None);
        }
        let event = self.step(alloc, thread)?;
        if is_end(event) {
            return Ok(Some(1));
        }
        match self.until_stop(alloc, thread, left - 1)? {
            None => Ok(None),
            Some(more) => Ok(Some(1 + more)),
        }
    }

    /// Takes the steps of an item and returns their number, if it is at most `most`. If it is more, some are taken.
    ///
    /// # Errors
    ///
    /// Out of memory, only for a step that would begin a call. The world is then that before this step.
    pub fn steps_until(
        &mut self,
        alloc: Global,
        item: Item,
        left: usize,
    ) -> Result<Option<usize>, NoMemory>
        ensures count { IfOk result
            (λ count. count ≡ steps_until self.old.plan item.thread left self.old.world item.until) }
        ensures within { IfOk result (λ count. MatchOption count ⊤ (λ n. n ≤ left)) }
        ensures world { IfOk result (λ count. MatchOption count ⊤ (λ n.
            self.new ≡ with_steps self.old (replicate n item.thread))) }
        ensures err { OnErr result ((n : ℕ) × StopsAtBegin self.old (replicate n item.thread) self.new) }
    {
        let thread = item.thread;
        match item.until {
            Until::Stop => self.until_stop(alloc, thread, left),
            Until::CallEnd => self.until_call_end(alloc, thread, left),
            Until::Count(count) => {
                if count > left {
                    return Ok(None);
                }
                self.take(alloc, Turn { thread, count })?;
                Ok(Some(count))
            }
        }
    }
}

// Whether the item counts its steps, so that no run is needed.
fn is_counted(until: Until) -> bool
    ensures { result ≡ is_counted until }
{
    match until {
        Until::Count(_) => true,
        Until::Stop | Until::CallEnd => false,
    }
}

/// The number of items up to the last one whose steps only a run can find.
fn uncounted_len(items: &[Item]) -> usize
    ensures within { result ≤ length items.now }
    ensures rest { are_counted (drop result items.now) ≡ true }
{
    let mut len = items.len();
    while len > 0 && is_counted(items[len - 1].until) {
        len -= 1;
    }
    len
}

// The number of steps that an item counts, if at least that many are left.
fn count_within(until: Until, left: usize) -> Option<usize>
    ensures count { result ≡ count_within left until }
    ensures within { MatchOption result ⊤ (λ n. n ≤ left) }
{
    match until {
        Until::Count(count) if count <= left => Some(count),
        Until::Count(_) | Until::Stop | Until::CallEnd => None,
    }
}

/// The turns that were found, and the number of steps left.
#[derive(Drop)]
struct Finder {
    turns: Vec<Turn>,
    left: usize,
}

impl Finder {
    // Adds the turn of an item, with this number of steps, or the fault that they are too many.
    fn add(&mut self, item: Item, count: Option<usize>) -> Result<(), StepsRefusal>
        requires { MatchOption count ⊤ (λ n. n ≤ self.old.left) }
        ensures ok { OnOk result (Adds item count self.old self.new) }
        ensures fault { IfFault result (IsTooMuch item count) }
    {
        let Some(count) = count else {
            return Err(StepsRefusal::Fault(StepsFault {
                code: StepsCode::TooManySteps,
                start: item.start,
            }));
        };
        self.turns.push(Turn {
            thread: item.thread,
            count,
        })?;
        self.left -= count;
        Ok(())
    }

    // Adds the turns of items, whose steps are taken.
    fn run(
        &mut self,
        alloc: Global,
        world: &mut World<'_>,
        items: &[Item],
    ) -> Result<(), StepsRefusal>
        ensures ok { OnOk result (RunsItems items.now self.old world.old self.new world.new) }
        ensures fault { IfFault result (RunIsTooMuch items.now self.old world.old) }
    {
        for item in items {
            let count = world.steps_until(alloc, *item, self.left)?;
            match self.add(*item, count) {
                Ok(()) => {}
                Err(refusal) => return Err(refusal),
            }
        }
        Ok(())
    }

    // Adds the turns of items, whose steps are taken from the opening world on. The world is made only if there are
    // items.
    fn run_from_opening(
        &mut self,
        alloc: Global,
        program: &Program,
        items: &[Item],
    ) -> Result<(), StepsRefusal>
        ensures ok { OnOk result (RunsFromOpening program.now items.now self.old self.new) }
        ensures fault { IfFault result (RunIsTooMuch items.now self.old (at_opening program.now)) }
    {
        if items.is_empty() {
            return Ok(());
        }
        let mut world = World::open(alloc, program)?;
        self.run(alloc, &mut world, items)
    }

    // Adds the turns of items that count their steps.
    fn count(&mut self, items: &[Item]) -> Result<(), StepsRefusal>
        ensures ok { OnOk result (CountsItems items.now self.old self.new) }
        ensures fault { IfFault result (CountIsTooMuch items.now self.old) }
    {
        for item in items {
            match self.add(*item, count_within(item.until, self.left)) {
                Ok(()) => {}
                Err(refusal) => return Err(refusal),
            }
        }
        Ok(())
    }
}

/// The turns of the items from the opening world, one for each. Up to the last `T!` or `T+` the items are run here, and
/// once more by the caller that takes the turns: claims about runs are about turns only. If each item counts its steps,
/// no world is made.
///
/// # Errors
///
/// `S3` at the first item with which the file has more than 10,000,000 steps; or out of memory, which is also possible
/// where a call would begin.
pub fn turns_of(alloc: Global, program: &Program, items: &[Item]) -> Result<Vec<Turn>, StepsRefusal>
    ensures { Answers result (turns_of program.now items.now) }
{
    let mut finder = Finder {
        turns: Vec::new(alloc),
        left: STEP_LIMIT,
    };
    let len = uncounted_len(items);
    match finder.run_from_opening(alloc, program, &items[..len]) {
        Ok(()) => {}
        Err(refusal) => return Err(refusal),
    }
    match finder.count(&items[len..]) {
        Ok(()) => {}
        Err(refusal) => return Err(refusal),
    }
    let Finder { turns, left: _ } = finder;
    Ok(turns)
}
