//! Items that make threads wait for each other.

ghost use Rattle.std.specs.Prelude.{◌≡◌, ◌<◌, ◌≤◌, ⊤, IfOk, MatchOption, List, Ok, length};
ghost use Rattle.std.specs.Option.{option_map};
ghost use Rattle.interleavings.specs.Items.{steps_until, turns_of};
ghost use Rattle.interleavings.specs.Rivals.{can_go, first_to_go, followed_by, is_on_way, leader, led_by, next_of};
ghost use Rattle.interleavings.specs.Rivals.{rivals_of, threads_in, to_lock};
ghost use Rattle.interleavings.specs.Schedules.{AreOfThreads, counted_in};
ghost use Rattle.interleavings.specs.Working.Contests.{Comes, Finds, IsWithin, Takes};
ghost use Rattle.input_files.specs.Steps.{counted, STEP_LIMIT};
ghost use Rattle.input_files.specs.declared.turn.Turn.{Turn};

use crate::status::ThreadStatus;
use crate::world::World;
use input_files::item::{Item, Until};
use lowering::compiled::Program;
use source::limits;
use source::memory::NoMemory;
use std::alloc::Global;
use worlds::event::Event;

/// The most steps of a steps file.
const STEP_LIMIT: usize = limits::STEP_LIMIT as usize;

/// The stage of a round.
#[derive(Clone, Copy, PartialEq, Eq, Debug)]
pub enum Stage {
    /// A new round: of the first thread from this one on that can go on.
    Round(u32),
    /// In the round of the first of these two threads: each other thread from the second one on, and then the first
    /// again.
    Others(u32, u32),
}

/// The next item.
#[derive(Clone, Copy, PartialEq, Eq, Debug)]
pub struct NextItem {
    /// The item.
    pub item: Item,
    /// The number of its steps.
    pub count: usize,
    /// The stage after it.
    pub after: Stage,
}

/// The world after the items so far.
#[derive(Drop)]
struct Contest<'p> {
    world: World<'p>,
    /// The number of steps left.
    left: usize,
    stage: Stage,
}

/// Whether a step with this event leaves its thread on the way to its next lock.
fn is_on_way(event: Event) -> bool
    ensures { result ≡ is_on_way event }
{
    match event {
        Event::Began | Event::Moved => true,
        Event::Idle | Event::Got(_) | Event::Waits(_, _) | Event::Ended(_) => false,
    }
}

/// An item of a thread.
fn item(thread: u32, until: Until) -> Item
    ensures { result ≡ record { thread = thread; until = until; start = 0 } }
{
    Item {
        thread,
        until,
        start: 0,
    }
}

impl Contest<'_> {
    /// The number of threads.
    fn threads(&self) -> u32
        ensures { result ≡ threads_in self.now.world.plan }
    {
        self.world.program().threads()
    }

    /// Whether a step gets a thread on.
    fn can_go(&self, thread: u32) -> bool
        ensures { result ≡ can_go self.now.world.plan self.now.world.world thread }
    {
        match self.world.state(thread) {
            ThreadStatus::Ready | ThreadStatus::Running => true,
            ThreadStatus::Idle | ThreadStatus::Waits(_, _) => false,
        }
    }

    /// The first thread from `from` on, except `besides`, that can go on.
    fn first(&self, besides: u32, from: u32) -> Option<u32>
        ensures first { result ≡ first_to_go self.now.world.plan self.now.world.world besides from }
        ensures within { MatchOption result ⊤ (λ t. t < threads_in self.now.world.plan) }
    {
        let threads = self.threads();
        'threads: for thread in from..threads {
            if thread != besides && self.can_go(thread) {
                return Some(thread);
            }
        }
        None
    }

    /// The thread of the next round.
    fn leader(&self, from: u32) -> Option<u32>
        ensures leader { result ≡ leader self.now.world.plan self.now.world.world from }
        ensures within { MatchOption result ⊤ (λ t. t < threads_in self.now.world.plan) }
    {
        let threads = self.threads();
        match self.first(threads, from) {
            Some(thread) => Some(thread),
            None => self.first(threads, 0),
        }
    }

    /// Takes a thread's steps up to the first one by which it gets a lock, waits, ends its call or is idle, and returns
    /// their number, if at least that many are left.
    fn to_lock(&mut self, alloc: Global, thread: u32) -> Result<Option<usize>, NoMemory>
        ensures count { IfOk result (λ count.
            count ≡ to_lock self.old.world.plan thread self.old.left self.old.world.world) }
        ensures takes { IfOk result (λ count. MatchOption count ⊤ (λ n. Takes thread n self.old self.new)) }
    {
        let left = self.left;
        let mut count = 0;
        'steps: while count < left {
            let event = self.world.step(alloc, thread)?;
            count += 1;
            if !is_on_way(event) {
                return Ok(Some(count));
            }
        }
        Ok(None)
    }

    /// Begins a round.
    fn lead(&mut self, alloc: Global, from: u32) -> Result<Option<NextItem>, NoMemory>
        ensures { IfOk result (Finds (led_by self.old.world.plan self.old.left self.old.world.world
            (leader self.old.world.plan self.old.world.world from)) self.old self.new) }
    {
        let Some(thread) = self.leader(from) else {
            return Ok(None);
        };
        let Some(count) = self.to_lock(alloc, thread)? else {
            return Ok(None);
        };
        Ok(Some(NextItem {
            item: item(thread, Until::Count(count)),
            count,
            after: Stage::Others(thread, 0),
        }))
    }

    /// Goes on with a thread in a round.
    fn follow(
        &mut self,
        alloc: Global,
        thread: u32,
        from: u32,
    ) -> Result<Option<NextItem>, NoMemory>
        requires { thread < threads_in self.old.world.plan }
        ensures { IfOk result (Finds (followed_by self.old.world.plan self.old.left self.old.world.world thread
            (first_to_go self.old.world.plan self.old.world.world thread from)) self.old self.new) }
    {
        // Read for its range.
        let _shown = self.threads();
        match self.first(thread, from) {
            Some(other) => self.go(
                alloc,
                item(other, Until::Stop),
                Stage::Others(thread, other + 1),
            ),
            None => self.go(
                alloc,
                item(thread, Until::CallEnd),
                Stage::Round(thread + 1),
            ),
        }
    }

    /// Takes the steps of the next item.
    fn go(&mut self, alloc: Global, item: Item, after: Stage) -> Result<Option<NextItem>, NoMemory>
        requires thread { item.thread < threads_in self.old.world.plan }
        requires after { IsWithin (threads_in self.old.world.plan) after }
        requires counts { counted item.until ≡ 0 }
        requires start { item.start ≡ 0 }
        ensures { IfOk result (Finds (option_map (next_of item.thread item.until after)
            (steps_until self.old.world.plan item.thread self.old.left self.old.world.world item.until))
            self.old self.new) }
    {
        let Some(count) = self.world.steps_until(alloc, item, self.left)? else {
            return Ok(None);
        };
        Ok(Some(NextItem { item, count, after }))
    }

    /// Takes the steps of the next item, if there is one.
    fn next(&mut self, alloc: Global) -> Result<Option<Item>, NoMemory>
        requires { IsWithin (threads_in self.old.world.plan) self.old.stage }
        ensures { IfOk result (Comes self.old self.new) }
    {
        let next = match self.stage {
            Stage::Round(from) => self.lead(alloc, from)?,
            Stage::Others(thread, from) => self.follow(alloc, thread, from)?,
        };
        let Some(NextItem { item, count, after }) = next else {
            return Ok(None);
        };
        self.left -= count;
        self.stage = after;
        Ok(Some(item))
    }
}

/// At most `most` items that make threads wait for each other: round after round, in each of which one thread goes to
/// its next lock, each other as far as it can, and then the first to the end of its call. The items give turns: they
/// have at most as many steps as a steps file may have.
///
/// # Errors
///
/// Out of memory.
pub fn rivals(alloc: Global, program: &Program, most: usize) -> Result<Vec<Item>, NoMemory>
    ensures items { IfOk result (λ items. items.items ≡ rivals_of program.now most) }
    ensures threads { IfOk result (λ items. AreOfThreads program.now.program items.items) }
    ensures few { IfOk result (λ items. length items.items ≤ most) }
    ensures steps { IfOk result (λ items. counted_in items.items ≤ STEP_LIMIT) }
    ensures taken { IfOk result (λ items. (turns : List Turn) × (turns_of program.now items.items ≡ Ok turns)) }
{
    let mut contest = Contest {
        world: World::open(alloc, program)?,
        left: STEP_LIMIT,
        stage: Stage::Round(0),
    };
    let mut items = Vec::new(alloc);
    'items: while items.len() < most {
        match contest.next(alloc)? {
            Some(item) => items.push(item)?,
            None => return Ok(items),
        }
    }
    Ok(items)
}
