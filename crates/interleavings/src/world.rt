//! Worlds of threads that run in turns.

ghost use Rattle.std.specs.Prelude.{◌≡◌, ◌≤◌, replicate, IfOk, OnOk, OnErr};
ghost use Rattle.worlds.specs.Worlds.{happens};
ghost use Rattle.worlds.specs.declared.event.Event.TheVariants.{Began};
ghost use Rattle.worlds.specs.Claims.{Headline};
ghost use Rattle.interleavings.specs.Threads.{cell_in, at_opening, after_steps, with_steps, StopsAtBegin};
ghost use Rattle.interleavings.specs.Statuses.{status_of};
ghost use Rattle.interleavings.specs.Coming.{coming_to};
ghost use Rattle.interleavings.specs.Working.Found.{AreMoves};
ghost use Rattle.input_files.specs.Turns.{steps_of};

use crate::coming::Coming;
use crate::state::TypedState;
use crate::status::ThreadStatus;
use crate::stepping::{all_ready, coming, put, state_of, status, step};
use core_lang::value::Value;
use history::entries::History;
use input_files::turn::Turn;
use lock_manager::manager::Manager;
use lowering::compiled::Program;
use source::memory::NoMemory;
use std::alloc::Global;
use std::marker::Model;
use std::mem;
use worlds::event::Event;

/// The threads of a compiled program, each with its state, and the manager of its locks. Its model is the program's
/// plan and a world.
pub struct World<'p> {
    program: &'p Program,
    manager: Manager<'p>,
    // The state of each thread.
    states: Vec<TypedState<'p>>,
}

impl<'p> Model for World<'p> {
    ghost use Rattle.core_lang.specs.contracts.tree.Action as action;
    ghost use Rattle.core_lang.specs.contracts.tree.Expr as expr;
    ghost use Rattle.core_lang.specs.contracts.tree.Condition as condition;
    ghost use Rattle.std.specs.Coded.{codes};
    ghost use Rattle.interleavings.specs.Threads.{ThreadsOf};

    ghost Value = { ThreadsOf };

    ghost coded = { Prim.hlevel (codes, action.the_row.coded, expr.the_row.coded, condition.the_row.coded) };

    ghost use Rattle.interleavings.specs.Working.States.{world_of, IsTied};

    ghost view = { λ w. record { plan = w.program.now; world = world_of w.manager w.states.items } };

    ghost invariant = { λ w. IsTied w.program.now w.manager w.states.items };
}

impl<'p> World<'p> {
    /// The world before any step: all cells with their initial values, no history, and no section open.
    ///
    /// # Errors
    ///
    /// Out of memory.
    pub fn open(alloc: Global, program: &'p Program) -> Result<World<'p>, NoMemory>
        ensures { IfOk result (λ w. w ≡ at_opening program.now) }
    {
        worlds::laws::steps_keep_sound();
        worlds::laws::worlds_stay_ready();
        history::laws::one_entry_more();
        let typed = program.expanded();
        let manager = Manager::open(alloc, program.layout(), program.ranks())?;
        manager.keeps_its_rules();
        let states = all_ready(alloc, typed.threads.len())?;
        Ok(World {
            program,
            manager,
            states,
        })
    }

    /// Takes one step of a thread, as `happens` defines it. A step of an unknown thread is `Idle`.
    ///
    /// # Errors
    ///
    /// Out of memory, only if the step begins a call. All is then as it was.
    pub fn step(&mut self, alloc: Global, thread: u32) -> Result<Event, NoMemory>
        ensures ok { IfOk result (λ event. happens self.old.plan self.old.world thread ≡ (event, self.new.world)) }
        ensures plan { self.new.plan ≡ self.old.plan }
        ensures err { OnErr result (self.new ≡ self.old) }
        ensures begins { OnErr result ((happens self.old.plan self.old.world thread).0 ≡ Began) }
    {
        worlds::laws::steps_keep_sound();
        worlds::laws::worlds_stay_ready();
        locks::laws::precedes_is_strict();
        moved_cells::laws::slots_are_cells();
        history::laws::one_entry_more();
        let program = self.program;
        let thread = thread as usize;
        if thread >= self.states.len() {
            return Ok(Event::Idle);
        }
        self.manager.keeps_its_rules();
        let state = mem::replace(&mut self.states[thread], TypedState::Away);
        let (next, event) = step(alloc, program, &mut self.manager, state);
        self.manager.keeps_its_rules();
        put(&mut self.states[thread], next);
        event
    }

    // Takes steps of a thread as long as they are instructions of its open section, at most `most`. Returns their
    // number.
    pub(crate) fn run_on(&mut self, thread: u32, most: usize) -> usize
        ensures steps { self.new ≡ with_steps self.old (replicate result thread) }
        ensures within { result ≤ most }
        ensures moves { AreMoves self.old thread result }
    {
        worlds::laws::steps_keep_sound();
        worlds::laws::worlds_stay_ready();
        locks::laws::precedes_is_strict();
        history::laws::one_entry_more();
        let thread = thread as usize;
        if most == 0 || thread >= self.states.len() {
            return 0;
        }
        let TypedState::Running(_) = &self.states[thread] else {
            return 0;
        };
        self.manager.keeps_its_rules();
        let state = mem::replace(&mut self.states[thread], TypedState::Away);
        let TypedState::Running(running) = state else {
            unreachable!()
        };
        let (count, next) = running.run(most);
        put(&mut self.states[thread], state_of(next));
        count
    }

    // Takes the steps of a turn.
    pub(crate) fn take(&mut self, alloc: Global, turn: Turn) -> Result<(), NoMemory>
        ensures ok { OnOk result (self.new ≡ with_steps self.old (replicate turn.count turn.thread)) }
        ensures err { OnErr result (StopsAtBegin self.old (replicate turn.count turn.thread) self.new) }
    {
        let mut left = turn.count;
        while left > 0 {
            self.step(alloc, turn.thread)?;
            left -= 1;
            left -= self.run_on(turn.thread, left);
        }
        Ok(())
    }

    /// Takes these turns, one after another.
    ///
    /// # Errors
    ///
    /// Out of memory, only for a step that would begin a call. The world is then that before this step.
    pub fn take_turns(&mut self, alloc: Global, turns: &[Turn]) -> Result<(), NoMemory>
        ensures ok { OnOk result (self.new ≡ with_steps self.old (steps_of turns.now)) }
        ensures err { OnErr result (StopsAtBegin self.old (steps_of turns.now) self.new) }
    {
        for turn in turns {
            self.take(alloc, *turn)?;
        }
        Ok(())
    }

    /// The program.
    #[inline]
    pub fn program(&self) -> &'p Program
        ensures { result.now ≡ self.now.plan }
    {
        self.program
    }

    /// The entries of the sections that ended, in the order of their ends.
    pub fn history(&self) -> &History
        ensures { result.now.commits ≡ self.now.world.history }
    {
        self.manager.history()
    }

    /// The value of a cell, unless a section holds it.
    pub fn cell(&self, cell: usize) -> Option<Value>
        ensures { result ≡ cell_in self.now.world cell }
    {
        self.manager.cell(cell)
    }

    /// The status of a thread.
    pub fn state(&self, thread: u32) -> ThreadStatus
        ensures { result ≡ status_of self.now.plan self.now.world thread }
    {
        self.manager.keeps_its_rules();
        match self.states.get(thread as usize) {
            None => ThreadStatus::Idle,
            Some(state) => status(self.program, &self.manager, state),
        }
    }

    /// What a thread's next step does.
    pub fn coming(&self, thread: u32) -> Coming
        ensures { result ≡ coming_to self.now.world thread }
    {
        let Some(state) = self.states.get(thread as usize) else {
            return Coming::Other;
        };
        coming(state)
    }
}

// Dropping a world abandons its open sections.
impl<'p> Drop for World<'p> {
    fn drop(self) {
        let World {
            program: _,
            mut manager,
            mut states,
        } = self;
        while let Some(state) = states.pop() {
            match state {
                TypedState::Away => {}
                TypedState::Ready(_ready) => {}
                TypedState::Running(running) => {
                    let _ready = running.give_up(&mut manager);
                }
                TypedState::Asking(asking) => {
                    let _ready = asking.give_up(&mut manager);
                }
                TypedState::Ended(ended) => {
                    let _ready = ended.give_up(&mut manager);
                }
            }
        }
        states.destroy_empty();
    }
}

/// The world after these turns from the opening world. The claims about every run hold of it.
///
/// # Errors
///
/// Out of memory: for the opening, or for a step that would begin a call (see [`World::take_turns`] for a world that is
/// open).
pub fn run<'p>(alloc: Global, program: &'p Program, turns: &[Turn]) -> Result<World<'p>, NoMemory>
    ensures last { IfOk result (λ w. w ≡ after_steps program.now (steps_of turns.now)) }
    ensures headline { OnOk result (Headline program.now (steps_of turns.now)) }
{
    worlds::laws::every_run();
    let _shown = program.expanded();
    let mut world = World::open(alloc, program)?;
    world.take_turns(alloc, turns)?;
    Ok(world)
}
