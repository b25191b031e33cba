//! The states of a thread: without an open section, or with one that is running, asking for a lock, or ended.

ghost use Rattle.std.specs.Prelude.{◌≡◌, ◌≢◌, ◌<◌, ◌+◌, ◌^◌, ◌↔◌, [], slice_get, Some, None, IfOk, IfErr, OnErr, IsTrue};
ghost use Rattle.core_lang.specs.Serial.{invocation};
ghost use Rattle.core_lang.specs.WellFormed.{CanCall};
ghost use Rattle.lock_manager.specs.Manager.{session_of};
ghost use Rattle.runner.specs.Working.Opens.{moved, IsOpen};
ghost use Rattle.lock_manager.specs.Working.Sessions.{fresh};
ghost use Rattle.runner.specs.Working.Ties.{over_by, IsBeginning, its_call, begun_as};
ghost use Rattle.runner.specs.Working.Answers as answers;

use crate::body::{Memory, SectionFrame};
use crate::open::Open;
use core_lang::typed::Call;
use core_lang::value::{Outcome, Value};
use history::kept::EntryRef;
use lock_manager::manager::Manager;
use lock_manager::ticket::{Receipt, Spare, Ticket};
use locks::lock::Lock;
use lowering::compiled::Program;
use std::alloc::Global;
use std::marker::Model;
use std::mem;

/// A thread without an open section. Its value is the thread and the number of its next call. It keeps the memory of
/// its last section for the next one.
#[derive(Drop)]
pub struct Ready<'p> {
    thread: u32,
    step: usize,
    memory: Option<Memory<'p>>,
    ticket: Option<Spare>,
}

impl<'p> Model for Ready<'p> {
    ghost use Rattle.runner.specs.Working.Opens.{ReadyOf};

    ghost Value = { ReadyOf };

    ghost view = { λ r. record { thread = r.thread; step = r.step } };
}

/// A section whose next step is an instruction.
pub struct Running<'p> {
    open: Open<'p>,
}

impl<'p> Model for Running<'p> {
    ghost use Rattle.core_lang.specs.contracts.tree.Action as action;
    ghost use Rattle.core_lang.specs.contracts.tree.Expr as expr;
    ghost use Rattle.core_lang.specs.contracts.tree.Condition as condition;
    ghost use Rattle.std.specs.Coded.{codes};
    ghost use Rattle.std.specs.Prelude.{◌≡◌, [], None};
    ghost use Rattle.runner.specs.Working.Opens.{OpenOf};

    ghost Value = { OpenOf };

    ghost coded = { Prim.hlevel (codes, action.the_row.coded, expr.the_row.coded, condition.the_row.coded) };

    ghost view = { λ r. r.open };

    ghost invariant = { λ r. (r.open.activation.pending ≡ []) × (r.open.activation.outcome ≡ None) };
}

/// A section that needs the first of its pending locks next.
pub struct Asking<'p> {
    open: Open<'p>,
}

impl<'p> Model for Asking<'p> {
    ghost use Rattle.core_lang.specs.contracts.tree.Action as action;
    ghost use Rattle.core_lang.specs.contracts.tree.Expr as expr;
    ghost use Rattle.core_lang.specs.contracts.tree.Condition as condition;
    ghost use Rattle.std.specs.Coded.{codes};
    ghost use Rattle.std.specs.Prelude.{◌≡◌, ◌≢◌, [], None};
    ghost use Rattle.runner.specs.Working.Opens.{OpenOf};

    ghost Value = { OpenOf };

    ghost coded = { Prim.hlevel (codes, action.the_row.coded, expr.the_row.coded, condition.the_row.coded) };

    ghost view = { λ a. a.open };

    ghost invariant = { λ a. (a.open.activation.pending ≢ []) × (a.open.activation.outcome ≡ None) };
}

/// A section that has an outcome.
pub struct Ended<'p> {
    program: &'p Program,
    ticket: Ticket,
    body: Box<SectionFrame<'p>>,
}

impl<'p> Model for Ended<'p> {
    ghost use Rattle.core_lang.specs.contracts.tree.Action as action;
    ghost use Rattle.core_lang.specs.contracts.tree.Expr as expr;
    ghost use Rattle.core_lang.specs.contracts.tree.Condition as condition;
    ghost use Rattle.std.specs.Coded.{codes};
    ghost use Rattle.runner.specs.Working.Opens.{OpenOf};
    ghost use Rattle.runner.specs.Working.Ties.{ended_in, entry_in, IsKeptEnded};

    ghost Value = { OpenOf };

    ghost coded = { Prim.hlevel (codes, action.the_row.coded, expr.the_row.coded, condition.the_row.coded) };

    ghost view = { λ e. ended_in e.program.now e.ticket e.body.value };

    ghost invariant = { λ e.
        IsKeptEnded (ended_in e.program.now e.ticket e.body.value) e.ticket e.body.value.machine
        e.body.value.grants.items
        (entry_in e.ticket e.body.value) };
}

/// The state in which a section goes on.
pub enum Next<'p> {
    /// Its next step is an instruction.
    Running(Running<'p>),
    /// It needs a lock next.
    Asking(Asking<'p>),
    /// It has an outcome.
    Ended(Ended<'p>),
}

/// The state of a section after it has asked for a lock.
pub enum Asked<'p> {
    /// The lock is granted.
    Got(Next<'p>),
    /// The section waits for the lock, which the given other thread holds.
    Waits(Asking<'p>, u32),
}

impl<'p> Ready<'p> {
    ghost use Rattle.runner.specs.Working.Opens.{Began, Prepares};

    /// The thread `thread` before its first call.
    pub fn new(thread: u32) -> Ready<'p>
        ensures { result ≡ record { thread = thread; step = 0 } }
    {
        Ready {
            thread,
            step: 0,
            memory: None,
            ticket: None,
        }
    }

    // A thread whose next call has the number `step`, with the memory of a section that has ended.
    pub(crate) fn after(thread: u32, step: usize, memory: Memory<'p>) -> Ready<'p>
        ensures { result ≡ record { thread = thread; step = step } }
    {
        Ready {
            thread,
            step,
            memory: Some(memory),
            ticket: None,
        }
    }

    /// The number of the thread.
    #[inline]
    pub fn thread(&self) -> u32
        ensures { result ≡ self.now.thread }
    {
        self.thread
    }

    /// The number of its next call.
    #[inline]
    pub fn step(&self) -> usize
        ensures { result ≡ self.now.step }
    {
        self.step
    }

    /// Allocates all memory that a call of `section` can need, except that of the manager.
    ///
    /// # Errors
    ///
    /// Out of memory. The error is the thread, unchanged.
    pub fn prepare(
        self,
        alloc: Global,
        program: &'p Program,
        section: usize,
        arguments: &[Value],
    ) -> Result<Poised<'p>, Ready<'p>>
        requires { CanCall program.now.program section arguments.now }
        ensures ok { IfOk result
            (λ p. Prepares self.entry program.now (record { section = section; arguments = arguments.now }) p) }
        ensures err { IfErr result (λ ready. ready ≡ self.entry) }
    {
        let Ready {
            thread,
            step,
            memory,
            ticket,
        } = self;
        let memory = match memory {
            Some(memory) => Ok(memory),
            None => Memory::new(alloc, program),
        };
        let prepared = match memory {
            Ok(memory) => memory.prepared(program, section, arguments),
            Err(refused) => Err(refused),
        };
        match prepared {
            Ok(memory) => Ok(Poised {
                program,
                thread,
                step,
                memory,
                ticket,
            }),
            Err(_) => Err(Ready {
                thread,
                step,
                memory: None,
                ticket,
            }),
        }
    }

    /// Begins a call, and allocates all memory that it can need.
    ///
    /// # Errors
    ///
    /// Out of memory. The error is the thread; the thread and the manager are unchanged.
    pub fn begin(
        self,
        alloc: Global,
        manager: &mut Manager<'p>,
        program: &'p Program,
        call: &Call,
    ) -> Result<Running<'p>, Ready<'p>>
        requires thread { self.thread < 64 }
        requires closed { session_of manager.old self.thread ≡ None }
        requires fits { CanCall program.now.program call.now.section call.now.arguments.items }
        ensures ok { IfOk result
            (λ running. Began manager.old self.entry program.now (invocation call.now) running manager.new) }
        ensures err { IfErr result (λ ready. ready ≡ self.entry) }
        ensures same { OnErr result (manager.new ≡ manager.old) }
    {
        match self.prepare(alloc, program, call.section, &call.arguments) {
            Ok(poised) => poised.begin(alloc, manager),
            Err(ready) => Err(ready),
        }
    }

    /// The thread, with the memory of the receipt's ticket for its next section.
    pub fn keep(self, receipt: Receipt) -> Ready<'p>
        ensures { result ≡ self.entry }
    {
        let Ready {
            thread,
            step,
            memory,
            ticket: _,
        } = self;
        Ready {
            thread,
            step,
            memory,
            ticket: Some(receipt.into_spare()),
        }
    }
}

/// A thread for whose next call all memory is allocated, except that of the manager.
#[derive(Drop)]
pub struct Poised<'p> {
    program: &'p Program,
    thread: u32,
    step: usize,
    memory: Memory<'p>,
    ticket: Option<Spare>,
}

impl<'p> Model for Poised<'p> {
    ghost use Rattle.core_lang.specs.contracts.tree.Action as action;
    ghost use Rattle.core_lang.specs.contracts.tree.Expr as expr;
    ghost use Rattle.core_lang.specs.contracts.tree.Condition as condition;
    ghost use Rattle.std.specs.Coded.{codes};
    ghost use Rattle.runner.specs.Working.Opens.{PoisedOf};
    ghost use Rattle.runner.specs.Working.Ties.{IsBeginning, its_call};

    ghost Value = { PoisedOf };

    ghost coded = { Prim.hlevel (codes, action.the_row.coded, expr.the_row.coded, condition.the_row.coded) };

    ghost view = { λ p. record {
      plan = p.program.now;
      thread = p.thread;
      step = p.step;
      room = p.memory.body.value.room;
      call = its_call p.memory.body.value;
    } };

    ghost invariant = { λ p. IsBeginning p.program.now p.memory.body.value };
}

impl<'p> Poised<'p> {
    ghost use Rattle.runner.specs.Working.Opens.{Began, ready_of};

    /// The number of the thread.
    #[inline]
    pub fn thread(&self) -> u32
        ensures { result ≡ self.now.thread }
    {
        self.thread
    }

    /// Begins the call.
    ///
    /// # Errors
    ///
    /// Out of memory. The error is the thread; the thread and the manager are unchanged.
    pub fn begin(self, alloc: Global, manager: &mut Manager<'p>) -> Result<Running<'p>, Ready<'p>>
        requires thread { self.thread < 64 }
        requires closed { session_of manager.old self.thread ≡ None }
        ensures ok { IfOk result
            (λ running. Began manager.old (ready_of self.entry) self.entry.plan self.entry.call running manager.new) }
        ensures err { IfErr result (λ ready. ready ≡ ready_of self.entry) }
        ensures same { OnErr result (manager.new ≡ manager.old) }
    {
        let Poised {
            program,
            thread,
            step,
            memory,
            ticket,
        } = self;
        let spare = match ticket {
            Some(spare) => spare,
            None => Spare::new(),
        };
        match manager.begin(alloc, thread, memory.body.room, spare) {
            Ok(ticket) => Ok(Running {
                open: begun(program, ticket, step, memory),
            }),
            Err(_) => Err(Ready::after(thread, step, memory)),
        }
    }

    /// Cancels the call, and returns the thread.
    pub fn let_go(self) -> Ready<'p>
        ensures { result ≡ ready_of self.entry }
    {
        let Poised {
            program: _,
            thread,
            step,
            memory,
            ticket,
        } = self;
        Ready {
            thread,
            step,
            memory: Some(memory),
            ticket,
        }
    }
}

// The section that begins as call `step` of its thread.
fn begun<'p>(program: &'p Program, ticket: Ticket, step: usize, memory: Memory<'p>) -> Open<'p>
    requires prepared { IsBeginning program.now memory.body.value }
    requires ticket { ticket.session ≡ fresh ticket.session.begun memory.body.value.room }
    ensures { let b = memory.entry.body.value in
        result ≡ begun_as program.now ticket.thread step b.room ticket.session.begun (its_call b) }
{
    worlds::laws::sections_stay_in_order();
    let mut body = memory.into_body();
    body.step = step;
    Open {
        program,
        ticket,
        body,
    }
}

// The section in the state of its next step.
fn named<'p>(opened: Open<'p>) -> Next<'p>
    requires { opened.activation.outcome ≡ None }
    ensures is { answers.open_of result ≡ opened.entry }
    ensures named { answers.IsNamed result }
{
    if opened.is_running() {
        Next::Running(Running { open: opened })
    } else {
        Next::Asking(Asking { open: opened })
    }
}

// Ends a section with `outcome`.
fn end<'p>(opened: Open<'p>, outcome: Outcome) -> Ended<'p>
    requires pending { opened.activation.pending ≡ [] }
    requires leads { moved opened ≡ over_by opened outcome }
    ensures { result ≡ over_by opened.entry outcome }
{
    worlds::laws::sections_stay_in_order();
    let Open {
        program,
        ticket,
        mut body,
    } = opened;
    let block = &mut *body;
    block.machine.finish(&mut block.grants);
    block.outcome = outcome;
    Ended {
        program,
        ticket,
        body,
    }
}

impl<'p> Running<'p> {
    ghost use Rattle.worlds.specs.Waiting.{HasNext};
    ghost use Rattle.runner.specs.Working.Opens.{GivenUp, IsRunning, Ran, IsSame, ready_again};
    ghost use Rattle.runner.specs.Working.Answers.{open_of, IsNamed};

    /// The length of the history when the section began.
    #[inline]
    pub fn begun(&self) -> usize
        ensures { result ≡ self.now.activation.begun }
    {
        self.open.ticket.begun()
    }

    /// The section, an index into the program's sections.
    #[inline]
    pub fn section(&self) -> usize
        ensures { result ≡ self.now.activation.call.section }
    {
        self.open.body.section
    }

    /// The index of the next instruction in the section's code.
    #[inline]
    pub fn place(&self) -> usize
        ensures { result ≡ self.now.activation.machine.place }
    {
        self.open.body.machine.place()
    }

    /// Runs the next instruction.
    #[inline]
    pub fn step(self) -> Next<'p>
        ensures next { HasNext self.entry.plan self.entry.activation }
        ensures is { open_of result ≡ moved self.entry }
        ensures same { IsSame self.entry (open_of result) }
        ensures named { IsNamed result }
    {
        self.keeps_its_rules();
        let (_one, next) = self.run(1);
        next
    }

    /// Runs at most `most` instructions, until the section needs a lock or has an outcome. Returns the number of
    /// instructions run, which is less than `most` only if the next step is not an instruction.
    pub fn run(self, most: usize) -> (usize, Next<'p>)
        ensures ran { Ran most self.entry result.0 (open_of result.1) }
        ensures same { IsSame self.entry (open_of result.1) }
        ensures named { IsNamed result.1 }
    {
        let Running { mut open } = self;
        for done in 0..most {
            if let Some(outcome) = open.step() {
                return (done + 1, Next::Ended(end(open, outcome)));
            }
            if !open.is_running() {
                return (done + 1, Next::Asking(Asking { open }));
            }
        }
        (most, Next::Running(Running { open }))
    }

    /// Gives the section up. The number of the thread's next call stays the same.
    pub fn give_up(self, manager: &mut Manager<'p>) -> Ready<'p>
        ensures given_up { GivenUp manager.old self.entry manager.new }
        ensures ready { result ≡ ready_again self.entry }
    {
        let Running { open } = self;
        open.give_up(manager)
    }

    /// A law: whatever other threads do, the section's plan is compiled, its room is that of its section, its next step
    /// is an instruction, and that instruction has its case.
    pub fn keeps_its_rules(&self)
        ensures kept { IsOpen self.now }
        ensures running { IsRunning self.now }
        ensures next { HasNext self.now.plan self.now.activation }
    {
        worlds::laws::sections_stay_in_order();
        self.open.keeps_its_rules();
    }
}

impl<'p> Asking<'p> {
    ghost use Rattle.lock_manager.specs.Working.Calls.{Knows};
    ghost use Rattle.runner.specs.Working.Opens.{IsKnown, NextRises, GivenUp, ticket_of, ready_again};
    ghost use Rattle.runner.specs.Working.Answers.{Answered, IsNamedAfter, GoesOnSame};

    /// The lock that the section needs next.
    #[inline]
    pub fn lock(&self) -> Lock
        ensures { slice_get self.now.activation.pending 0 ≡ Some result }
    {
        self.open.lock()
    }

    /// Whether the section has asked for the lock.
    #[inline]
    pub fn asked(&self) -> bool
        ensures { result ≡ self.now.activation.asked }
    {
        self.open.asked()
    }

    /// Whether the manager's slot equals the section, as the section's own steps left it. The rest of what
    /// [`Asking::ask`] requires (the program's layout and ranks, cells with values of their types) isn't tested here:
    /// the type of the manager's owner guarantees it.
    pub fn fits(&self, manager: &Manager<'p>) -> bool
        ensures { IsTrue result ↔ Knows manager.now (ticket_of self.now) }
    {
        self.open.fits(manager)
    }

    /// The locks that the section holds, the oldest first.
    #[inline]
    pub fn held(&self) -> &[Lock]
        ensures { result.now ≡ self.now.activation.held }
    {
        self.open.ticket.held()
    }

    /// Asks for the first pending lock. The lock is granted with its cells, or the request is noted, as by
    /// [`Manager::request`]. Plan, thread, call, room and begin stay the same.
    pub fn ask(self, manager: &mut Manager<'p>) -> Asked<'p>
        requires { IsKnown manager.old self }
        ensures answered { Answered manager.old self.entry result manager.new }
        ensures same { GoesOnSame self.entry result }
        ensures named { IsNamedAfter result }
    {
        let Asking { mut open } = self;
        match open.ask(manager) {
            None => Asked::Got(named(open)),
            Some(holder) => Asked::Waits(Asking { open }, holder),
        }
    }

    /// Gives the section up.
    pub fn give_up(self, manager: &mut Manager<'p>) -> Ready<'p>
        ensures given_up { GivenUp manager.old self.entry manager.new }
        ensures ready { result ≡ ready_again self.entry }
    {
        let Asking { open } = self;
        open.give_up(manager)
    }

    /// A law: whatever other threads do, the section keeps its invariant, and the lock that it needs comes after all
    /// locks that it holds.
    pub fn keeps_its_rules(&self)
        ensures kept { IsOpen self.now }
        ensures rises { NextRises self.now }
    {
        worlds::laws::sections_stay_in_order();
        self.open.keeps_its_rules();
    }
}

impl<'p> Ended<'p> {
    ghost use Rattle.code.specs.Memory.{IsPartOf};
    ghost use Rattle.runner.specs.Working.Opens.{CanBeReleased, Released, GivenUp, IsItsEntry, HasTrueEntry, ready_again};

    /// Whether the section may be released.
    pub fn fits(&self, manager: &Manager<'p>) -> bool
        ensures { IsTrue result ↔ CanBeReleased manager.now self.now }
    {
        let body = &*self.body;
        body.step < usize::MAX && manager.fits(&self.ticket, &body.grants, &self.entry())
    }

    /// Whether the section may be released, for a section whose cells are part of what the manager's entries leave,
    /// with its writes made. No cell is compared: it tests that the manager knows the section, and that the number of
    /// the thread's next call has 64 bits.
    pub fn fits_as_part(&self, manager: &Manager<'p>) -> bool
        requires layout { manager.now.layout ≡ self.now.plan.layout }
        requires part { IsPartOf manager.now.values self.now.activation.machine.memory }
        ensures { IsTrue result ↔ CanBeReleased manager.now self.now }
    {
        moved_cells::laws::slots_are_cells();
        manager.keeps_its_rules();
        let body = &*self.body;
        body.step < usize::MAX && manager.knows(&self.ticket)
    }

    /// The locks that the section holds, the oldest first.
    #[inline]
    pub fn held(&self) -> &[Lock]
        ensures { result.now ≡ self.now.activation.held }
    {
        self.ticket.held()
    }

    /// Ends the section: its entry is appended to the history, and its cells go back to the manager. It requires
    /// exactly what [`Ended::fits`] tests, which includes that the number of the thread's next call has 64 bits.
    pub fn release(self, manager: &mut Manager<'p>) -> (Ready<'p>, Receipt)
        requires { CanBeReleased manager.old self }
        ensures { Released manager.old self.entry result.0 result.1 manager.new }
    {
        let Ended {
            program: _,
            ticket,
            mut body,
        } = self;
        let thread = ticket.thread();
        let step = body.step + 1;
        let mut grants = Vec::new(body.alloc);
        mem::swap(&mut grants, &mut body.grants);
        let entry = body.entry(&ticket);
        let receipt = manager.release(ticket, &mut grants, &entry);
        mem::swap(&mut grants, &mut body.grants);
        grants.destroy_empty();
        (Ready::after(thread, step, Memory { body }), receipt)
    }

    /// Gives the section up.
    pub fn give_up(self, manager: &mut Manager<'p>) -> Ready<'p>
        ensures given_up { GivenUp manager.old self.entry manager.new }
        ensures ready { result ≡ ready_again self.entry }
    {
        let Ended {
            program: _,
            ticket,
            mut body,
        } = self;
        let thread = ticket.thread();
        let step = body.step;
        manager.give_up(ticket, &mut body.grants);
        Ready::after(thread, step, Memory { body })
    }

    /// The entry of the section, which has at most 256 prints.
    #[inline]
    pub fn entry(&self) -> EntryRef<'_>
        ensures { IsItsEntry self.now result }
    {
        self.body.entry(&self.ticket)
    }

    /// A law: whatever other threads do, the section keeps its invariant, and its entry is true.
    pub fn keeps_its_rules(&self)
        ensures kept { IsOpen self.now }
        ensures true_entry { HasTrueEntry self.now }
    {
        worlds::laws::sections_stay_in_order();
        let _shown = &self.body;
    }
}
