//! An open section without an outcome.

ghost use Rattle.std.specs.Prelude.{◌≡◌, [], slice_get, Some};
ghost use Rattle.code.specs.Machine.{Asks};
ghost use Rattle.worlds.specs.Worlds.{next_effect};
ghost use Rattle.runner.specs.Working.Opens.{moved};
ghost use Rattle.runner.specs.Working.Ties.{effect_on, HasMoved};

use crate::asker::Asker;
use crate::body::{Memory, SectionFrame};
use crate::states::Ready;
use code::instr::Instr;
use core_lang::value::Outcome;
use lock_manager::answer::Answer;
use lock_manager::manager::Manager;
use lock_manager::ticket::Ticket;
use locks::lock::Lock;
use lowering::compiled::Program;
use runner_machine::progress::Progress;
use std::marker::Model;

// A section that is running, or that waits for a lock to be granted.
pub(crate) struct Open<'p> {
    pub(crate) program: &'p Program,
    pub(crate) ticket: Ticket,
    pub(crate) body: Box<SectionFrame<'p>>,
}

impl<'p> Model for Open<'p> {
    ghost use Rattle.core_lang.specs.contracts.tree.Action as action;
    ghost use Rattle.core_lang.specs.contracts.tree.Expr as expr;
    ghost use Rattle.core_lang.specs.contracts.tree.Condition as condition;
    ghost use Rattle.std.specs.Coded.{codes};
    ghost use Rattle.std.specs.Prelude.{◌≡◌, []};
    ghost use Rattle.runner.specs.Working.Opens.{OpenOf};
    ghost use Rattle.runner.specs.Working.Ties.{open_in, IsKeptOpen, AreTakenIn};

    ghost Value = { OpenOf };

    ghost coded = { Prim.hlevel (codes, action.the_row.coded, expr.the_row.coded, condition.the_row.coded) };

    ghost view = { λ o. open_in o.program.now o.ticket o.body.value };

    ghost invariant = { λ o.
        IsKeptOpen (open_in o.program.now o.ticket o.body.value) o.ticket o.body.value.machine o.body.value.pending.room
        × (o.body.value.grants.items ≡ [])
        × AreTakenIn o.program.now o.ticket o.body.value };
}

impl<'p> Open<'p> {
    // The next instruction.
    #[inline(always)]
    fn instruction(&self) -> Instr
        requires { self.now.activation.pending ≡ [] }
        ensures { next_effect self.now.plan self.now.activation ≡ effect_on self.now result }
    {
        worlds::laws::sections_stay_in_order();
        let body = &*self.body;
        let code = self.program.code();
        let instructions = &code.sections[body.section].instructions;
        instructions[body.machine.place()]
    }

    // Passes the instruction of `point`, and makes the locks before it pending.
    fn pass_on(&mut self, point: usize)
        requires pending { self.old.activation.pending ≡ [] }
        requires asks { next_effect self.old.plan self.old.activation ≡ Asks point }
        ensures { self.new ≡ moved self.old }
    {
        worlds::laws::sections_stay_in_order();
        let body = &mut *self.body;
        let _shown = self.program.code();
        let asker = Asker {
            program: self.program,
            section: body.section,
            machine: &body.machine,
            taken: body.taken,
        };
        body.taken = asker.ask_before(point, &mut body.pending);
        body.machine.pass();
        body.asked = false;
    }

    // Runs the next instruction. Returns the outcome, if the instruction ends the section.
    #[inline(always)]
    pub(crate) fn step(&mut self) -> Option<Outcome>
        requires { self.old.activation.pending ≡ [] }
        ensures { HasMoved self.old result self.new }
    {
        code::laws::steps_go_alike();
        worlds::laws::sections_stay_in_order();
        let instruction = self.instruction();
        let body = &mut *self.body;
        let _shown = self.program.code();
        match body
            .machine
            .step(&self.program.expanded().shape, instruction)
        {
            Progress::Moved => None,
            Progress::Asks(point) => {
                self.pass_on(point);
                None
            }
            Progress::Finished(outcome) => Some(outcome),
            Progress::Undefined => unreachable!(),
        }
    }
}

impl<'p> Open<'p> {
    ghost use Rattle.std.specs.Prelude.{◌≢◌};
    ghost use Rattle.runner.specs.Working.Opens.{IsKnown};
    ghost use Rattle.runner.specs.Working.Ties.{HasAsked};

    // Asks for the first pending lock. Returns none if the lock is granted, and otherwise the thread that holds it.
    pub(crate) fn ask(&mut self, manager: &mut Manager<'p>) -> Option<u32>
        requires known { IsKnown manager.old self.old }
        requires pending { self.old.activation.pending ≢ [] }
        ensures { HasAsked manager.old self.old result self.new manager.new }
    {
        locks::laws::precedes_is_strict();
        moved_cells::laws::slots_are_cells();
        moved_cells::laws::heaps_have_values();
        worlds::laws::sections_stay_in_order();
        manager.keeps_its_rules();
        let lock = self.body.pending.first();
        match manager.request(&mut self.ticket, lock) {
            Answer::Granted(grant) => {
                let body = &mut *self.body;
                body.machine.grant(grant);
                body.pending.take_first();
                body.asked = false;
                None
            }
            Answer::Held(holder) => {
                self.body.asked = true;
                Some(holder)
            }
        }
    }
}

impl<'p> Open<'p> {
    ghost use Rattle.std.specs.Prelude.{◌≢◌, ◌↔◌, IsTrue};
    ghost use Rattle.std.specs.List.{All};
    ghost use Rattle.lock_manager.specs.Working.Calls.{Knows};
    ghost use Rattle.runner.specs.Working.Opens.{IsOpen, GivenUp, ticket_of, ready_again};

    // Whether the manager knows the section.
    pub(crate) fn fits(&self, manager: &Manager<'p>) -> bool
        ensures { IsTrue result ↔ Knows manager.now (ticket_of self.now) }
    {
        manager.knows(&self.ticket)
    }

    // A law: the section keeps its invariant.
    pub(crate) fn keeps_its_rules(&self)
        ensures { IsOpen self.now }
    {
        let _shown = &self.ticket;
    }

    // Whether the next step is an instruction: no lock is pending.
    #[inline(always)]
    pub(crate) fn is_running(&self) -> bool
        ensures { IsTrue result ↔ (self.now.activation.pending ≡ []) }
    {
        self.body.pending.is_empty()
    }

    // The first pending lock.
    pub(crate) fn lock(&self) -> Lock
        requires { self.now.activation.pending ≢ [] }
        ensures { slice_get self.now.activation.pending 0 ≡ Some result }
    {
        self.body.pending.first()
    }

    // Whether the section has asked for the first pending lock.
    pub(crate) fn asked(&self) -> bool
        ensures { result ≡ self.now.activation.asked }
    {
        self.body.asked
    }

    // Gives the section up.
    pub(crate) fn give_up(self, manager: &mut Manager<'p>) -> Ready<'p>
        ensures given_up { GivenUp manager.old self.entry manager.new }
        ensures ready { result ≡ ready_again self.entry }
    {
        let Open {
            program: _,
            ticket,
            mut body,
        } = self;
        let thread = ticket.thread();
        let block = &mut *body;
        let step = block.step;
        block.machine.finish(&mut block.grants);
        manager.give_up(ticket, &mut block.grants);
        Ready::after(thread, step, Memory { body })
    }
}
