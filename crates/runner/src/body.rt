//! The state of an open section, in one block that its thread keeps from one section to the next.

ghost use Rattle.std.specs.Prelude.{◌≡◌, ◌<◌, [], length, OnOk, IfOk};
ghost use Rattle.core_lang.specs.WellFormed.{CanCall};
ghost use Rattle.worlds.specs.Working.InOrder.{SufficesFor};
ghost use Rattle.runner.specs.Working.Ties.{IsBeginning, its_call, entry_in};

use crate::opening::{opening_locals, refill};
use crate::pending::Pending;
use core_lang::value::{Outcome, Value};
use history::kept::EntryRef;
use layout::room::Room;
use lock_manager::ticket::Ticket;
use locks::path_set::PathSet;
use lowering::compiled::Program;
use moved_cells::grant::Grant;
use runner_machine::machine::StackMachine;
use source::memory::NoMemory;
use std::alloc::Global;

// The room for a run of a section. Different locks share no cell, so it needs at most all cells of the program.
fn needed_room(program: &Program, section: usize) -> Room
    requires { section < length program.now.program.sections.items }
    ensures { SufficesFor program.now section result }
{
    let whole = program.room(section);
    Room {
        cells: program.layout().cells_count().min(whole.cells),
        ..whole
    }
}

// The state of an open section, except its program and its ticket.
pub(crate) struct SectionFrame<'p> {
    pub(crate) alloc: Global,
    pub(crate) step: usize,
    pub(crate) section: usize,
    pub(crate) arguments: Vec<Value>,
    pub(crate) room: Room,
    pub(crate) machine: StackMachine<'p>,
    pub(crate) pending: Pending,
    // The lock paths of whole classes whose locks the section holds, or has yet to be granted.
    pub(crate) taken: PathSet,
    pub(crate) asked: bool,
    // After the end: how the section ended, and its grants, which are the machine's before.
    pub(crate) outcome: Outcome,
    pub(crate) grants: Vec<Grant>,
}

impl<'p> SectionFrame<'p> {
    // Prepares the block for a call of a program; the number of the call is set later. Errors: out of memory.
    fn renew(
        &mut self,
        program: &'p Program,
        section: usize,
        arguments: &[Value],
    ) -> Result<(), NoMemory>
        requires fits { CanCall program.now.program section arguments.now }
        requires machine { self.old.machine.locks ≡ [] }
        requires grants { self.old.grants.items ≡ [] }
        ensures call { OnOk result (its_call self.new ≡ record { section = section; arguments = arguments.now }) }
        ensures begins { OnOk result (IsBeginning program.now self.new) }
        ensures machine { self.new.machine.locks ≡ [] }
        ensures grants { self.new.grants.items ≡ [] }
    {
        let called = &program.expanded().sections[section];
        let room = needed_room(program, section);
        self.section = section;
        self.room = room;
        self.taken = PathSet::new();
        self.asked = false;
        refill(&mut self.arguments, arguments)?;
        self.pending.empty_for(room.locks)?;
        let memory = self.machine.take_locals(self.alloc);
        let locals = opening_locals(called, arguments, memory)?;
        self.machine.renew(locals, program.layout(), room)?;
        Ok(())
    }

    // The entry of the section, which has ended.
    pub(crate) fn entry(&self, ticket: &Ticket) -> EntryRef<'_>
        requires { self.now.machine.cell_room ≡ 0 }
        ensures { result ≡ entry_in ticket.now self.now }
    {
        EntryRef {
            thread: ticket.thread(),
            step: self.step,
            section: self.section,
            arguments: self.arguments.as_slice(),
            begun: ticket.begun(),
            reads: self.machine.reads(),
            writes: self.machine.writes(),
            outcome: self.outcome,
            prints: self.machine.prints(),
        }
    }
}

/// A block that no section uses. It has no grants, and its other contents don't matter.
pub(crate) struct Memory<'p> {
    pub(crate) body: Box<SectionFrame<'p>>,
    ghost machine: { body.value.machine.locks ≡ [] },
    ghost grants: { body.value.grants.items ≡ [] },
}

impl<'p> Memory<'p> {
    // A new block. Errors: out of memory.
    pub(crate) fn new(alloc: Global, program: &'p Program) -> Result<Memory<'p>, NoMemory> {
        let machine = StackMachine::new(alloc, program.layout())?;
        let body = SectionFrame {
            alloc,
            step: 0,
            section: 0,
            arguments: Vec::new(alloc),
            room: Room {
                locks: 0,
                cells: 0,
                operands: 0,
                locals: 0,
            },
            machine,
            pending: Pending::new(alloc),
            taken: PathSet::new(),
            asked: false,
            outcome: Outcome::Ends,
            grants: Vec::new(alloc),
        };
        match Box::new(alloc, body) {
            Ok(body) => Ok(Memory { body }),
            Err(failed) => {
                let_go(failed.value);
                Err(NoMemory)
            }
        }
    }

    // The block itself.
    pub(crate) fn into_body(self) -> Box<SectionFrame<'p>>
        ensures body { result.value ≡ self.entry.body.value }
        ensures machine { result.value.machine.locks ≡ [] }
        ensures grants { result.value.grants.items ≡ [] }
    {
        let Memory { body } = self;
        body
    }

    // The block, prepared for a call of a program. Errors: out of memory.
    pub(crate) fn prepared(
        self,
        program: &'p Program,
        section: usize,
        arguments: &[Value],
    ) -> Result<Memory<'p>, NoMemory>
        requires { CanCall program.now.program section arguments.now }
        ensures call { IfOk result (λ m.
            its_call m.body.value ≡ record { section = section; arguments = arguments.now }) }
        ensures begins { IfOk result (λ m. IsBeginning program.now m.body.value) }
    {
        let Memory { mut body } = self;
        let renewed = body.renew(program, section, arguments);
        let memory = Memory { body };
        renewed?;
        Ok(memory)
    }
}

impl<'p> Drop for Memory<'p> {
    fn drop(self) {
        let Memory { body } = self;
        let_go(Box::into_inner(body));
    }
}

// Frees the contents of a block without grants.
fn let_go(body: SectionFrame<'_>)
    requires machine { body.machine.locks ≡ [] }
    requires grants { body.grants.items ≡ [] }
{
    let SectionFrame {
        alloc: _,
        step: _,
        section: _,
        arguments: _,
        room: _,
        machine,
        pending: _,
        taken: _,
        asked: _,
        outcome: _,
        grants,
    } = body;
    machine.let_go();
    grants.destroy_empty();
}
