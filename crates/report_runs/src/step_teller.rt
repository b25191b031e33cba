//! The line of a step.

ghost use Rattle.std.specs.Prelude.{◌≡◌, [], ◌∷◌, replicate, IfOk, OnOk};
ghost use Rattle.std.proofs.Props.{props};
ghost use Rattle.std.specs.Coded.{codes};
ghost use Rattle.core_lang.specs.contracts.tree.Action as action;
ghost use Rattle.core_lang.specs.contracts.tree.Condition as condition;
ghost use Rattle.core_lang.specs.contracts.tree.Expr as expr;
ghost use Rattle.locks.specs.Texts.{AddsText};
ghost use Rattle.code.specs.Working.Listers.{program_of};
ghost use Rattle.input_files.specs.Turns.{steps_of};
ghost use Rattle.report_runs.specs.Working.Told.{AreTables};

use crate::instructions::SectionTeller;
use crate::trace::Trace;
use code::places::SectionPlaces;
use code::{Listed, Lister};
use input_files::turn::Turn;
use interleavings::coming::Coming;
use interleavings::world::World;
use lowering::compiled::Program;
use report::pieces::{push_invocation, push_lock};
use source::cursor::Cursor;
use source::memory::NoMemory;
use std::alloc::{AllocError, Global};
use worlds::event::Event;

/// The places of the points of each section.
fn all_places(alloc: Global, text: &[u8], program: &Program) -> Result<Vec<SectionPlaces>, NoMemory>
    ensures { IfOk result (λ places. AreTables text.now program.now places.items) }
{
    let typed = program.expanded();
    let mut cursor = Cursor::new(text);
    let mut places = Vec::with_capacity(alloc, typed.sections.len())?;
    for k in 0..typed.sections.len() {
        places.push(SectionPlaces::of(alloc, &mut cursor, &typed.sections[k])?)?;
    }
    Ok(places)
}

/// A writer of the lines of steps.
#[derive(Drop)]
pub struct StepWriter<'a> {
    text: &'a [u8],
    program: &'a Program,
    lister: Lister<'a>,
    // The places of the points, by section.
    places: Vec<SectionPlaces>,
    moves: bool,
    all: bool,
    ghost names: { program_of lister ≡ program.now.program } by { Prim.hlevel (props, codes, action.the_row.coded, expr.the_row.coded, condition.the_row.coded) },
    ghost tables: { AreTables text.now program.now places.items } by { Prim.hlevel props },
}

impl<'a> StepWriter<'a> {
    ghost use Rattle.report_runs.specs.Working.Tellers.{IsTellerOf, call_told, instruction_told, coming_told};
    ghost use Rattle.report_runs.specs.Working.Tellers.{event_told, step_told, Tells};
    ghost use Rattle.report_runs.specs.Trace.{is_told};

    /// The writer for `trace`.
    pub fn new(alloc: Global, trace: &Trace<'a>) -> Result<StepWriter<'a>, NoMemory>
        ensures { IfOk result (IsTellerOf trace.now.text.now trace.now.program.now trace.now.moves trace.now.all) }
    {
        let Trace {
            text,
            program,
            moves,
            all,
        } = *trace;
        Ok(StepWriter {
            text,
            program,
            lister: Lister::new(alloc, program.expanded())?,
            places: all_places(alloc, text, program)?,
            moves,
            all,
        })
    }

    // Appends the call of `thread` with the number `step`, if there is one.
    fn push_call(&self, out: &mut String, thread: u32, step: usize) -> Result<(), AllocError>
        ensures { OnOk result (AddsText (call_told self.now thread step) out.old out.new) }
    {
        let program = self.program.expanded();
        let Some(script) = program.threads.get(thread as usize) else {
            return Ok(());
        };
        match script.calls.get(step) {
            Some(call) => push_invocation(out, program, call.section, &call.arguments),
            None => Ok(()),
        }
    }

    // Appends the instruction at `place` of a section, with its place in the text.
    fn push_instruction(
        &self,
        out: &mut String,
        section: usize,
        place: usize,
    ) -> Result<(), AllocError>
        ensures { OnOk result (AddsText (instruction_told self.now section place) out.old out.new) }
    {
        let typed = self.program.expanded();
        let code = self.program.code();
        let paths = self.program.paths();
        let Some(found) = typed.sections.get(section) else {
            return Ok(());
        };
        let teller = SectionTeller {
            program: typed,
            listed: Listed {
                section: found,
                code: &code.sections[section],
                lists: self.program.lists_before(section),
                paths: &paths.sections[section].paths,
            },
            places: &self.places[section],
        };
        teller.push_at(&self.lister, out, place)
    }

    // Appends what a step begins or runs.
    fn push_coming(&self, out: &mut String, thread: u32, coming: Coming) -> Result<(), AllocError>
        ensures { OnOk result (AddsText (coming_told self.now thread coming) out.old out.new) }
    {
        match coming {
            Coming::Call(step) => self.push_call(out, thread, step),
            Coming::Instruction { section, place } => self.push_instruction(out, section, place),
            Coming::Other => Ok(()),
        }
    }

    // Appends what a step did.
    fn push_event(
        &self,
        out: &mut String,
        thread: u32,
        coming: Coming,
        event: Event,
    ) -> Result<(), AllocError>
        ensures { OnOk result (AddsText (event_told self.now thread coming event) out.old out.new) }
    {
        match event {
            Event::Idle => out.push_str("idle"),
            Event::Began => {
                out.push_str("began ")?;
                self.push_coming(out, thread, coming)
            }
            Event::Got(lock) => {
                out.push_str("got ")?;
                push_lock(out, self.program.expanded(), lock)
            }
            Event::Waits(lock, holder) => {
                out.push_str("waits ")?;
                push_lock(out, self.program.expanded(), lock)?;
                write!(out, " for {holder}")
            }
            Event::Moved => {
                out.push_str("moved ")?;
                self.push_coming(out, thread, coming)
            }
            Event::Ended(position) => write!(out, "ended at {position}"),
        }
    }

    // Whether an event is reported.
    fn tells(&self, event: Event) -> bool
        ensures { result ≡ is_told self.now.moves self.now.all event }
    {
        match event {
            Event::Moved => self.moves,
            Event::Idle => self.all,
            Event::Began | Event::Got(_) | Event::Waits(_, _) | Event::Ended(_) => true,
        }
    }

    // Appends the line of a step, if it is reported.
    fn push_step(
        &self,
        out: &mut String,
        thread: u32,
        coming: Coming,
        event: Event,
    ) -> Result<(), AllocError>
        ensures { OnOk result (AddsText (step_told self.now thread coming event) out.old out.new) }
    {
        if !self.tells(event) {
            return Ok(());
        }
        write!(out, "{thread} ")?;
        self.push_event(out, thread, coming, event)?;
        out.push_str("\n")
    }

    // Takes a step of `thread`, and appends its line.
    fn step(
        &self,
        alloc: Global,
        world: &mut World<'a>,
        thread: u32,
        out: &mut String,
    ) -> Result<(), NoMemory>
        requires { world.old.plan ≡ self.now.program.now }
        ensures { OnOk result (Tells self.now (thread ∷ []) world.old world.new out.old out.new) }
    {
        let coming = world.coming(thread);
        let event = world.step(alloc, thread)?;
        self.push_step(out, thread, coming, event)?;
        Ok(())
    }

    // Takes the steps of `turn`, and appends their lines.
    fn take(
        &self,
        alloc: Global,
        world: &mut World<'a>,
        turn: Turn,
        out: &mut String,
    ) -> Result<(), NoMemory>
        requires { world.old.plan ≡ self.now.program.now }
        ensures { OnOk result (Tells self.now (replicate turn.count turn.thread) world.old world.new out.old out.new) }
    {
        for _ in 0..turn.count {
            self.step(alloc, world, turn.thread, out)?;
        }
        Ok(())
    }

    /// Takes the steps of `turns`, one after another, and appends their lines.
    pub fn take_turns(
        &self,
        alloc: Global,
        world: &mut World<'a>,
        turns: &[Turn],
        out: &mut String,
    ) -> Result<(), NoMemory>
        requires { world.old.plan ≡ self.now.program.now }
        ensures { OnOk result (Tells self.now (steps_of turns.now) world.old world.new out.old out.new) }
    {
        for turn in turns {
            self.take(alloc, world, *turn, out)?;
        }
        Ok(())
    }
}
