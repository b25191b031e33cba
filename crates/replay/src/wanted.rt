//! What may come where a history differs.

ghost use Rattle.std.specs.Prelude.{◌≡◌, ◌<◌, ◌++◌, IfOk, IfSome, OnOk, None, length, map, string_bytes};
ghost use Rattle.std.specs.Option.{option_map};
ghost use Rattle.replay.specs.declared.callers.Callers.TheVariants.{Anyone};
ghost use Rattle.replay.specs.Readers.{Reader};
ghost use Rattle.replay.specs.declared.progress.Stage.TheVariants.{Calls, Cells};
ghost use Rattle.replay.specs.Working.Reading.{IsAt, IsReady, IsSound, Suggests, SuggestsFor, LacksAt, AreInTurnAt};
ghost use Rattle.replay.specs.Wanted.{LacksSo, next_head, next_heads};

use crate::callers::Callers;
use crate::candidate::{Replay, may_begin};
use crate::progress::{Progress, Stage};
use crate::told::{Told, invoked_by, told_by};
use input_files::Format;
use input_files::piece::cut;
use report::lines::{push_call_head, push_cell, push_print};
use report::record::CallRef;
use source::memory::NoMemory;

/// What may come where a history differs.
#[derive(Debug, Drop)]
pub enum Wanted {
    /// This line.
    Line(String),
    /// A call: the next one of any thread. These are the lines of such calls up to their ends, in order of the threads.
    Calls(Vec<String>),
    /// Any call, or `cells`: anyone may call. This is what the line lacks to be the line of a call.
    Open(Lack),
    /// Nothing: the history has ended.
    Nothing,
}

/// What a line lacks, up to its end, to be the line of a call from outside.
#[derive(Clone, Copy, PartialEq, Eq, Debug)]
pub enum Lack {
    /// The form of a call's line in this format.
    Form(Format),
    /// A thread with a number of 32 bits.
    Thread,
    /// This number of the call among its thread's calls, from 0.
    Number(usize),
    /// A begin in this range.
    Begin {
        /// The least begin: one more than the position of its thread's last call, or 0.
        least: usize,
        /// The greatest begin: the number of calls so far.
        most: usize,
    },
    /// A section of the program.
    Section,
    /// Arguments that fit its section; everything else is right.
    Arguments,
}

impl<'a> Replay<'a> {
    // Appends the line of the next call of `thread`, up to its end, if it has a next call.
    fn push_next_head(
        &self,
        at: &Progress,
        thread: usize,
        heads: &mut Vec<String>,
    ) -> Result<(), NoMemory>
        requires sound { IsSound self.now.callers self.now.program.now at.now }
        requires thread { thread < length self.now.program.now.threads.items }
        ensures { OnOk result ((reader : Reader) → IsAt self.now.program.now at.now reader →
            map (λ head. string_bytes head) heads.new.items
            ≡ map (λ head. string_bytes head) heads.old.items ++ next_head self.now.format self.now.program.now
            reader.order thread) }
    {
        let step = at.seat(thread).called;
        let Some(call) = self.call_in(thread, step) else {
            return Ok(());
        };
        let next = CallRef {
            thread,
            step,
            begun: at.position,
            section: call.section,
            arguments: &call.arguments,
        };
        let mut head = String::new(self.alloc);
        push_call_head(&mut head, self.format, self.program, &next)?;
        heads.push(head)?;
        Ok(())
    }

    // The lines of all threads' next calls, up to their ends.
    fn next_heads(&self, at: &Progress) -> Result<Vec<String>, NoMemory>
        requires { IsSound self.now.callers self.now.program.now at.now }
        ensures { IfOk result (λ heads. (reader : Reader) → IsAt self.now.program.now at.now reader →
            map (λ head. string_bytes head) heads.items
            ≡ next_heads self.now.format self.now.program.now reader.order (length self.now.program.now.threads.items)) }
    {
        let mut heads = Vec::new(self.alloc);
        for thread in 0..self.program.threads.len() {
            self.push_next_head(at, thread, &mut heads)?;
        }
        Ok(heads)
    }

    // What the numbers of a call's line lack, if they lack something.
    fn number_lack(&self, at: &Progress, told: &Told) -> Option<Lack>
        ensures lack { IfSome result (LacksAt self.now.format at.now told.now) }
        ensures none { result ≡ None → AreInTurnAt self.now.format at.now told.now }
    {
        if told.thread > u64::from(u32::MAX) {
            return Some(Lack::Thread);
        }
        let seat = at.seat(told.thread as usize);
        if told.step != seat.called as u64 {
            return Some(Lack::Number(seat.called));
        }
        if !may_begin(self.format, seat.least, at.position, told.begun as usize) {
            return Some(Lack::Begin {
                least: seat.least,
                most: at.position,
            });
        }
        None
    }

    // What a line lacks to be the line of a call.
    fn lack(&self, at: &Progress, line: &[u8]) -> Lack
        requires { IsReady self.now }
        ensures { (reader : Reader) → IsAt self.now.program.now at.now reader →
            LacksSo self.now.format self.now.program.now reader.order line.now result }
    {
        let Some(told) = told_by(self.format, line) else {
            return Lack::Form(self.format);
        };
        if let Some(lack) = self.number_lack(at, &told) {
            return lack;
        }
        let (name, _) = cut(invoked_by(self.format, line), b'(');
        match self.sections.find(name) {
            Some(_) => Lack::Arguments,
            None => Lack::Section,
        }
    }

    // What may come where anyone may call, no print is due, and `cells` has not come.
    fn wanted_open(&self, at: &Progress, line: Option<&[u8]>) -> Wanted
        requires ready { IsReady self.now }
        requires anyone { self.now.callers ≡ Anyone }
        requires stage { at.now.stage ≡ Calls }
        requires none_due { at.now.told ≡ length at.now.prints.items }
        ensures { Suggests self.now.turns self.now.callers self.now.format self.now.program.now at.now
            (option_map (λ text. text.now) line.entry) result }
    {
        match line {
            Some(line) => Wanted::Open(self.lack(at, line)),
            None => Wanted::Open(Lack::Form(self.format)),
        }
    }

    // What may come where no print is due, before `cells`.
    fn wanted_call(&self, at: &Progress, line: Option<&[u8]>) -> Result<Wanted, NoMemory>
        requires ready { IsReady self.now }
        requires sound { IsSound self.now.callers self.now.program.now at.now }
        requires stage { at.now.stage ≡ Calls }
        requires none_due { at.now.told ≡ length at.now.prints.items }
        ensures { IfOk result (Suggests self.now.turns self.now.callers self.now.format self.now.program.now at.now
            (option_map (λ text. text.now) line.entry)) }
    {
        if let Callers::Anyone = self.callers {
            return Ok(self.wanted_open(at, line));
        }
        if self.all_called(at) {
            return Ok(Wanted::Line(String::from_str(self.alloc, "cells")?));
        }
        Ok(Wanted::Calls(self.next_heads(at)?))
    }

    // What may come after `cells` and the first `number` cells.
    fn wanted_cell(&self, at: &Progress, number: usize) -> Result<Wanted, NoMemory>
        requires sound { IsSound self.now.callers self.now.program.now at.now }
        requires stage { at.now.stage ≡ Cells number }
        ensures { IfOk result
            (SuggestsFor self.now.turns self.now.callers self.now.format self.now.program.now at.now) }
    {
        if number >= self.program.cells.len() {
            return Ok(Wanted::Line(String::from_str(self.alloc, "end")?));
        }
        let mut line = String::new(self.alloc);
        push_cell(
            &mut line,
            self.program,
            &self.program.cells[number],
            at.heap.cells()[number],
        )?;
        Ok(Wanted::Line(line))
    }

    // The print that is due.
    fn wanted_print(&self, at: &Progress) -> Result<Wanted, NoMemory>
        requires stage { at.now.stage ≡ Calls }
        requires due { at.now.told < length at.now.prints.items }
        ensures { IfOk result
            (SuggestsFor self.now.turns self.now.callers self.now.format self.now.program.now at.now) }
    {
        let mut line = String::new(self.alloc);
        push_print(&mut line, at.prints[at.told])?;
        Ok(Wanted::Line(line))
    }

    /// What may come at the progress `at`, where `line` is the next line, if there is one.
    pub(crate) fn wanted(&self, at: &Progress, line: Option<&[u8]>) -> Result<Wanted, NoMemory>
        requires ready { IsReady self.now }
        requires sound { IsSound self.now.callers self.now.program.now at.now }
        ensures { IfOk result (Suggests self.now.turns self.now.callers self.now.format self.now.program.now at.now
            (option_map (λ text. text.now) line.entry)) }
    {
        match at.stage {
            Stage::Calls if at.told < at.prints.len() => self.wanted_print(at),
            Stage::Calls => self.wanted_call(at, line),
            Stage::Cells(number) => self.wanted_cell(at, number),
            Stage::Ended => Ok(Wanted::Nothing),
        }
    }
}
