//! The reading of one line of a history.

ghost use Rattle.std.specs.Prelude.{◌≡◌, ◌+◌, ◌<◌, ◌≤◌, ◌^◌, ℕ, List, IfOk, OnOk, length, string_bytes, codes};
ghost use Rattle.std.specs.Bool.{Decides};
ghost use Rattle.replay.specs.declared.progress.Stage.TheVariants.{Calls, Cells};
ghost use Rattle.replay.specs.Readers.{script_of};
ghost use Rattle.replay.specs.declared.callers.Callers.TheVariants.{Scripts, Anyone};
ghost use Rattle.replay.specs.Told.{invocation_in, invoked_text};
ghost use Rattle.replay.specs.Working.Reading.{invocation_at, IsReady, IsSound, Reads, Leaves, IsOnlyCall, IsHead, SeatsAreAll, SeatsAreFull};

use crate::callers::Callers;
use crate::calls::Invoked;
use crate::candidate::Replay;
use crate::progress::{Finding, Progress, Stage, ThreadProgress, set_seat};
use input_files::piece::is;
use meaning::run::End;
use report::lines::{push_cell, push_print};
use report::pieces::push_outcome;
use report::record::CallRef;
use source::memory::NoMemory;

impl<'a> Replay<'a> {
    // Reads a line where a print is due.
    fn read_print(
        &self,
        at: &mut Progress,
        text: &mut String,
        line: &[u8],
    ) -> Result<Finding, NoMemory>
        requires sound { IsSound self.now.callers self.now.program.now at.old }
        requires stage { at.old.stage ≡ Calls }
        requires due { at.old.told < length at.old.prints.items }
        ensures reads { IfOk result
            (Reads self.now.turns self.now.callers self.now.format self.now.program.now line.now at.old at.new) }
        ensures sound { OnOk result (IsSound self.now.callers self.now.program.now at.new) }
        ensures position { at.new.position ≡ at.old.position }
        ensures leaves { IfOk result
            (Leaves self.now.turns self.now.callers self.now.format self.now.program.now line.now at.old at.new
            (string_bytes text.new)) }
    {
        text.clear();
        push_print(text, at.prints[at.told])?;
        let is_print = is(line, text.as_str());
        if !is_print {
            return Ok(Finding::Other);
        }
        at.told += 1;
        Ok(Finding::Came)
    }

    // Reads the line after the last cell.
    fn read_last(&self, at: &mut Progress, number: usize, line: &[u8]) -> Finding
        requires sound { IsSound self.now.callers self.now.program.now at.old }
        requires stage { at.old.stage ≡ Cells number }
        requires past { length self.now.program.now.cells.items ≤ number }
        ensures reads { Reads self.now.turns self.now.callers self.now.format self.now.program.now line.now at.old
            at.new result }
        ensures sound { IsSound self.now.callers self.now.program.now at.new }
        ensures position { at.new.position ≡ at.old.position }
        ensures leaves { (written : List ℕ) →
            Leaves self.now.turns self.now.callers self.now.format self.now.program.now line.now at.old at.new written
            result }
    {
        if !is(line, "end") {
            return Finding::Other;
        }
        at.stage = Stage::Ended;
        Finding::Came
    }

    // Reads a line after `cells`.
    fn read_cell(
        &self,
        at: &mut Progress,
        number: usize,
        text: &mut String,
        line: &[u8],
    ) -> Result<Finding, NoMemory>
        requires sound { IsSound self.now.callers self.now.program.now at.old }
        requires stage { at.old.stage ≡ Cells number }
        ensures reads { IfOk result
            (Reads self.now.turns self.now.callers self.now.format self.now.program.now line.now at.old at.new) }
        ensures sound { OnOk result (IsSound self.now.callers self.now.program.now at.new) }
        ensures position { at.new.position ≡ at.old.position }
        ensures leaves { IfOk result
            (Leaves self.now.turns self.now.callers self.now.format self.now.program.now line.now at.old at.new
            (string_bytes text.new)) }
    {
        if number >= self.program.cells.len() {
            return Ok(self.read_last(at, number, line));
        }
        text.clear();
        push_cell(
            text,
            self.program,
            &self.program.cells[number],
            at.heap.cells()[number],
        )?;
        let is_cell = is(line, text.as_str());
        if !is_cell {
            return Ok(Finding::Other);
        }
        at.stage = Stage::Cells(number + 1);
        Ok(Finding::Came)
    }

    // The number of calls in the script of `thread`.
    fn script_len(&self, thread: usize) -> usize
        ensures { result ≡ length (script_of self.now.program.now thread) }
    {
        match self.program.threads.get(thread) {
            Some(script) => script.calls.len(),
            None => 0,
        }
    }

    // Whether all calls of all scripts have come.
    fn scripts_called(&self, at: &Progress) -> bool
        requires sound { IsSound self.now.callers self.now.program.now at.now }
        requires scripts { self.now.callers ≡ Scripts }
        ensures { Decides result (SeatsAreFull self.now.program.now at.now.seats) }
    {
        for thread in 0..self.program.threads.len() {
            if at.seat(thread).called != self.script_len(thread) {
                return false;
            }
        }
        true
    }

    /// Whether all calls have come; where anyone may call, any number of calls is all.
    pub(crate) fn all_called(&self, at: &Progress) -> bool
        requires { IsSound self.now.callers self.now.program.now at.now }
        ensures { Decides result (SeatsAreAll self.now.callers self.now.program.now at.now.seats) }
    {
        match self.callers {
            Callers::Scripts => self.scripts_called(at),
            Callers::Anyone => true,
        }
    }

    // Reads the line `cells`.
    fn read_cells(&self, at: &mut Progress) -> Finding
        requires sound { IsSound self.now.callers self.now.program.now at.old }
        requires stage { at.old.stage ≡ Calls }
        requires none_due { at.old.told ≡ length at.old.prints.items }
        ensures reads { Reads self.now.turns self.now.callers self.now.format self.now.program.now
            (codes "cells") at.old at.new result }
        ensures sound { IsSound self.now.callers self.now.program.now at.new }
        ensures position { at.new.position ≡ at.old.position }
        ensures leaves { (written : List ℕ) →
            Leaves self.now.turns self.now.callers self.now.format self.now.program.now (codes "cells") at.old at.new
            written result }
    {
        if !self.all_called(at) {
            return Finding::Other;
        }
        at.stage = Stage::Cells(0);
        Finding::Came
    }

    // Reads the line of `call` from its end on; `text` has the line up to its end.
    fn read_end(
        &self,
        at: &mut Progress,
        call: CallRef<'_>,
        text: &mut String,
        line: &[u8],
    ) -> Result<Finding, NoMemory>
        requires ready { IsReady self.now }
        requires sound { IsSound self.now.callers self.now.program.now at.old }
        requires stage { at.old.stage ≡ Calls }
        requires none_due { at.old.told ≡ length at.old.prints.items }
        requires short { at.old.position < 2 ^ 63 }
        requires only { IsOnlyCall self.now.callers self.now.format self.now.program.now at.old line.now call }
        requires head { IsHead self.now.format self.now.program.now line.now (string_bytes text.old) call }
        ensures reads { IfOk result
            (Reads self.now.turns self.now.callers self.now.format self.now.program.now line.now at.old at.new) }
        ensures sound { OnOk result (IsSound self.now.callers self.now.program.now at.new) }
        ensures position { at.new.position ≤ at.old.position + 1 }
        ensures leaves { IfOk result
            (Leaves self.now.turns self.now.callers self.now.format self.now.program.now line.now at.old at.new
            (string_bytes text.new)) }
    {
        let run = self.prepared.run_whole(
            self.alloc,
            call.section,
            call.arguments,
            &mut at.heap,
            self.turns,
        )?;
        let Some(end) = run else {
            return Ok(Finding::Beyond);
        };
        let End {
            outcome,
            prints,
            ..
        } = end;
        push_outcome(text, &self.program.shape, outcome)?;
        let is_told = is(line, text.as_str());
        if !is_told {
            return Ok(Finding::EndsOtherwise);
        }
        at.position += 1;
        let seat = ThreadProgress {
            called: call.step + 1,
            least: at.position,
        };
        set_seat(&mut at.seats, call.thread, seat)?;
        at.prints = prints;
        at.told = 0;
        Ok(Finding::Came)
    }

    // Reads a line that is not `cells`, where no print is due, before `cells`; `invoked` is the call that it writes.
    fn read_told(
        &self,
        at: &mut Progress,
        text: &mut String,
        line: &[u8],
        invoked: &Option<Invoked>,
    ) -> Result<Finding, NoMemory>
        requires ready { IsReady self.now }
        requires sound { IsSound self.now.callers self.now.program.now at.old }
        requires stage { at.old.stage ≡ Calls }
        requires none_due { at.old.told ≡ length at.old.prints.items }
        requires short { at.old.position < 2 ^ 63 }
        requires not_cells { line.now ≡ codes "cells" → ⊥ }
        requires told { self.now.callers ≡ Anyone →
            invocation_at invoked.now ≡ invocation_in self.now.program.now (invoked_text self.now.format line.now) }
        ensures reads { IfOk result
            (Reads self.now.turns self.now.callers self.now.format self.now.program.now line.now at.old at.new) }
        ensures sound { OnOk result (IsSound self.now.callers self.now.program.now at.new) }
        ensures position { at.new.position ≤ at.old.position + 1 }
        ensures leaves { IfOk result
            (Leaves self.now.turns self.now.callers self.now.format self.now.program.now line.now at.old at.new
            (string_bytes text.new)) }
    {
        match self.call_of(at, text, line, invoked)? {
            Some(call) => self.read_end(at, call, text, line),
            None => Ok(Finding::Other),
        }
    }

    // Reads a line where no print is due, before `cells`.
    fn read_call(
        &self,
        at: &mut Progress,
        text: &mut String,
        line: &[u8],
    ) -> Result<Finding, NoMemory>
        requires ready { IsReady self.now }
        requires sound { IsSound self.now.callers self.now.program.now at.old }
        requires stage { at.old.stage ≡ Calls }
        requires none_due { at.old.told ≡ length at.old.prints.items }
        requires short { at.old.position < 2 ^ 63 }
        ensures reads { IfOk result
            (Reads self.now.turns self.now.callers self.now.format self.now.program.now line.now at.old at.new) }
        ensures sound { OnOk result (IsSound self.now.callers self.now.program.now at.new) }
        ensures position { at.new.position ≤ at.old.position + 1 }
        ensures leaves { IfOk result
            (Leaves self.now.turns self.now.callers self.now.format self.now.program.now line.now at.old at.new
            (string_bytes text.new)) }
    {
        if is(line, "cells") {
            return Ok(self.read_cells(at));
        }
        let invoked = self.invoked_at(line)?;
        self.read_told(at, text, line, &invoked)
    }

    /// Reads the next line. `text` is a buffer for the lines to compare with.
    pub(crate) fn read(
        &self,
        at: &mut Progress,
        text: &mut String,
        line: &[u8],
    ) -> Result<Finding, NoMemory>
        requires ready { IsReady self.now }
        requires sound { IsSound self.now.callers self.now.program.now at.old }
        requires short { at.old.position < 2 ^ 63 }
        ensures reads { IfOk result
            (Reads self.now.turns self.now.callers self.now.format self.now.program.now line.now at.old at.new) }
        ensures sound { OnOk result (IsSound self.now.callers self.now.program.now at.new) }
        ensures position { at.new.position ≤ at.old.position + 1 }
        ensures leaves { IfOk result
            (Leaves self.now.turns self.now.callers self.now.format self.now.program.now line.now at.old at.new
            (string_bytes text.new)) }
    {
        match at.stage {
            Stage::Calls if at.told < at.prints.len() => self.read_print(at, text, line),
            Stage::Calls => self.read_call(at, text, line),
            Stage::Cells(number) => self.read_cell(at, number, text, line),
            Stage::Ended => Ok(Finding::Other),
        }
    }
}
