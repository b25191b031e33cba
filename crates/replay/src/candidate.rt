//! The call that a line may be of.

ghost use Rattle.std.specs.Prelude.{◌≡◌, ◌<◌, ◌^◌, IfOk, string_bytes};
ghost use Rattle.std.specs.Option.{option_copied, option_map};
ghost use Rattle.replay.specs.Told.{invocation_in, invoked_text};
ghost use Rattle.replay.specs.declared.callers.Callers.TheVariants.{Scripts, Anyone};
ghost use Rattle.replay.specs.Working.Reading.{IsReady, IsSound, IsCandidate, begins_at, call_in, invocation_at, IsHeadOf};

use crate::callers::Callers;
use crate::calls::Invoked;
use crate::names::Numbers;
use crate::progress::Progress;
use crate::told::{Told, invoked_by, told_by};
use core_lang::calls::can_call;
use core_lang::typed::{Call, Typed};
use input_files::Format;
use input_files::piece::begins;
use meaning_registers::prepared::Prepared;
use report::lines::push_call_head;
use report::record::CallRef;
use source::memory::NoMemory;
use std::alloc::Global;

/// A program whose histories are judged, and the terms.
#[derive(Drop)]
pub(crate) struct Replay<'a> {
    pub alloc: Global,
    pub program: &'a Typed,
    pub prepared: Prepared<'a>,
    /// The callers whose calls a history has.
    pub callers: Callers,
    /// The format of a call's line.
    pub format: Format,
    /// The limit of turns of each execution of a loop.
    pub turns: u64,
    /// The numbers of the sections' names.
    pub sections: Numbers<'a>,
    /// The numbers of the pools' names.
    pub pools: Numbers<'a>,
}

/// Whether the line of a thread's next call may have the begin `begun`.
pub(crate) fn may_begin(format: Format, least: usize, position: usize, begun: usize) -> bool
    ensures { result ≡ begins_at format least position begun }
{
    match format {
        Format::One => true,
        Format::Two => least <= begun && begun <= position,
    }
}

impl<'a> Replay<'a> {
    /// The call of `thread` with the number `step`.
    pub(crate) fn call_in(&self, thread: usize, step: usize) -> Option<&'a Call>
        ensures { option_copied result ≡ call_in self.now.program.now thread step }
    {
        let program: &'a Typed = self.program;
        match program.threads.get(thread) {
            Some(script) => script.calls.get(step),
            None => None,
        }
    }

    // The only call of the scripts whose line `line` may be.
    fn scripted(&self, at: &Progress, line: &[u8]) -> Option<CallRef<'a>>
        requires ready { IsReady self.now }
        requires sound { IsSound Scripts self.now.program.now at.now }
        requires short { at.now.position < 2 ^ 63 }
        ensures { IsCandidate Scripts self.now.format self.now.program.now at.now line.now result }
    {
        let Some(told) = told_by(self.format, line) else {
            return None;
        };
        let thread = told.thread as usize;
        let begun = told.begun as usize;
        let seat = at.seat(thread);
        let Some(call) = self.call_in(thread, seat.called) else {
            return None;
        };
        if !may_begin(self.format, seat.least, at.position, begun) {
            return None;
        }
        Some(CallRef {
            thread,
            step: seat.called,
            begun,
            section: call.section,
            arguments: &call.arguments,
        })
    }

    // The only call from outside whose line `line` may be, where `invoked` is the call that it writes.
    fn outside<'b>(
        &self,
        at: &Progress,
        line: &[u8],
        invoked: &'b Option<Invoked>,
    ) -> Option<CallRef<'b>>
        requires ready { IsReady self.now }
        requires sound { IsSound Anyone self.now.program.now at.now }
        requires short { at.now.position < 2 ^ 63 }
        requires told { invocation_at invoked.now ≡ invocation_in self.now.program.now
            (invoked_text self.now.format line.now) }
        ensures { IsCandidate Anyone self.now.format self.now.program.now at.now line.now result }
    {
        let Some(told) = told_by(self.format, line) else {
            return None;
        };
        let Some(invoked) = invoked else {
            return None;
        };
        if told.thread > u64::from(u32::MAX) {
            return None;
        }
        let thread = told.thread as usize;
        let begun = told.begun as usize;
        let seat = at.seat(thread);
        if !may_begin(self.format, seat.least, at.position, begun) {
            return None;
        }
        if !can_call(self.program, invoked.section, &invoked.arguments) {
            return None;
        }
        Some(CallRef {
            thread,
            step: seat.called,
            begun,
            section: invoked.section,
            arguments: &invoked.arguments,
        })
    }

    /// The call that `line` writes, where anyone may call.
    pub(crate) fn invoked_at(&self, line: &[u8]) -> Result<Option<Invoked>, NoMemory>
        requires { IsReady self.now }
        ensures { self.now.callers ≡ Anyone → IfOk result (λ invoked. invocation_at invoked
            ≡ invocation_in self.now.program.now (invoked_text self.now.format line.now)) }
    {
        match self.callers {
            Callers::Scripts => Ok(None),
            Callers::Anyone => self.invoked_in(invoked_by(self.format, line)),
        }
    }

    // The only call whose line `line` may be.
    fn candidate<'b>(
        &self,
        at: &Progress,
        line: &[u8],
        invoked: &'b Option<Invoked>,
    ) -> Option<CallRef<'b>>
    where
        'a: 'b,
        requires ready { IsReady self.now }
        requires sound { IsSound self.now.callers self.now.program.now at.now }
        requires short { at.now.position < 2 ^ 63 }
        requires told { self.now.callers ≡ Anyone →
            invocation_at invoked.now ≡ invocation_in self.now.program.now (invoked_text self.now.format line.now) }
        ensures { IsCandidate self.now.callers self.now.format self.now.program.now at.now line.now result }
    {
        match self.callers {
            Callers::Scripts => self.scripted(at, line),
            Callers::Anyone => self.outside(at, line, invoked),
        }
    }

    /// The only call whose line `line` may be, if the line agrees with it up to its end. Writes the call's line up to
    /// its end to `text`.
    pub(crate) fn call_of<'b>(
        &self,
        at: &Progress,
        text: &mut String,
        line: &[u8],
        invoked: &'b Option<Invoked>,
    ) -> Result<Option<CallRef<'b>>, NoMemory>
    where
        'a: 'b,
        requires ready { IsReady self.now }
        requires sound { IsSound self.now.callers self.now.program.now at.now }
        requires short { at.now.position < 2 ^ 63 }
        requires told { self.now.callers ≡ Anyone →
            invocation_at invoked.now ≡ invocation_in self.now.program.now (invoked_text self.now.format line.now) }
        ensures only { IfOk result (IsCandidate self.now.callers self.now.format self.now.program.now at.now line.now) }
        ensures head { IfOk result (IsHeadOf self.now.format self.now.program.now line.now (string_bytes text.new)) }
    {
        let Some(call) = self.candidate(at, line, invoked) else {
            return Ok(None);
        };
        text.clear();
        push_call_head(text, self.format, self.program, &call)?;
        if begins(text.as_str(), line) {
            Ok(Some(call))
        } else {
            Ok(None)
        }
    }
}
