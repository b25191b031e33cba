//! The judging of a whole history.

ghost use Rattle.std.specs.Prelude.{◌≡◌, IfOk, Some, None};
ghost use Rattle.core_lang.specs.Expansion.{IsExpansion};
ghost use Rattle.core_lang.specs.WellFormed.{IsChecked};
ghost use Rattle.input_files.specs.Histories.{recorded_lines};
ghost use Rattle.replay.specs.Readers.{opened};
ghost use Rattle.replay.specs.declared.callers.Callers.{Callers};
ghost use Rattle.replay.specs.Working.Reading.{IsReady, IsSound, IsAt, EndsAs};
ghost use Rattle.replay.specs.declared.verdict.Verdict.TheVariants.{Differs};
ghost use Rattle.replay.specs.Verdicts.{Holds};
ghost use Rattle.replay.specs.Wanted.{Explains};

use crate::callers::Terms;
use crate::candidate::Replay;
use crate::names::Numbers;
use crate::progress::{Finding, Progress, Stage};
use crate::verdict::{Judgement, Verdict};
use crate::wanted::Wanted;
use core_lang::typed::Typed;
use input_files::{Recorded, next_line};
use lowering::compiled::Program;
use meaning::heap::Heap;
use meaning_registers::prepared::Prepared;
use source::memory::NoMemory;
use std::alloc::Global;
use std::collections::BTreeMap;

// The progress at the first line.
fn start(alloc: Global, program: &Typed) -> Result<Progress, NoMemory>
    requires { IsChecked program.now }
    ensures at { IfOk result (λ at. IsAt program.now at (opened program.now)) }
    ensures sound { (callers : Callers) → IfOk result (IsSound callers program.now) }
    ensures position { IfOk result (λ at. at.position ≡ 0) }
{
    Ok(Progress {
        heap: Heap::open(alloc, program)?,
        seats: BTreeMap::new(alloc),
        position: 0,
        prints: Vec::new(alloc),
        told: 0,
        stage: Stage::Calls,
    })
}

// The judgement with a verdict that does not have a reason.
fn settled(verdict: Verdict) -> Judgement
    ensures verdict { result.verdict ≡ verdict }
    ensures wanted { result.wanted ≡ None }
{
    Judgement {
        verdict,
        wanted: None,
    }
}

// The judgement that the line with the number `number` differs, where `wanted` may come.
fn differing(number: usize, wanted: Wanted) -> Judgement
    ensures verdict { result.verdict ≡ Differs number }
    ensures wanted { result.wanted ≡ Some wanted }
{
    Judgement {
        verdict: Verdict::Differs(number),
        wanted: Some(wanted),
    }
}

impl Replay<'_> {
    // The verdict on a recorded history and, where it differs, what may come.
    fn judgement(&self, recorded: &Recorded<'_>) -> Result<Judgement, NoMemory>
        requires { IsReady self.now }
        ensures holds { let format = self.now.format in let program = self.now.program.now in
            IfOk result (λ judgement. Holds self.now.turns self.now.callers format program
            (recorded_lines recorded.now) judgement.verdict) }
        ensures why { let format = self.now.format in let program = self.now.program.now in
            IfOk result (λ judgement.
            Explains self.now.turns self.now.callers format program (recorded_lines recorded.now) judgement.verdict
            judgement.wanted) }
    {
        let mut at = start(self.alloc, self.program)?;
        let mut text = String::new(self.alloc);
        let mut number = 2;
        let mut rest = recorded.text;
        'lines: loop {
            let Some((line, more)) = next_line(rest) else {
                return self.at_end(&at, number);
            };
            match self.read(&mut at, &mut text, line)? {
                Finding::Came => {}
                Finding::Other => {
                    let wanted = self.wanted(&at, Some(line))?;
                    return Ok(differing(number, wanted));
                }
                Finding::EndsOtherwise => return Ok(differing(number, Wanted::Line(text))),
                Finding::Beyond => return Ok(settled(Verdict::Unsettled(number))),
            }
            number += 1;
            rest = more;
        }
    }

    // The verdict after the last line and, where the history has not ended, what may come.
    fn at_end(&self, at: &Progress, number: usize) -> Result<Judgement, NoMemory>
        requires ready { IsReady self.now }
        requires sound { IsSound self.now.callers self.now.program.now at.now }
        ensures holds { IfOk result
            (EndsAs self.now.turns self.now.callers self.now.format self.now.program.now at.now number) }
    {
        match at.stage {
            Stage::Ended => Ok(settled(Verdict::Same)),
            _ => {
                let wanted = self.wanted(at, None)?;
                Ok(differing(number, wanted))
            }
        }
    }
}

/// The verdict on a recorded history of a prepared program on the terms `terms` and, where it differs, what may come.
///
/// # Errors
///
/// `NoMemory`: a growth was refused.
pub fn judge(
    alloc: Global,
    prepared: Prepared<'_>,
    recorded: &Recorded<'_>,
    terms: Terms,
) -> Result<Judgement, NoMemory>
    requires checked { IsChecked prepared.program.now }
    requires expansion { IsExpansion prepared.program.now prepared.written.now }
    ensures holds { let format = recorded.now.format in let program = prepared.entry.program.now in
        IfOk result (λ judgement. Holds terms.turns terms.callers format program (recorded_lines recorded.now)
        judgement.verdict) }
    ensures why { let format = recorded.now.format in let program = prepared.entry.program.now in
        IfOk result (λ judgement. Explains terms.turns terms.callers format program (recorded_lines recorded.now)
        judgement.verdict judgement.wanted) }
{
    let program = prepared.program();
    let replay = Replay {
        alloc,
        program,
        prepared,
        callers: terms.callers,
        format: recorded.format,
        turns: terms.turns,
        sections: Numbers::of_sections(alloc, &program.sections)?,
        pools: Numbers::of_pools(alloc, &program.shape.pools)?,
    };
    let judgement = replay.judgement(recorded)?;
    Ok(judgement)
}

/// The verdict on a recorded history of `program` on the terms `terms`. It holds as docs/FORMATS.md says, of the calls
/// of the scripts or of calls from outside.
///
/// # Errors
///
/// `NoMemory`: a growth was refused.
pub fn replay(
    alloc: Global,
    program: &Program,
    recorded: &Recorded<'_>,
    terms: Terms,
) -> Result<Verdict, NoMemory>
    ensures { let format = recorded.now.format in let program = program.now.accepted in
        IfOk result (Holds terms.turns terms.callers format program (recorded_lines recorded.now)) }
{
    let prepared = Prepared::new(alloc, program.typed(), program.expanded())?;
    let Judgement { verdict, wanted: _ } = judge(alloc, prepared, recorded, terms)?;
    Ok(verdict)
}
