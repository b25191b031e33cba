//! The answers of `replay` for a program.

ghost use Rattle.std.specs.Prelude.{◌≡◌, IfOk, string_bytes};
ghost use Rattle.code.specs.Listing.{line};
ghost use Rattle.input_files.specs.Histories.{recorded_lines};
ghost use Rattle.driver.specs.Working.Answering.{Meets, IsJudgementAnswer};
ghost use Rattle.driver.specs.Replays.{IsReplayed, callers_of, verdict_status, verdict_text};

use crate::answer::{Answer, Named};
use crate::running::prepared;
use crate::status::Status;
use crate::why::push_why;
use driver_words::ReplayOptions;
use input_files::{Recorded, history_fault_line, read_history};
use lowering::compiled::Program;
use replay::{Callers, Judgement, Terms, Verdict, judge};
use rope::Rope;
use source::memory::NoMemory;
use std::alloc::{AllocError, Global};

/// The line of `verdict`.
fn verdict_line(alloc: Global, verdict: Verdict) -> Result<String, AllocError>
    ensures { IfOk result (λ text. string_bytes text ≡ line (verdict_text verdict)) }
{
    match verdict {
        Verdict::Same => String::from_str(alloc, "same\n"),
        Verdict::Differs(line) => format!(in alloc; "differs at line {line}\n"),
        Verdict::Unsettled(line) => format!(in alloc; "unsettled at line {line}\n"),
    }
}

/// The status of `verdict`.
fn status_of(verdict: Verdict) -> Status
    ensures { result ≡ verdict_status verdict }
{
    match verdict {
        Verdict::Same => Status::Done,
        Verdict::Differs(_) => Status::Differs,
        Verdict::Unsettled(_) => Status::Unsettled,
    }
}

/// The answer that reports `judgement`: the verdict and, where `why` is true, the reason.
fn judged(
    alloc: Global,
    why: bool,
    judgement: &Judgement,
    recorded: &Recorded<'_>,
) -> Result<Answer, NoMemory>
    ensures { IfOk result (IsJudgementAnswer why judgement.now (recorded_lines recorded.now)) }
{
    let mut out = verdict_line(alloc, judgement.verdict)?;
    if why {
        push_why(alloc, &mut out, judgement, recorded)?;
    }
    let status = status_of(judgement.verdict);
    Ok(Answer::written(alloc, status, Rope::of(alloc, out)))
}

/// The terms on which a history is judged.
fn terms(judging: ReplayOptions) -> Terms
    ensures turns { result.turns ≡ judging.turns }
    ensures callers { result.callers ≡ callers_of judging.open }
{
    let callers = if judging.open {
        Callers::Anyone
    } else {
        Callers::Scripts
    };
    Terms {
        callers,
        turns: judging.turns,
    }
}

/// The answer to `replay`: the verdict on `history`, or the fault of the history file.
pub fn replayed(
    alloc: Global,
    program: &Program,
    judging: ReplayOptions,
    history: &Named<'_>,
) -> Result<Answer, NoMemory>
    ensures { IfOk result (Meets (IsReplayed judging history.now.file.now history.now.text.now program.now)) }
{
    let recorded = match read_history(history.text) {
        Ok(recorded) => recorded,
        Err(fault) => {
            let line = history_fault_line(alloc, history.file, fault)?;
            return Answer::refused(alloc, Status::BadInput, line);
        }
    };
    let prepared = prepared(alloc, program)?;
    let judgement = judge(alloc, prepared, &recorded, terms(judging))?;
    judged(alloc, judging.why, &judgement, &recorded)
}
