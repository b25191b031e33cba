//! The text of `outcomes`. The one error is a refused growth.

ghost use Rattle.std.specs.Prelude.{◌≡◌, [], ◌++◌, OnOk, IfOk, string_bytes, codes, map, slice_get, slice_index_or, None, false, if◌then◌else◌};
ghost use Rattle.std.specs.Fmt.{decimal};
ghost use Rattle.std.specs.List.{flat_map};
ghost use Rattle.std.specs.Option.{option_eq, option_map_or};
ghost use Rattle.core_lang.specs.Serial.{all_calls};
ghost use Rattle.code.specs.Listing.{line};
ghost use Rattle.locks.specs.Texts.{AddsText};
ghost use Rattle.outcomes.specs.Ends.{told_of};
ghost use Rattle.report.specs.Entry.{scheduled_called};
ghost use Rattle.report_runs.specs.Outcomes.{order_text, end_text, ends_text, looked_at, head_text, count_text, outcomes_text, whole_cells_text};
ghost use Rattle.report_runs.specs.Outcomes.{asked_number, cell_text, cell_texts, answer_text, answer_texts, answers_text};
ghost use Rattle.report_runs.specs.Outcomes.{is_outcome, nothing, unless};
ghost use Rattle.report.specs.Values.{is_value};
ghost use Rattle.report_runs.specs.Working.Known.{left_known};

use crate::order_calls::calls_of;
use crate::same_ends::is_answer;
use core_lang::typed::Typed;
use core_lang::value;
use core_lang::value::Value;
use input_files::Format;
use outcomes::outcome::{Asked, Cells, FinalState};
use report::is_value;
use report::lines::{push_call_head, push_cell};
use report::pieces::push_outcome;
use report::record::CallRef;
use source::memory::NoMemory;
use std::alloc::{AllocError, Global};

/// Appends the threads of an order, each after a space. The one error is a refused growth.
pub fn push_order(out: &mut String, order: &[usize]) -> Result<(), AllocError>
    ensures { OnOk result (AddsText (order_text order.now) out.old out.new) }
{
    for thread in order {
        write!(out, " {thread}")?;
    }
    Ok(())
}

/// The number of explored orders. A number past `u64` is reported as `NoMemory`.
fn count(ends: &[FinalState]) -> Result<u64, NoMemory>
    ensures { IfOk result (λ count. count ≡ looked_at (map told_of ends.now)) }
{
    let mut count: u64 = 0;
    for end in ends {
        match count.checked_add(end.count) {
            Some(more) => count = more,
            None => return Err(NoMemory),
        }
    }
    Ok(count)
}

/// The orders whose ends are reported.
#[derive(Clone, Copy)]
pub enum Scope {
    /// All orders, which were explored; with the number of their states.
    All(usize),
    /// All orders, represented by the explored ones; with the number of explored states.
    Reduced(usize),
    /// The drawn orders.
    Drawn,
}

/// Appends the line of the number of states.
fn push_states(out: &mut String, states: usize) -> Result<(), AllocError>
    ensures { OnOk result (AddsText (line (codes "states " ++ decimal states)) out.old out.new) }
{
    write!(out, "states {states}")?;
    out.push_str("\n")
}

/// Appends the line that says that the explored orders represent all.
fn push_reduced(out: &mut String) -> Result<(), AllocError>
    ensures { OnOk result (AddsText (line (codes "orders reduced")) out.old out.new) }
{
    out.push_str("orders reduced\n")
}

/// Appends the number of explored orders and, unless they were drawn, the number of states.
fn push_head(out: &mut String, count: u64, scope: Scope) -> Result<(), AllocError>
    ensures { OnOk result (AddsText (head_text count scope) out.old out.new) }
{
    match scope {
        Scope::All(states) => {
            write!(out, "orders {count} all")?;
            out.push_str("\n")?;
            push_states(out, states)
        }
        Scope::Reduced(states) => {
            push_reduced(out)?;
            push_states(out, states)
        }
        Scope::Drawn => {
            write!(out, "orders {count} drawn")?;
            out.push_str("\n")
        }
    }
}

/// Appends the number of orders with an end, unless the explored orders represent all.
fn push_count(out: &mut String, scope: Scope, count: u64) -> Result<(), AllocError>
    ensures { OnOk result (AddsText (count_text scope count) out.old out.new) }
{
    match scope {
        Scope::All(_) | Scope::Drawn => write!(out, "{count} "),
        Scope::Reduced(_) => Ok(()),
    }
}

/// The number of the cell at `place` among the cells that are asked for.
fn asked_number(cells: &Cells, place: usize) -> usize
    ensures { result ≡ asked_number cells.now place }
{
    match cells {
        Cells::Every => place,
        Cells::These(numbers) => numbers.get(place).copied().unwrap_or(0),
    }
}

/// Whether the first end has `value` at `place`.
fn has_value(first: &[Value], place: usize, value: Value) -> bool
    ensures { result ≡ option_map_or (is_value value) (slice_get first.now place) false }
{
    match first.get(place) {
        Some(other) => is_value(value, *other),
        None => false,
    }
}

/// The outcome of the call with the number `number`.
fn answer_in(answers: &[Option<value::Outcome>], number: usize) -> Option<value::Outcome>
    ensures { result ≡ slice_index_or answers.now number None }
{
    match answers.get(number) {
        Some(answer) => *answer,
        None => None,
    }
}

/// The parts that the report of an end leaves out, because the first end has them too.
#[derive(Clone, Copy)]
pub(crate) struct Known<'a> {
    pub(crate) cells: &'a [Value],
    pub(crate) answers: &'a [Option<value::Outcome>],
}

/// The ends in the text of `outcomes`.
#[derive(Drop)]
pub struct Ends<'a> {
    /// The program.
    pub program: &'a Typed,
    /// What distinguishes the ends.
    pub asked: &'a Asked,
    /// Whether each end is reported in full, and not only its differences from the first one.
    pub full: bool,
    /// The orders that have these ends.
    pub scope: Scope,
    /// The ends.
    pub ends: &'a [FinalState],
}

impl Ends<'_> {
    /// Appends the line of the cell with the number `number`.
    fn push_cell(&self, out: &mut String, number: usize, value: Value) -> Result<(), AllocError>
        ensures { OnOk result (AddsText (cell_text self.now.program.now number value) out.old out.new) }
    {
        match self.program.cells.get(number) {
            Some(cell) => {
                push_cell(out, self.program, cell, value)?;
                out.push_str("\n")
            }
            None => Ok(()),
        }
    }

    /// Appends the line of the cell at `place`, unless `known` has its value.
    fn push_place(
        &self,
        out: &mut String,
        known: &[Value],
        place: usize,
        value: Value,
    ) -> Result<(), AllocError>
        ensures { OnOk result (AddsText (unless (option_map_or (is_value value) (slice_get known.now place) false)
            (cell_text self.now.program.now (asked_number self.now.asked.now.cells place) value)) out.old out.new) }
    {
        if has_value(known, place, value) {
            return Ok(());
        }
        self.push_cell(out, asked_number(&self.asked.cells, place), value)
    }

    /// Appends a line for each value that `known` does not have.
    fn push_cells(
        &self,
        out: &mut String,
        known: &[Value],
        values: &[Value],
    ) -> Result<(), AllocError>
        ensures { OnOk result
            (AddsText (cell_texts self.now.program.now self.now.asked.now.cells known.now 0 values.now) out.old
            out.new) }
    {
        for (place, value) in values.iter().enumerate() {
            self.push_place(out, known, place, *value)?;
        }
        Ok(())
    }

    /// Appends the line of `call`, if it was made.
    fn push_answer(
        &self,
        out: &mut String,
        call: &CallRef<'_>,
        answer: Option<value::Outcome>,
    ) -> Result<(), AllocError>
        ensures { OnOk result
            (AddsText (answer_text self.now.program.now (scheduled_called call.now) answer) out.old out.new) }
    {
        match answer {
            Some(outcome) => {
                push_call_head(out, Format::One, self.program, call)?;
                push_outcome(out, &self.program.shape, outcome)?;
                out.push_str("\n")
            }
            None => Ok(()),
        }
    }

    /// Appends the line of `call`, if it was made, unless `known` is its outcome.
    fn push_unknown_answer(
        &self,
        out: &mut String,
        call: &CallRef<'_>,
        answer: Option<value::Outcome>,
        known: Option<value::Outcome>,
    ) -> Result<(), AllocError>
        ensures { OnOk result (AddsText (unless (option_eq is_outcome answer known)
            (answer_text self.now.program.now (scheduled_called call.now) answer)) out.old out.new) }
    {
        if is_answer(answer, known) {
            return Ok(());
        }
        self.push_answer(out, call, answer)
    }

    /// Appends a line for each call whose outcome `known` does not have.
    fn push_answers(
        &self,
        out: &mut String,
        known: &[Option<value::Outcome>],
        answers: &[Option<value::Outcome>],
        calls: &[CallRef<'_>],
    ) -> Result<(), AllocError>
        ensures { OnOk result
            (AddsText (answer_texts self.now.program.now known.now answers.now 0 (map scheduled_called calls.now))
            out.old out.new) }
    {
        for (number, call) in calls.iter().enumerate() {
            let answer = answer_in(answers, number);
            self.push_unknown_answer(out, call, answer, answer_in(known, number))?;
        }
        Ok(())
    }

    /// Appends a line `answers` and the lines of the calls, if answers are asked for.
    fn push_asked_answers(
        &self,
        out: &mut String,
        known: &[Option<value::Outcome>],
        answers: &[Option<value::Outcome>],
        calls: &[CallRef<'_>],
    ) -> Result<(), AllocError>
        requires { map scheduled_called calls.now ≡ all_calls self.now.program.now }
        ensures { OnOk result
            (AddsText (answers_text self.now.asked.now.answers self.now.program.now known.now answers.now) out.old
            out.new) }
    {
        if !self.asked.answers {
            return Ok(());
        }
        out.push_str("answers\n")?;
        self.push_answers(out, known, answers, calls)
    }

    /// Appends an end: the number of orders that have it, one of these, and what `known` does not have.
    fn push_end(
        &self,
        out: &mut String,
        known: Known<'_>,
        end: &FinalState,
        calls: &[CallRef<'_>],
    ) -> Result<(), AllocError>
        requires { map scheduled_called calls.now ≡ all_calls self.now.program.now }
        ensures { OnOk result
            (AddsText (end_text self.now.program.now self.now.asked.now self.now.scope (left_known known.entry)
            (told_of end.now)) out.old out.new) }
    {
        out.push_str("outcome ")?;
        push_count(out, self.scope, end.count)?;
        out.push_str("after")?;
        push_order(out, &end.order)?;
        out.push_str("\n")?;
        out.push_str("cells\n")?;
        self.push_cells(out, known.cells, &end.cells)?;
        self.push_asked_answers(out, known.answers, &end.answers, calls)?;
        out.push_str("end\n")
    }

    /// Appends the content of all cells that are asked for at `end`: a line `cells`, a line for each, a line `end`. The
    /// one error is a refused growth.
    pub fn push_whole_cells(&self, out: &mut String, end: &FinalState) -> Result<(), AllocError>
        ensures { OnOk result (AddsText
            (whole_cells_text self.now.program.now self.now.asked.now.cells (told_of end.now).left.cells) out.old
            out.new) }
    {
        out.push_str("cells\n")?;
        self.push_cells(out, &[], &end.cells)?;
        out.push_str("end\n")
    }

    /// The parts that later ends leave out because `first` has them too; nothing where each end is reported in full.
    fn known_of<'k>(&self, first: &'k FinalState) -> Known<'k>
        ensures { left_known result ≡ (if self.now.full then nothing else (told_of first.entry.now).left) }
    {
        if self.full {
            return Known {
                cells: &[],
                answers: &[],
            };
        }
        Known {
            cells: &first.cells,
            answers: &first.answers,
        }
    }

    /// Appends each of `ends`, without what `known` has.
    fn push_others(
        &self,
        out: &mut String,
        known: Known<'_>,
        ends: &[FinalState],
        calls: &[CallRef<'_>],
    ) -> Result<(), AllocError>
        requires { map scheduled_called calls.now ≡ all_calls self.now.program.now }
        ensures { OnOk result
            (AddsText
            (flat_map (end_text self.now.program.now self.now.asked.now self.now.scope (left_known known.entry))
            (map told_of ends.now)) out.old out.new) }
    {
        for end in ends {
            self.push_end(out, known, end, calls)?;
        }
        Ok(())
    }

    /// Appends all ends.
    fn push_ends(&self, out: &mut String, calls: &[CallRef<'_>]) -> Result<(), AllocError>
        requires { map scheduled_called calls.now ≡ all_calls self.now.program.now }
        ensures { OnOk result (AddsText (ends_text self.now.program.now self.now.asked.now self.now.full self.now.scope
            (map told_of self.now.ends.now)) out.old out.new) }
    {
        match self.ends {
            [] => Ok(()),
            [first, others @ ..] => {
                let nothing = Known {
                    cells: &[],
                    answers: &[],
                };
                self.push_end(out, nothing, first, calls)?;
                self.push_others(out, self.known_of(first), others, calls)
            }
        }
    }

    /// The text of `outcomes`: the number of explored orders, whether these are all or represent all, and, where so,
    /// the number of states; then for each end the number of orders that have it (unless the explored orders represent
    /// all), one of these orders, the contents of the cells that are asked for and, where asked for, the outcomes of
    /// the calls. The only error is a refused growth, which includes a number of orders past `u64`.
    pub fn text(&self, alloc: Global) -> Result<String, NoMemory>
        ensures { IfOk result (λ text. string_bytes text
            ≡ outcomes_text self.now.program.now self.now.asked.now self.now.full self.now.scope
            (map told_of self.now.ends.now)) }
    {
        let count = count(self.ends)?;
        let calls = calls_of(alloc, self.program)?;
        let mut out = String::new(alloc);
        push_head(&mut out, count, self.scope)?;
        self.push_ends(&mut out, &calls)?;
        Ok(out)
    }
}
