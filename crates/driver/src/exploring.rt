//! The answer of `outcomes`.

ghost use Rattle.std.specs.Prelude.{◌≡◌, IfOk, map, option_map};
ghost use Rattle.core_lang.specs.Expansion.{IsExpansion};
ghost use Rattle.core_lang.specs.WellFormed.{IsChecked};
ghost use Rattle.outcomes.specs.Ends.{Finds, StopsAfter, told_of};
ghost use Rattle.code.specs.Listing.{line};
ghost use Rattle.report_runs.specs.ExpectationTexts.{said_of};
ghost use Rattle.report_runs.specs.ExpectationCells.{names_of};
ghost use Rattle.driver.specs.Working.Answering.{Meets, IsMessage, IsToldAnswer, expected_of};
ghost use Rattle.driver.specs.Outcomes.{IsLookedAt, IsAsked, IsExpected, StopsInOrder, text_given, ended_by, unknown_cell, no_number, no_comparison};

use crate::answer::Answer;
use crate::order_calls::order_calls;
use crate::running::run_calls;
use crate::status::Status;
use core_lang::laws;
use core_lang::typed::Typed;
use driver_words::OutcomesOptions;
use meaning_registers::prepared::Prepared;
use outcomes::outcome::{Asked, FinalState, Found};
use outcomes::search::Search;
use report::unsettled_text;
use report_runs::expectation::{BadExpectation, ExpectationRefusal};
use report_runs::{
    BadName, Comparison, Ends, Expectation, ExpectedEnds, Scope, asked_cells, read_expectation,
};
use rope::Rope;
use source::keyed::KeyedState;
use source::memory::NoMemory;
use std::alloc::Global;

/// The answer that reports that no cell has the name `name`.
fn unknown_cell(alloc: Global, name: &str) -> Result<Answer, NoMemory>
    ensures { IfOk result (IsMessage Status.BadInput (line (unknown_cell name.now))) }
{
    let mut message = String::from_str(alloc, "autolock: no cell is named ")?;
    message.push_str(name)?;
    Answer::refused(alloc, Status::BadInput, message)
}

/// The answer that reports that a cell named `name` holds a reference.
fn no_number(alloc: Global, name: &str) -> Result<Answer, NoMemory>
    ensures { IfOk result (IsMessage Status.BadInput (line (no_number name.now))) }
{
    let mut message = String::from_str(alloc, "autolock: ")?;
    message.push_str(name)?;
    message.push_str(" holds no number")?;
    Answer::refused(alloc, Status::BadInput, message)
}

/// The answer that reports that `text` is not a comparison, with the byte up to which it can be read.
fn no_comparison(alloc: Global, text: &str, bad: BadExpectation) -> Result<Answer, NoMemory>
    ensures { IfOk result (IsMessage Status.BadInput (line (no_comparison text.now bad.start))) }
{
    let start = bad.start;
    let mut message = String::from_str(alloc, "autolock: --expect: ")?;
    message.push_str(text)?;
    message.push_str(" is not a comparison, at byte ")?;
    write!(message, "{start}")?;
    Answer::refused(alloc, Status::BadInput, message)
}

/// The status of a search where `breach` is the first end that is not as expected.
fn status_of(breach: Option<&FinalState>) -> Status
    ensures { result ≡ ended_by (option_map (λ end. told_of end.now) breach.entry) }
{
    match breach {
        Some(_) => Status::Unexpected,
        None => Status::Done,
    }
}

/// The expectation for the ends.
#[derive(Drop)]
pub(crate) struct Expected<'t> {
    /// The text of the comparison, as it was given.
    pub(crate) text: &'t str,
    /// The meaning of the text.
    pub(crate) expectation: Expectation<'t>,
    /// The comparison over the program's cells.
    pub(crate) comparison: Comparison,
    /// The names in the text.
    pub(crate) names: Vec<&'t str>,
}

/// The exploration of the orders of a program's calls.
#[derive(Clone, Copy)]
pub struct Exploring<'a> {
    /// The program, prepared for its calls.
    pub prepared: &'a Prepared<'a>,
    /// The options: which orders are run, and what of the ends is reported.
    pub looking: OutcomesOptions<'a>,
    /// How states are hashed: keyed by the program's text.
    pub hashing: KeyedState,
}

impl Exploring<'_> {
    /// The report on `ends`, which are those of `scope`.
    fn ends_of<'e>(&'e self, asked: &'e Asked, scope: Scope, ends: &'e [FinalState]) -> Ends<'e>
        ensures program { result.program.now ≡ self.entry.now.prepared.now.program.now }
        ensures asked { result.asked.now ≡ asked.entry.now }
        ensures full { result.full ≡ self.entry.now.looking.full }
        ensures scope { result.scope ≡ scope }
        ensures ends { result.ends.now ≡ ends.entry.now }
    {
        Ends {
            program: self.prepared.program(),
            asked,
            full: self.looking.full,
            scope,
            ends,
        }
    }

    /// The answer that reports `ends` and, where something is expected, whether they are as expected.
    fn told(
        &self,
        alloc: Global,
        ends: &Ends<'_>,
        expected: Option<&Expected<'_>>,
    ) -> Result<Answer, NoMemory>
        ensures { IfOk result (IsToldAnswer ends.now.program.now ends.now.asked.now ends.now.full ends.now.scope
            (map told_of ends.now.ends.now) (option_map (λ e. expected_of e.now) expected.entry)) }
    {
        let mut text = ends.text(alloc)?;
        let Some(expected) = expected else {
            return Ok(Answer::done(alloc, Rope::of(alloc, text)));
        };
        let judged = ExpectedEnds {
            ends,
            text: expected.text,
            comparison: &expected.comparison,
        };
        let said = judged.text(alloc)?;
        text.push_str(&said)?;
        let status = status_of(judged.breach());
        Ok(Answer::written(alloc, status, Rope::of(alloc, text)))
    }

    /// The ends that the search finds.
    fn found(&self, alloc: Global, asked: &Asked) -> Result<Found, NoMemory>
        requires checked { IsChecked self.now.prepared.now.program.now }
        requires expansion { IsExpansion self.now.prepared.now.program.now self.now.prepared.now.written.now }
        ensures { IfOk result
            (Finds self.now.prepared.now.program.now self.now.looking.turns self.now.looking.count asked.now) }
    {
        let search = Search {
            program: self.prepared.program(),
            prepared: self.prepared,
            turns: self.looking.turns,
            most: self.looking.count,
            asked,
            hashing: self.hashing,
        };
        let found = search.ends(alloc, self.looking.seed);
        let Search {
            program: _program,
            prepared: _prepared,
            turns: _turns,
            most: _most,
            asked: _asked,
            hashing: _hashing,
        } = search;
        found
    }

    /// The answer that reports the calls of `order`, and the next call of `thread`, which the turns don't settle after
    /// them.
    fn stopped(&self, alloc: Global, order: &[usize], thread: usize) -> Result<Answer, NoMemory>
        requires checked { IsChecked self.now.prepared.now.program.now }
        requires expansion { IsExpansion self.now.prepared.now.program.now self.now.prepared.now.written.now }
        requires stops { StopsAfter self.now.prepared.now.program.now self.now.looking.turns order.now thread }
        ensures { IfOk result (Meets (StopsInOrder self.now.looking.turns self.now.prepared.now.program.now)) }
    {
        laws::settled_are_serial();
        laws::at_most_one_serial();
        let program = self.prepared.program();
        let made = order_calls(alloc, program, order)?;
        let ran = run_calls(alloc, self.prepared, self.looking.turns, &made.calls)?;
        let (thread, step) = match ran.unsettled {
            Some(place) => place,
            None => (thread, made.done_of(thread)),
        };
        let out = unsettled_text(alloc, program, &ran.records, thread, step)?;
        Ok(Answer::written(alloc, Status::Unsettled, Rope::of(alloc, out)))
    }

    /// The answer that reports the ends that the search finds, distinguished by `asked`, and whether they are as
    /// expected.
    fn looked_at(
        &self,
        alloc: Global,
        asked: &Asked,
        expected: Option<&Expected<'_>>,
    ) -> Result<Answer, NoMemory>
        requires checked { IsChecked self.now.prepared.now.program.now }
        requires expansion { IsExpansion self.now.prepared.now.program.now self.now.prepared.now.written.now }
        requires expected { IsExpected self.now.prepared.now.program.now (text_given self.now.looking)
            (option_map (λ e. expected_of e.now) expected) }
        requires asked { IsAsked self.now.looking self.now.prepared.now.program.now
            (option_map (λ e. expected_of e.now) expected) asked.now }
        ensures { IfOk result (Meets (IsLookedAt self.now.looking self.now.prepared.now.program.now)) }
    {
        match self.found(alloc, asked)? {
            Found::All {
                ends,
                configurations,
            } => {
                let ends = self.ends_of(asked, Scope::All(configurations), &ends);
                self.told(alloc, &ends, expected)
            }
            Found::Reduced {
                ends,
                configurations,
            } => {
                let ends = self.ends_of(asked, Scope::Reduced(configurations), &ends);
                self.told(alloc, &ends, expected)
            }
            Found::Drawn(ends) => {
                let ends = self.ends_of(asked, Scope::Drawn, &ends);
                self.told(alloc, &ends, expected)
            }
            Found::Unsettled { order, thread } => self.stopped(alloc, &order, thread),
        }
    }

    /// The answer that reports how the cells, and if asked for the calls, can end over the explored orders, and whether
    /// that is as expected.
    fn explored(&self, alloc: Global, expected: Option<&Expected<'_>>) -> Result<Answer, NoMemory>
        requires checked { IsChecked self.now.prepared.now.program.now }
        requires expansion { IsExpansion self.now.prepared.now.program.now self.now.prepared.now.written.now }
        requires expected { IsExpected self.now.prepared.now.program.now (text_given self.now.looking)
            (option_map (λ e. expected_of e.now) expected) }
        requires names { option_map (λ e. map (λ name. name.now) e.now.names.items) expected
            ≡ option_map (λ e. names_of (said_of e.now.expectation)) expected }
        ensures { IfOk result (Meets (IsLookedAt self.now.looking self.now.prepared.now.program.now)) }
    {
        let program = self.prepared.program();
        let names = match expected {
            Some(expected) => Some(expected.names.as_slice()),
            None => None,
        };
        let cells = match asked_cells(alloc, program, self.looking.cells, names)? {
            Ok(cells) => cells,
            Err(name) => return unknown_cell(alloc, name),
        };
        let asked = Asked {
            cells,
            answers: self.looking.answers,
        };
        self.looked_at(alloc, &asked, expected)
    }

    /// The answer where the comparison in `text` is expected of the ends.
    fn expecting(&self, alloc: Global, text: &str) -> Result<Answer, NoMemory>
        requires checked { IsChecked self.now.prepared.now.program.now }
        requires expansion { IsExpansion self.now.prepared.now.program.now self.now.prepared.now.written.now }
        requires text { text_given self.now.looking ≡ Some text.now }
        ensures { IfOk result (Meets (IsLookedAt self.now.looking self.now.prepared.now.program.now)) }
    {
        let expectation = match read_expectation(alloc, text) {
            Ok(expectation) => expectation,
            Err(ExpectationRefusal::Bad(bad)) => return no_comparison(alloc, text, bad),
            Err(ExpectationRefusal::NoMemory) => return Err(NoMemory),
        };
        match expectation.of_program(alloc, self.prepared.program())? {
            Ok(comparison) => {
                let names = expectation.names(alloc)?;
                let expected = Expected {
                    text,
                    expectation,
                    comparison,
                    names,
                };
                self.explored(alloc, Some(&expected))
            }
            Err(BadName::Unknown(name)) => unknown_cell(alloc, name),
            Err(BadName::NoNumber(name)) => no_number(alloc, name),
        }
    }

    /// The answer to `outcomes`: how the cells, and if asked for the calls, can end over the explored orders, and,
    /// where something is expected, whether that is as expected.
    pub fn answer(&self, alloc: Global) -> Result<Answer, NoMemory>
        requires checked { IsChecked self.now.prepared.now.program.now }
        requires expansion { IsExpansion self.now.prepared.now.program.now self.now.prepared.now.written.now }
        ensures { IfOk result (Meets (IsLookedAt self.now.looking self.now.prepared.now.program.now)) }
    {
        match self.looking.expect {
            Some(text) => self.expecting(alloc, text),
            None => self.explored(alloc, None),
        }
    }
}
