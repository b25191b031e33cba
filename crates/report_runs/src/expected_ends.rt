//! The report on ends of which something is expected.

ghost use Rattle.std.specs.Prelude.{◌≡◌, IfOk, OnOk, string_bytes, map, option_map};
ghost use Rattle.locks.specs.Texts.{AddsText};
ghost use Rattle.outcomes.specs.Ends.{told_of};
ghost use Rattle.report_runs.specs.Sums.{holds};
ghost use Rattle.report_runs.specs.Breaches.{breach_in, scope_text, held_text, broken_text, expected_text};

use crate::comparison::Comparison;
use crate::ends::{Ends, Scope, push_order};
use outcomes::outcome::FinalState;
use source::memory::NoMemory;
use std::alloc::{AllocError, Global};

/// Appends which orders have these ends.
fn push_scope(out: &mut String, scope: Scope) -> Result<(), AllocError>
    ensures { OnOk result (AddsText (scope_text scope) out.old out.new) }
{
    match scope {
        Scope::All(_) | Scope::Reduced(_) => out.push_str("all orders"),
        Scope::Drawn => out.push_str("the orders drawn"),
    }
}

/// Ends, and what is expected of each.
#[derive(Drop)]
pub struct ExpectedEnds<'a> {
    /// The ends.
    pub ends: &'a Ends<'a>,
    /// The text of the comparison, as it was given.
    pub text: &'a str,
    /// The comparison over the program's cells.
    pub comparison: &'a Comparison,
}

impl ExpectedEnds<'_> {
    /// The first end that is not as expected, with the order that is reported with it and the cells there.
    pub fn breach(&self) -> Option<&FinalState>
        ensures { option_map (λ end. told_of end.now) result
            ≡ breach_in self.now.ends.now.asked.now.cells self.now.comparison.now
            (map told_of self.now.ends.now.ends.now) }
    {
        let cells = &self.ends.asked.cells;
        for end in self.ends.ends {
            if !self.comparison.holds(cells, &end.cells) {
                return Some(end);
            }
        }
        None
    }

    /// Appends that all ends are as expected.
    fn push_held(&self, out: &mut String) -> Result<(), AllocError>
        ensures { OnOk result (AddsText (held_text self.now.text.now self.now.ends.now.scope) out.old out.new) }
    {
        out.push_str("expected ")?;
        out.push_str(self.text)?;
        out.push_str(" holds in ")?;
        push_scope(out, self.ends.scope)?;
        out.push_str("\n")
    }

    /// Appends the order that leads to an end that is not as expected, and what the cells hold at this end.
    fn push_broken(&self, out: &mut String, end: &FinalState) -> Result<(), AllocError>
        ensures { OnOk result
            (AddsText (broken_text self.now.ends.now.program.now self.now.ends.now.asked.now.cells self.now.text.now
            (told_of end.now)) out.old out.new) }
    {
        out.push_str("expected ")?;
        out.push_str(self.text)?;
        out.push_str(" fails after")?;
        push_order(out, &end.order)?;
        out.push_str("\n")?;
        self.ends.push_whole_cells(out, end)
    }

    /// The report whether all ends are as expected; where one is not, with an order that leads to it, and what the
    /// cells hold at this end.
    ///
    /// # Errors
    ///
    /// `NoMemory`: a growth was refused.
    pub fn text(&self, alloc: Global) -> Result<String, NoMemory>
        ensures { IfOk result (λ text. string_bytes text
            ≡ expected_text self.now.ends.now.program.now self.now.ends.now.asked.now.cells self.now.text.now
            self.now.ends.now.scope
            (breach_in self.now.ends.now.asked.now.cells self.now.comparison.now
            (map told_of self.now.ends.now.ends.now))) }
    {
        let mut out = String::new(alloc);
        match self.breach() {
            Some(end) => self.push_broken(&mut out, end)?,
            None => self.push_held(&mut out)?,
        }
        Ok(out)
    }
}
