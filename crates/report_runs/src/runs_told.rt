//! The report on the runs of a kind.

ghost use Rattle.std.specs.Prelude.{◌≡◌, ◌+◌, OnOk};
ghost use Rattle.locks.specs.Texts.{AddsText};
ghost use Rattle.report_runs.specs.Working.Heads.{totals_text};

use source::memory::NoMemory;
use std::alloc::AllocError;

/// The report on the runs of a kind.
#[derive(Drop)]
pub(crate) struct Told {
    /// The number of their order among the different orders, from 1.
    pub(crate) order: usize,
    /// The number of their end among the different ends, from 1.
    pub(crate) end: usize,
    /// The number of runs of this kind.
    pub(crate) runs: u64,
    /// The history text of the first of them.
    pub(crate) history: String,
}

impl Told {
    ghost use Rattle.report_runs.specs.Working.Rows.{row_text, row_told};

    /// Counts one more run of the kind.
    pub(crate) fn count_one(&mut self) -> Result<(), NoMemory>
        ensures { OnOk result (row_told self.new ≡ record (row_told self.old) { runs = self.old.runs + 1 }) }
    {
        let Some(runs) = self.runs.checked_add(1) else {
            return Err(NoMemory);
        };
        self.runs = runs;
        Ok(())
    }

    /// Appends the report.
    pub(crate) fn push_to(&self, out: &mut String) -> Result<(), AllocError>
        ensures { OnOk result (AddsText (row_text (row_told self.now)) out.old out.new) }
    {
        write!(
            out,
            "order {} runs {} end {}\n",
            self.order, self.runs, self.end
        )?;
        out.push_str(&self.history)
    }
}

/// Appends the numbers of runs, orders and ends.
pub(crate) fn push_head(
    out: &mut String,
    runs: u64,
    orders: usize,
    ends: usize,
) -> Result<(), AllocError>
    ensures { OnOk result (AddsText (totals_text runs orders ends) out.old out.new) }
{
    write!(out, "runs {runs}\n")?;
    write!(out, "orders {orders}\n")?;
    write!(out, "ends {ends}\n")
}
