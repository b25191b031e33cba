//! The number of cases, and the number of those that are not as expected.

ghost use Rattle.std.specs.Prelude.{◌≡◌, ◌≢◌, ◌↔◌, ◌+◌, ◌-◌, ◌^◌, OnOk, min, true, [], string_bytes};
ghost use Rattle.test_support.specs.Telling.{IsTold, case_text, totals_text};

use crate::ending::Ending;
use std::alloc::{AllocError, Global};

/// Whether `said` is `want`.
pub fn is_wanted(said: &str, want: &str) -> bool
    ensures { (result ≡ true) ↔ (said.now ≡ want.now) }
{
    said == want
}

/// The cases of a file so far.
#[derive(Drop)]
pub struct Tally {
    /// The number of cases.
    pub cases: u64,
    /// The number of cases that are not as expected.
    pub wrong: u64,
    /// The report on those cases, and at the end both numbers.
    pub report: String,
}

impl Tally {
    /// The tally of no cases.
    pub fn new(alloc: Global) -> Tally
        ensures cases { result.cases ≡ 0 }
        ensures wrong { result.wrong ≡ 0 }
        ensures report { string_bytes result.report ≡ [] }
    {
        Tally {
            cases: 0,
            wrong: 0,
            report: String::new(alloc),
        }
    }

    /// Counts a case, and reports it if it is not as expected.
    #[tactic(auto, unfolding(crate::specs::Telling::case_text))]
    pub fn count(
        &mut self,
        file: &str,
        text: &str,
        said: &str,
        want: &str,
    ) -> Result<(), AllocError>
        ensures cases { self.new.cases ≡ min (self.old.cases + 1) (2 ^ 64 - 1) }
        ensures wanted { said.now ≡ want.now → self.new.wrong ≡ self.old.wrong }
        ensures wrong { said.now ≢ want.now → self.new.wrong ≡ min (self.old.wrong + 1) (2 ^ 64 - 1) }
        ensures silent { said.now ≡ want.now → string_bytes self.new.report ≡ string_bytes self.old.report }
        ensures told { said.now ≢ want.now → OnOk result
            (IsTold self.old self.new (case_text file.now text.now said.now want.now)) }
    {
        self.cases = self.cases.saturating_add(1);
        if is_wanted(said, want) {
            return Ok(());
        }
        self.wrong = self.wrong.saturating_add(1);
        write!(
            self.report,
            "{file}:\n{text}\nsaid: {said}\nwanted: {want}\n\n"
        )
    }

    /// Reports how many cases the file has, and how many are not as expected.
    #[tactic(auto, unfolding(crate::specs::Telling::totals_text))]
    pub fn close(&mut self, file: &str) -> Result<(), AllocError>
        ensures cases { self.new.cases ≡ self.old.cases }
        ensures wrong { self.new.wrong ≡ self.old.wrong }
        ensures told { OnOk result (IsTold self.old self.new (totals_text file.now self.old.cases self.old.wrong)) }
    {
        writeln!(
            self.report,
            "{file}: {} cases, {} not as wanted",
            self.cases, self.wrong
        )
    }

    /// How the judging ended.
    pub fn ending(&self) -> Ending
        ensures { (result ≡ Ending.AllAsWanted) ↔ (self.now.wrong ≡ 0) }
    {
        if self.wrong == 0 {
            Ending::AllAsWanted
        } else {
            Ending::SomeNotAsWanted
        }
    }
}
