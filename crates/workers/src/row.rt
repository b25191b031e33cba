//! A row of entries that threads share.

ghost use Rattle.std.specs.Prelude.{◌≡◌, IsOk};
ghost use Rattle.workers.specs.Working.Rules.{word_of};

use crate::rule::{Count, Entered, Law};
use logbook::{Seen, Start, Word};
use source::memory::NoMemory;
use std::alloc::Global;
use std::marker::Model;

/// A row of entries, to whose end entries are added, and which outlives all who borrow it. Its value is what
/// distinguishes it from other rows. The entries are known to contracts alone: at run time there is only their number.
///
/// A borrower begins at the first place of the row ([`crate::log::Log::of`]). Where several begin on one row, only the
/// one that adds an entry first can add any: the others find that the row has more entries than they have seen.
#[derive(Drop)]
pub struct Row {
    word: Count,
    // A view of no entries.
    seen: Seen<Entered, u64, Law>,
}

impl Model for Row {
    ghost use Rattle.std.specs.Prelude.{◌≡◌, []};
    ghost use Rattle.logbook.specs.Pages.{Book};
    ghost use Rattle.workers.specs.Working.Rules.{word_of};

    ghost Value = { Book };

    ghost view = { λ r. r.seen.book };

    ghost invariant = { λ r. (r.seen.log ≡ []) × (r.word ≡ word_of r.seen.book) };
}

impl Row {
    ghost use Rattle.std.specs.Prelude.{[]};

    /// A row without entries.
    ///
    /// # Errors
    ///
    /// None: an entry takes no memory.
    pub fn new(_alloc: Global) -> Result<Row, NoMemory>
        ensures { IsOk result }
    {
        let (seen, mut first, _second) = Seen::open(Start::alone(), 0, 0);
        Ok(Row {
            word: Word::tracked(0, &mut first),
            seen,
        })
    }

    // The counter of its entries.
    pub(crate) fn word(&self) -> &Count
        ensures { result.now ≡ word_of self.now }
    {
        &self.word
    }

    // The view of none of its entries.
    pub(crate) fn nothing(&self) -> Seen<Entered, u64, Law>
        ensures empty { result.log ≡ [] }
        ensures named { result.book ≡ self.now }
    {
        self.seen.again()
    }
}
