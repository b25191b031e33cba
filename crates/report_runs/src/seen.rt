//! A summary of runs.

ghost use Rattle.std.specs.Prelude.{◌≡◌, ◌≤◌, ◌+◌, IfOk, OnOk, length, vec_len};
ghost use Rattle.indexmap.specs.IndexSet.{index_set_len, insert_index, insert_key};

use crate::run_kind::{Held, Place, RunKind, end_of, order_of};
use crate::runs_told::{Told, push_head};
use core_lang::typed::Typed;
use core_lang::value::Value;
use history::entries::History;
use indexmap::IndexSet;
use input_files::Format;
use report::entries_text;
use source::keyed::KeyedState;
use source::memory::NoMemory;
use std::alloc::Global;
use std::hash::Hash;

/// A summary of the runs of a program: their number, each order of calls once, each end of the cells once, and for each
/// kind of run (an order with an end) the text of the first run and the number of runs.
#[derive(Drop)]
pub struct Seen<'p> {
    alloc: Global,
    program: &'p Typed,
    runs: u64,
    orders: IndexSet<Vec<Place>, KeyedState>,
    ends: IndexSet<Vec<Held>, KeyedState>,
    kinds: IndexSet<RunKind, KeyedState>,
    // One for each kind, and perhaps one more, where memory ran out.
    told: Vec<Told>,
    ghost within: { index_set_len kinds ≤ vec_len told },
}

/// The number of `value` in the set, from 1. Inserts it if the set does not have it.
fn numbered<T: Eq + Hash + Drop>(
    set: &mut IndexSet<T, KeyedState>,
    value: T,
) -> Result<usize, NoMemory>
    ensures keys { OnOk result (set.new.keys ≡ insert_key T.eq set.old.keys value) }
    ensures number { IfOk result (λ number. number ≡ insert_index T.eq set.old value + 1) }
{
    let (place, _) = set.insert_full(value)?;
    let _shown = set.len();
    Ok(place + 1)
}

impl<'p> Seen<'p> {
    ghost use Rattle.std.specs.Prelude.{◌++◌, ◌∷◌, [], List, string_bytes};
    ghost use Rattle.core_lang.specs.declared.typed.Typed.{Typed as TypedValue};
    ghost use Rattle.report_runs.specs.Runs.{Run, runs_text};
    ghost use Rattle.report_runs.specs.Working.Seeing.{HasSeen};

    /// The summary of no runs of `program`, whose hashes have the keys of `hashing`.
    pub fn new(alloc: Global, program: &'p Typed, hashing: KeyedState) -> Seen<'p>
        ensures { HasSeen program.now [] result }
    {
        Seen {
            alloc,
            program,
            runs: 0,
            orders: IndexSet::with_hasher(alloc, hashing),
            ends: IndexSet::with_hasher(alloc, hashing),
            kinds: IndexSet::with_hasher(alloc, hashing),
            told: Vec::new(alloc),
        }
    }

    /// Adds a run: its history, and the value that each cell has after it.
    ///
    /// # Errors
    ///
    /// A refused growth, which includes a number of runs past `u64`. The summary's content is unspecified after an
    /// error.
    pub fn add(&mut self, history: &History, values: &[Value]) -> Result<(), NoMemory>
        requires values { vec_len self.old.program.now.cells ≡ length values.now }
        ensures { OnOk result ((program : TypedValue) (runs : List Run) → HasSeen program runs self.old →
            HasSeen program (runs ++ record { log = history.now.commits; values = values.now } ∷ []) self.new) }
    {
        let Some(runs) = self.runs.checked_add(1) else {
            return Err(NoMemory);
        };
        self.runs = runs;
        let order = numbered(&mut self.orders, order_of(self.alloc, history)?)?;
        let end = numbered(&mut self.ends, end_of(self.alloc, values)?)?;
        let kind = RunKind {
            order: order_of(self.alloc, history)?,
            end: end_of(self.alloc, values)?,
        };
        if let Some(place) = self.kinds.get_index_of(&kind) {
            self.told[place].count_one()?;
            return Ok(());
        }
        let history = entries_text(self.alloc, Format::Two, self.program, history, values)?;
        self.told.push(Told {
            order,
            end,
            runs: 1,
            history,
        })?;
        self.kinds.insert(kind)?;
        Ok(())
    }

    /// The text of the added runs.
    ///
    /// # Errors
    ///
    /// `NoMemory`: a growth was refused.
    pub fn text(&self) -> Result<String, NoMemory>
        ensures { IfOk result (λ text. (program : TypedValue) (runs : List Run) → HasSeen program runs self.now →
            string_bytes text ≡ runs_text program runs) }
    {
        let mut out = String::new(self.alloc);
        push_head(&mut out, self.runs, self.orders.len(), self.ends.len())?;
        for told in &self.told {
            told.push_to(&mut out)?;
        }
        Ok(out)
    }
}
