//! The callers of each helper.

ghost use Rattle.std.specs.Prelude.{◌≡◌, ◌<◌, length, IfOk, OnOk};
ghost use Rattle.core_lang_helpers.specs.Graphs.{bodies_of};
ghost use Rattle.core_lang_helpers.specs.Working.Tables.{HaveNone, AddsCaller, Marks, AreLeading};
ghost use Rattle.core_lang_helpers.specs.Working.Knowledge.{IsCallers};

use crate::graph::{CallSite, CallerBody};
use std::alloc::{AllocError, Global};

/// For each helper its callers, once for each call.
#[derive(Drop)]
pub struct Callers<'a> {
    /// The helpers.
    pub helpers: &'a [CallerBody],
    /// The callers of each helper, by its number.
    pub rows: Vec<Vec<usize>>,
}

// The given number of empty rows.
fn empty_rows(alloc: Global, count: usize) -> Result<Vec<Vec<usize>>, AllocError>
    ensures { IfOk result (λ rows. HaveNone rows.items count) }
{
    let mut rows = Vec::new(alloc);
    for _ in 0..count {
        rows.push(Vec::new(alloc))?;
    }
    Ok(rows)
}

// Adds helper `from` to the callers of each helper that it calls.
fn add_caller(rows: &mut Vec<Vec<usize>>, from: usize, calls: &[CallSite]) -> Result<(), AllocError>
    ensures { OnOk result (AddsCaller rows.old.items rows.new.items from calls.now) }
{
    for call in calls {
        if call.helper < rows.len() {
            rows[call.helper].push(from)?;
        }
    }
    Ok(())
}

// Marks helpers, and adds those that were not marked to the pending ones.
fn mark_all(
    row: &[usize],
    marks: &mut Vec<bool>,
    pending: &mut Vec<usize>,
) -> Result<(), AllocError>
    ensures { OnOk result (Marks row.now marks.old.items marks.new.items pending.old.items pending.new.items) }
{
    for helper in row {
        if *helper < marks.len() && !marks[*helper] {
            marks[*helper] = true;
            pending.push(*helper)?;
        }
    }
    Ok(())
}

impl<'a> Callers<'a> {
    /// The callers of each of `helpers`. The only error is a failed allocation.
    pub fn new(alloc: Global, helpers: &'a [CallerBody]) -> Result<Callers<'a>, AllocError>
        ensures { IfOk result (λ callers. (callers.helpers.now ≡ helpers.now) × IsCallers callers) }
    {
        let mut rows = empty_rows(alloc, helpers.len())?;
        for (from, helper) in helpers.iter().enumerate() {
            add_caller(&mut rows, from, &helper.calls)?;
        }
        Ok(Callers { helpers, rows })
    }

    /// For each helper, whether it is `to` or reaches it by calls. Each helper is visited once, so that time is linear
    /// in the helpers and calls. The only error is a failed allocation.
    pub fn leading_to(&self, alloc: Global, to: usize) -> Result<Vec<bool>, AllocError>
        requires callers { IsCallers self.now }
        requires there { to < length self.now.helpers.now }
        ensures { IfOk result (λ marks. AreLeading (bodies_of self.now.helpers.now) marks.items to) }
    {
        let mut marks = vec![in alloc; false; self.rows.len()]?;
        marks[to] = true;
        let mut pending = Vec::new(alloc);
        pending.push(to)?;
        while let Some(helper) = pending.pop() {
            mark_all(&self.rows[helper], &mut marks, &mut pending)?;
        }
        Ok(marks)
    }
}
