//! What each helper comes to, starting with those that call none: a helper is settled once all helpers that it calls
//! are. One that reaches a recursion never is. No call is passed twice, so that time is linear in the helpers and
//! calls.

ghost use Rattle.std.specs.Prelude.{◌≡◌, ◌≤◌, ◌<◌, ℕ, length, take, IfOk, OnOk};
ghost use Rattle.core_lang_helpers.specs.Depths.{CallsOnly};
ghost use Rattle.core_lang_helpers.specs.Graphs.{bodies_of};
ghost use Rattle.core_lang_helpers.specs.Working.Tables.{Has, IsSettled, IsOpenFrom, IsExtents};
ghost use Rattle.core_lang_helpers.specs.Working.Knowledge.{IsCallers, IsSettling, Settles, Pends};

use crate::callers::Callers;
use crate::extents::{Extent, extent_from, settled};
use crate::graph::{CallSite, CallerBody};
use std::alloc::{AllocError, Global};

/// The state of the search for extents.
#[derive(Drop)]
pub struct Settling<'a> {
    /// The helpers.
    pub helpers: &'a [CallerBody],
    /// The extents of the settled helpers.
    pub table: Vec<Option<Extent>>,
    /// For each helper, how many of its first calls are known to be of settled helpers.
    pub passed: Vec<usize>,
    /// Settled helpers whose callers have not been visited since.
    pub ready: Vec<usize>,
}

// The first call, from `from` on, of a helper that is not settled, or the number of calls if there is none.
fn first_open(table: &[Option<Extent>], calls: &[CallSite], from: usize) -> usize
    requires { CallsOnly (IsSettled table.now) (take from calls.now) }
    ensures { IsOpenFrom table.now calls.now result }
{
    for at in from..calls.len() {
        if settled(table, calls[at].helper).is_none() {
            return at;
        }
    }
    calls.len()
}

impl Settling<'_> {
    // Settles a helper, if all helpers that it calls are settled.
    fn settle(&mut self, helper: usize) -> Result<(), AllocError>
        requires settling { IsSettling self.old }
        requires there { helper < length self.old.helpers.now }
        ensures settling { OnOk result (IsSettling self.new) }
        ensures settles { OnOk result (Settles self.old self.new) }
        ensures pends { OnOk result (Pends self.new helper) }
    {
        if self.table[helper].is_some() {
            return Ok(());
        }
        let body = &self.helpers[helper];
        let open = first_open(&self.table, &body.calls, self.passed[helper]);
        self.passed[helper] = open;
        if open >= body.calls.len() {
            self.table[helper] = Some(extent_from(&self.table, self.helpers, body));
            self.ready.push(helper)?;
        }
        Ok(())
    }

    // Settles those of a row that can be settled.
    fn settle_all(&mut self, row: &[usize]) -> Result<(), AllocError>
        requires settling { IsSettling self.old }
        requires there { (f : ℕ) → Has row.now f → f < length self.old.helpers.now }
        ensures settling { OnOk result (IsSettling self.new) }
        ensures settles { OnOk result (Settles self.old self.new) }
        ensures pend { OnOk result ((f : ℕ) → Has row.now f → Pends self.new f) }
    {
        for helper in row {
            self.settle(*helper)?;
        }
        Ok(())
    }
}

/// The extents of all helpers of a graph.
#[derive(Drop)]
pub struct Extents {
    /// By number; `None` for a helper that reaches a recursion.
    pub table: Vec<Option<Extent>>,
}

impl Extents {
    /// The extents of all helpers. The only error is a failed allocation.
    pub fn new(alloc: Global, callers: &Callers) -> Result<Extents, AllocError>
        requires { IsCallers callers.now }
        ensures { IfOk result (λ extents. IsExtents (bodies_of callers.now.helpers.now) extents.table.items) }
    {
        let count = callers.helpers.len();
        let mut settling = Settling {
            helpers: callers.helpers,
            table: vec![in alloc; None; count]?,
            passed: vec![in alloc; 0; count]?,
            ready: Vec::new(alloc),
        };
        for helper in 0..count {
            settling.settle(helper)?;
        }
        while let Some(helper) = settling.ready.pop() {
            settling.settle_all(&callers.rows[helper])?;
        }
        Ok(Extents {
            table: settling.table,
        })
    }
}
