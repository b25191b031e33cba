//! Helpers that do nothing.

ghost use Rattle.std.specs.Prelude.{◌≡◌, ◌<◌, true, IfOk};
ghost use Rattle.core_lang_helpers.specs.Working.IdleHelpers.{is_idle_call, are_idle_calls, is_idle_body, is_idle, AreIdle};

use crate::not_written_out::NotWrittenOut;
use core_lang::tree::{Action, Section, Stmt};
use source::limits;
use std::alloc::Global;

// The greatest depth of a section's calls.
const DEPTH_LIMIT: u32 = limits::DEPTH_LIMIT as u32;

/// The helpers that are known to do nothing: they take and return nothing, and only call such helpers. A call of one is
/// expanded to nothing at once. No limit bounds calls that write nothing: if each of seven helpers calls the next one a
/// thousand times, a full expansion would visit a thousand to the power of seven calls.
#[derive(Drop)]
pub struct Idle<'a> {
    helpers: &'a [Section],
    // By number, the depth of a helper's calls, itself included, or 0 if it is not known to do nothing.
    depths: Vec<u32>,
    ghost known: { AreIdle helpers.now depths.items },
}

impl<'a> Idle<'a> {
    /// Finds the idle helpers of a program. The only error is a failed allocation.
    pub fn new(alloc: Global, helpers: &'a [Section]) -> Result<Idle<'a>, NotWrittenOut>
        ensures { IfOk result (λ idle. idle.helpers.now ≡ helpers.now) }
    {
        let mut idle = Idle {
            helpers,
            depths: vec![in alloc; 0u32; helpers.len()]?,
        };
        for below in 0..DEPTH_LIMIT {
            for number in 0..helpers.len() {
                idle.report(number, below);
            }
        }
        Ok(idle)
    }

    // Whether a helper is known to do nothing, with calls at most `depth` deep.
    fn contains(&self, helper: usize, depth: u32) -> bool
        ensures { result ≡ true → is_idle self.now.helpers.now depth helper ≡ true }
    {
        match self.depths.get(helper) {
            Some(known) => 0 < *known && *known <= depth,
            None => false,
        }
    }

    /// Whether `action` is a call of a helper that is known to do nothing with calls at most `depth` deep, without
    /// arguments and without a bound result.
    pub fn is_idle_call(&self, action: &Action, depth: u32) -> bool
        ensures { result ≡ true → is_idle_call (is_idle self.now.helpers.now depth) action.now ≡ true }
    {
        match action {
            Action::Call {
                helper,
                arguments,
                result: None,
            } => arguments.is_empty() && self.contains(*helper, depth),
            _ => false,
        }
    }

    // Whether all statements are such calls.
    fn are_idle_calls(&self, statements: &[Stmt], depth: u32) -> bool
        ensures { result ≡ true → are_idle_calls (is_idle self.now.helpers.now depth) statements.now ≡ true }
    {
        for statement in statements {
            if !self.is_idle_call(&statement.action, depth) {
                return false;
            }
        }
        true
    }

    // Whether a helper does nothing, with calls at most `depth` deep.
    fn is_idle(&self, helper: &Section, depth: u32) -> bool
        ensures { result ≡ true → is_idle_body (is_idle self.now.helpers.now depth) helper.now ≡ true }
    {
        helper.parameters == 0
            && helper.locals.is_empty()
            && helper.result_type.is_none()
            && helper.result.is_none()
            && self.are_idle_calls(&helper.body, depth)
    }

    // Notes a helper that does nothing, if its calls are at most `below` deep.
    fn report(&mut self, number: usize, below: u32)
        requires { below < 8 }
        ensures { self.new.helpers ≡ self.old.helpers }
    {
        let Some(helper) = self.helpers.get(number) else {
            return;
        };
        if number < self.depths.len()
            && !self.contains(number, below)
            && self.is_idle(helper, below)
        {
            self.depths[number] = below + 1;
        }
    }
}
