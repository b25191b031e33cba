//! The faults of a graph.

ghost use Rattle.std.specs.Prelude.{◌≡◌, ◌+◌, ◌<◌, ◌^◌, length, OnOk};
ghost use Rattle.std.specs.List.{flat_map};
ghost use Rattle.source.specs.Mistakes.{least_of};
ghost use Rattle.core_lang_helpers.specs.Graphs.{body_of, bodies_of, graph_of};
ghost use Rattle.core_lang_helpers.specs.Counts.{brought_locals, brought_points};
ghost use Rattle.core_lang_helpers.specs.Working.Tables.{up_to, is_marked};
ghost use Rattle.core_lang_helpers.specs.Working.Knowledge.{IsKnown, bodies};
ghost use Rattle.core_lang_helpers.specs.Working.FaultLists.{told_if, first_too_many, is_new, any_new, marked_faults, recursion_faults, helpers_faults, section_faults, graph_faults};

use crate::callers::Callers;
use crate::extents::{Extent, hidden_local, is_too_deep, nothing, settled, sum_up_to};
use crate::graph::{CallGraph, CallSite, CallerBody};
use crate::settling::Extents;
use source::fault::Code;
use source::limits::{LOCAL_LIMIT, POINT_LIMIT};
use source::mistake::{Mistake, report};
use std::alloc::{AllocError, Global};

/// The count so far of something that has a limit, no further than one past it.
#[derive(Drop)]
struct Counter {
    limit: usize,
    count: usize,
}

impl Counter {
    /// Adds `more` to the count, and notes a fault at `start` if that first exceeds the limit.
    fn add(&mut self, more: usize, start: usize, least: &mut Option<Mistake>)
        requires { self.old.limit < 2 ^ 32 }
        ensures limit { self.new.limit ≡ self.old.limit }
        ensures count { self.new.count ≡ up_to self.old.limit (self.old.count + more) }
        ensures faults { least.new ≡ least_of least.old
            (told_if (first_too_many self.old.limit self.old.count more) Code.LimitExceeded start) }
    {
        let before = self.count;
        self.count = sum_up_to(self.limit, before, more);
        if before <= self.limit && self.count > self.limit {
            report(least, Code::LimitExceeded, start);
        }
    }
}

// Whether a recursion at this call is kept: it comes before the fault that was noted.
fn is_new(call: CallSite, least: Option<Mistake>) -> bool
    ensures { result ≡ is_new least call }
{
    let found = Mistake {
        code: Code::RecursiveHelper,
        start: call.start,
    };
    match least {
        Some(kept) => found.precedes(kept),
        None => true,
    }
}

// Whether a recursion at any of the calls is kept.
fn any_is_new(calls: &[CallSite], least: Option<Mistake>) -> bool
    ensures { result ≡ any_new least calls.now }
{
    for call in calls {
        if is_new(*call, least) {
            return true;
        }
    }
    false
}

// Whether a helper is marked.
fn is_marked(marks: &[bool], helper: usize) -> bool
    ensures { result ≡ is_marked marks.now helper }
{
    match marks.get(helper) {
        Some(mark) => *mark,
        None => false,
    }
}

// Notes the calls of marked helpers.
fn report_marked(marks: &[bool], calls: &[CallSite], least: &mut Option<Mistake>)
    ensures { least.new ≡ least_of least.old (flat_map (marked_faults marks.now) calls.now) }
{
    for call in calls {
        if is_marked(marks, call.helper) {
            report(least, Code::RecursiveHelper, call.start);
        }
    }
}

/// The helpers of a graph, with their callers and extents.
#[derive(Drop)]
struct Known<'a> {
    callers: Callers<'a>,
    extents: Extents,
}

impl Known<'_> {
    // Notes the calls of helper `from` that close a recursion. They are looked for only if a fault there would be kept,
    // which for many helpers is only in the first of them.
    fn report_recursion(
        &self,
        alloc: Global,
        from: usize,
        calls: &[CallSite],
        least: &mut Option<Mistake>,
    ) -> Result<(), AllocError>
        requires known { IsKnown self.now }
        requires there { from < length self.now.callers.helpers.now }
        ensures { OnOk result
            (least.new ≡ least_of least.old (flat_map (recursion_faults (bodies self.now) from) calls.now)) }
    {
        if any_is_new(calls, *least) {
            let marks = self.callers.leading_to(alloc, from)?;
            report_marked(&marks, calls, least);
        }
        Ok(())
    }

    // Notes the faults of the helpers, one after another.
    fn report_helpers(&self, alloc: Global, least: &mut Option<Mistake>) -> Result<(), AllocError>
        requires { IsKnown self.now }
        ensures { OnOk result (least.new ≡ least_of least.old (helpers_faults (bodies self.now) 0 (bodies self.now))) }
    {
        for (number, helper) in self.callers.helpers.iter().enumerate() {
            if is_too_deep(&self.extents.table, number) {
                report(least, Code::LimitExceeded, helper.start);
            }
            self.report_recursion(alloc, number, &helper.calls, least)?;
        }
        Ok(())
    }

    // What a call in a section brings.
    fn brought(&self, call: CallSite) -> Extent
        requires { IsKnown self.now }
        ensures locals { result.locals ≡ up_to LOCAL_LIMIT (brought_locals (bodies self.now) call) }
        ensures points { result.points ≡ up_to POINT_LIMIT (brought_points (bodies self.now) call) }
    {
        match settled(&self.extents.table, call.helper) {
            Some(callee) => Extent {
                depth: callee.depth,
                locals: sum_up_to(
                    LOCAL_LIMIT,
                    callee.locals,
                    hidden_local(self.callers.helpers, call),
                ),
                points: callee.points,
            },
            None => nothing(),
        }
    }

    // Notes the calls of a section that first bring too many locals, or too many points.
    fn report_section(&self, section: &CallerBody, least: &mut Option<Mistake>)
        requires { IsKnown self.now }
        ensures { least.new ≡ least_of least.old (section_faults (bodies self.now) (body_of section.now)) }
    {
        let mut locals = Counter {
            limit: LOCAL_LIMIT,
            count: sum_up_to(LOCAL_LIMIT, section.locals, 0),
        };
        let mut points = Counter {
            limit: POINT_LIMIT,
            count: 0,
        };
        for call in &section.calls {
            let brought = self.brought(*call);
            locals.add(brought.locals, call.start, least);
            points.add(brought.points, call.start, least);
        }
    }

    // Notes the faults of the sections, one after another.
    fn report_sections(&self, sections: &[CallerBody], least: &mut Option<Mistake>)
        requires { IsKnown self.now }
        ensures { least.new ≡ least_of least.old
            (flat_map (section_faults (bodies self.now)) (bodies_of sections.now)) }
    {
        for section in sections {
            self.report_section(section, least);
        }
    }
}

impl CallGraph {
    /// Notes the faults of the graph in `least`: `E20` at a call that closes a recursion, and `E15` for a helper that
    /// is too deep and for a call that first brings too many locals or points to a section. The least fault is kept,
    /// also of those that were noted before.
    ///
    /// # Errors
    ///
    /// Out of memory.
    pub fn check(&self, alloc: Global, least: &mut Option<Mistake>) -> Result<(), AllocError>
        ensures { OnOk result (least.new ≡ least_of least.old (graph_faults (graph_of self.now))) }
    {
        let callers = Callers::new(alloc, &self.helpers)?;
        let extents = Extents::new(alloc, &callers)?;
        let known = Known { callers, extents };
        known.report_helpers(alloc, least)?;
        known.report_sections(&self.sections, least);
        Ok(())
    }
}
