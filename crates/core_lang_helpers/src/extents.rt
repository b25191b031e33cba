//! How deep helpers are, and what they bring.

ghost use Rattle.std.specs.Prelude.{◌≡◌, ◌+◌, ◌<◌, ◌^◌};
ghost use Rattle.core_lang_helpers.specs.Graphs.{body_of, bodies_of};
ghost use Rattle.core_lang_helpers.specs.Counts.{hidden};
ghost use Rattle.core_lang_helpers.specs.Working.Tables.{up_to, no_extent, extent_at, extent_seen, extent_by, is_deep_by};

use crate::graph::{CallSite, CallerBody};
use source::limits::{DEPTH_LIMIT, LOCAL_LIMIT, POINT_LIMIT};

/// What a helper comes to, with all that it calls. Each number counts no further than one past its limit, so that none
/// overflows and no comparison with a limit changes.
#[derive(Clone, Copy, Debug, PartialEq, Eq)]
pub struct Extent {
    /// The depth of its calls, itself included: at most 9.
    pub depth: usize,
    /// The number of locals that it brings: at most 65.
    pub locals: usize,
    /// The number of points that replace its call: at most 65,537.
    pub points: usize,
}

// The sum of two counts, no further than one past the limit.
pub(crate) fn sum_up_to(limit: usize, a: usize, b: usize) -> usize
    requires { limit < 2 ^ 32 }
    ensures { result ≡ up_to limit (a + b) }
{
    let beyond = limit + 1;
    (a.min(beyond) + b.min(beyond)).min(beyond)
}

// The extent of a helper that does not exist.
pub(crate) fn nothing() -> Extent
    ensures { result ≡ no_extent }
{
    Extent {
        depth: 0,
        locals: 0,
        points: 0,
    }
}

/// The extent of `helper`: `None` if it is not settled yet, and 0 in each part if the helper does not exist.
pub(crate) fn settled(table: &[Option<Extent>], helper: usize) -> Option<Extent>
    ensures { result ≡ extent_at table.now helper }
{
    match table.get(helper) {
        Some(extent) => *extent,
        None => Some(nothing()),
    }
}

// The extent of a settled helper.
fn extent_of(table: &[Option<Extent>], helper: usize) -> Extent
    ensures { result ≡ extent_seen table.now helper }
{
    settled(table, helper).unwrap_or(nothing())
}

/// Whether a helper is settled and too deep.
pub fn is_too_deep(table: &[Option<Extent>], helper: usize) -> bool
    ensures { result ≡ is_deep_by (extent_at table.now helper) }
{
    match settled(table, helper) {
        Some(extent) => extent.depth > DEPTH_LIMIT,
        None => false,
    }
}

// 1 for a call whose result is dropped, otherwise 0.
pub(crate) fn hidden_local(helpers: &[CallerBody], call: CallSite) -> usize
    ensures { result ≡ hidden (bodies_of helpers.now) call }
{
    if call.is_bound {
        return 0;
    }
    match helpers.get(call.helper) {
        Some(helper) => { if helper.has_result { 1 } else { 0 } }
        None => 0,
    }
}

// The extent of a body, from those of the helpers that it calls.
pub(crate) fn extent_from(
    table: &[Option<Extent>],
    helpers: &[CallerBody],
    body: &CallerBody,
) -> Extent
    ensures { result ≡ extent_by table.now (bodies_of helpers.now) (body_of body.now) }
{
    let mut depth: usize = 0;
    let mut locals = sum_up_to(LOCAL_LIMIT, body.locals, 0);
    let mut points = sum_up_to(POINT_LIMIT, body.parameters, body.points);
    for call in &body.calls {
        let callee = extent_of(table, call.helper);
        depth = depth.max(callee.depth);
        let brought = sum_up_to(LOCAL_LIMIT, callee.locals, hidden_local(helpers, *call));
        locals = sum_up_to(LOCAL_LIMIT, locals, brought);
        points = sum_up_to(POINT_LIMIT, points, callee.points);
    }
    Extent {
        depth: sum_up_to(DEPTH_LIMIT, 1, depth),
        locals,
        points: sum_up_to(POINT_LIMIT, points, if body.has_result { 1 } else { 0 }),
    }
}
