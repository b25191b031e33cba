//! The calls of an order of threads.

ghost use Rattle.std.specs.Prelude.{◌≡◌, ◌<◌, ◌+◌, ◌^◌, IfOk, IfSome, length, map, option_map, slice_index};
ghost use Rattle.outcomes.specs.Ends.{done_after};
ghost use Rattle.outcomes.specs.Orders.{calls_in, none_done};
ghost use Rattle.driver.specs.Outcomes.{scheduled_in, scheduled_next};
ghost use Rattle.driver.specs.Working.Running.{scheduled_of};

use crate::schedule::ScheduledCall;
use core_lang::typed::Typed;
use source::memory::NoMemory;
use std::alloc::Global;

/// The calls of an order, and the number of calls of each thread.
#[derive(Drop)]
pub struct OrderCalls<'a> {
    /// The calls, one after another.
    pub calls: Vec<ScheduledCall<'a>>,
    /// The number of calls of each thread in the order.
    pub done: Vec<usize>,
}

impl OrderCalls<'_> {
    /// The number of calls of `thread` in the order; 0 for an unknown thread.
    pub fn done_of(&self, thread: usize) -> usize
        ensures { result ≡ slice_index self.now.done.items thread }
    {
        self.done.get(thread).copied().unwrap_or(0)
    }
}

/// The next call of `thread` where `done` is the number of finished calls of each thread, if `thread` has a call left.
fn next<'a>(program: &'a Typed, done: &[usize], thread: usize) -> Option<ScheduledCall<'a>>
    ensures next { option_map scheduled_of result ≡ scheduled_next program.entry.now done.now thread }
    ensures thread { IfSome result (λ _. thread < length program.entry.now.threads.items) }
    ensures step { IfSome result (λ call. call.step + 1 < 2 ^ 64) }
{
    let step = done.get(thread).copied().unwrap_or(0);
    let call = program.threads.get(thread)?.calls.get(step)?;
    Some(ScheduledCall { thread, step, call })
}

/// The calls of `order`, each of whose threads has a call left when its turn comes.
pub fn order_calls<'a>(
    alloc: Global,
    program: &'a Typed,
    order: &[usize],
) -> Result<OrderCalls<'a>, NoMemory>
    requires { length (calls_in program.now order.now) ≡ length order.now }
    ensures calls { IfOk result (λ made. map scheduled_of made.calls.items ≡ scheduled_in program.entry.now order.now) }
    ensures done { IfOk result (λ made. made.done.items ≡ done_after (none_done program.entry.now) order.now) }
{
    let mut calls = Vec::with_capacity(alloc, order.len())?;
    let mut done = vec![in alloc; 0; program.threads.len()]?;
    for thread in order {
        if let Some(call) = next(program, &done, *thread) {
            done[*thread] = call.step + 1;
            calls.push(call)?;
        }
    }
    Ok(OrderCalls { calls, done })
}
