//! Tests of the crate `interleavings`: the steps of a thread, one by one.

use std::test::Fail;
use test_support::judging::compare;
use test_support::texts::stepped;

const LOST_UPDATE: &str = "lock G;
global int n protected_by(G);
atomic inc() { n = n + 1; }
thread t { inc(); }
thread u { inc(); }
";

#[test]
fn steps_through_a_call(rt: HostRuntime) -> Result<(), Fail> {
    let alloc = rt.alloc();
    let said = stepped(alloc, LOST_UPDATE, 0, 10)?;
    compare(
        alloc,
        said.as_str(),
        "Began, Running
Moved, Running
Got(Lock { class: 0, object: 0 }), Running
Moved, Running
Moved, Running
Moved, Running
Moved, Running
Moved, Running
Ended(0), Idle
Idle, Idle
",
    )
}

#[test]
fn has_no_step_where_there_is_no_thread(rt: HostRuntime) -> Result<(), Fail> {
    let alloc = rt.alloc();
    let said = stepped(alloc, LOST_UPDATE, 2, 1)?;
    compare(alloc, said.as_str(), "Idle, Idle\n")
}
