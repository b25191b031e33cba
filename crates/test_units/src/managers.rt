//! Tests of the crate `lock_manager`: which thread is granted which lock with which cells, which thread waits, and what
//! is kept.

use std::test::Fail;
use test_support::Scenario;
use test_support::judging::compare;
use test_support::texts::said_of_calls;

/// Two cells, each under a lock of its own.
const DISJOINT_LOCKS: &str = "lock G; lock H;
global int x protected_by(G); global int y protected_by(H);
atomic f() { x = 1; }
atomic g() { y = 2; }
thread a { f(); }
thread b { g(); }
";

/// Two objects whose field is under the lock of a third one.
const SHARED_OWNER: &str = "struct B { lock l; int n protected_by(l); }
struct N { final ref B owner; int v protected_by(owner.l); }
pool B b[1];
pool N q[2];
init q[0].owner = b[0];
init q[1].owner = b[0];
";

#[test]
fn hands_over(rt: HostRuntime) -> Result<(), Fail> {
    let alloc = rt.alloc();
    let said = said_of_calls(alloc, DISJOINT_LOCKS, Scenario::HandOver)?;
    compare(
        alloc,
        said.as_str(),
        "0 begins
0 is granted the lock
Int(0) are with 0
1 begins
1 waits for 0
0 ends at 0, wakes Some(1) None
1 is granted the lock
Int(1) are with 1
1 gives up
cell 0 holds Some(Int(1)), 1 entries
held by None, waiting None None None
",
    )
}

#[test]
fn keeps_places_in_line(rt: HostRuntime) -> Result<(), Fail> {
    let alloc = rt.alloc();
    let said = said_of_calls(alloc, DISJOINT_LOCKS, Scenario::WaitInLine)?;
    compare(
        alloc,
        said.as_str(),
        "0 begins
0 is granted the lock
1 begins
2 begins
2 waits for 0
1 waits for 0
2 waits for 0
held by Some(0), waiting Some(2) Some(1) None
0 ends at 0, wakes Some(2) None
1 is granted the lock
held by Some(1), waiting Some(2) None None
1 ends at 1, wakes Some(2) None
",
    )
}

#[test]
fn grants_all_cells_of_a_lock(rt: HostRuntime) -> Result<(), Fail> {
    let alloc = rt.alloc();
    let said = said_of_calls(alloc, SHARED_OWNER, Scenario::SetOneOfThree)?;
    compare(
        alloc,
        said.as_str(),
        "0 begins
0 is granted the lock
Int(0) Int(1) Int(0) are with 0
",
    )
}
