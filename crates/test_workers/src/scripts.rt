//! Tests of scripts: each is run by a thread of its own.

use std::test::Fail;
use test_support::judging::compare;
use test_support::{Hold, Mark, Scene, by_threads};

/// Two threads, each with a cell under a lock of its own.
const DISJOINT_LOCKS: &str = "lock G; lock H;
global int x protected_by(G); global int y protected_by(H);
atomic f() { x = x + 1; }
atomic g() { y = y + 2; }
thread a { f(); }
thread b { g(); }
";

/// Money goes from one account to another, and from that one to the first.
const TRANSFERS: &str = "struct Acc { lock l; int bal protected_by(l); }
pool Acc p[2];
init p[0].bal = 10;
init p[1].bal = 20;
atomic transfer(ref Acc a, ref Acc b, int k) : int {
  a.bal = a.bal - k;
  b.bal = b.bal + k;
  return b.bal;
}
thread t { repeat 1000 { transfer(p[0], p[1], 5); } }
thread u { repeat 1000 { transfer(p[1], p[0], 7); } }
";

/// One counter, and no thread.
const COUNTER: &str = "lock G;
global int n protected_by(G);
atomic inc() { n = n + 1; }
";

/// A thread with its lock is held until another has its own.
const fn with_its_lock(thread: u32, other: u32) -> Hold {
    Hold {
        thread,
        at: Mark::Passed(1),
        other,
        until: Mark::Passed(1),
        turns: 0,
    }
}

#[test]
fn scripts_run_side_by_side(rt: HostRuntime) -> Result<(), Fail> {
    let alloc = rt.alloc();
    let scene = Scene {
        text: DISJOINT_LOCKS,
        calls: &[],
        holds: &[with_its_lock(0, 1), with_its_lock(1, 0)],
    };
    let said = by_threads(&rt, alloc, &scene)?;
    compare(alloc, said.as_str(), "2 entries, left Int(1) Int(2)\n")
}

#[test]
fn no_call_of_many_threads_is_lost(rt: HostRuntime) -> Result<(), Fail> {
    let alloc = rt.alloc();
    let mut text = String::new(alloc);
    text.push_str(COUNTER)?;
    for thread in 0..64 {
        write!(
            &mut text,
            "thread t{thread} {{ repeat 1000 {{ inc(); }} }}\n"
        )?;
    }
    let scene = Scene {
        text: text.as_str(),
        calls: &[],
        holds: &[],
    };
    let said = by_threads(&rt, alloc, &scene)?;
    compare(alloc, said.as_str(), "64000 entries, left Int(64000)\n")
}

#[test]
fn transfers_both_ways_end(rt: HostRuntime) -> Result<(), Fail> {
    let alloc = rt.alloc();
    let scene = Scene {
        text: TRANSFERS,
        calls: &[],
        holds: &[],
    };
    let said = by_threads(&rt, alloc, &scene)?;
    compare(
        alloc,
        said.as_str(),
        "2000 entries, left Int(2010) Int(-1980)\n",
    )
}
