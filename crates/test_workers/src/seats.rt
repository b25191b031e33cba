//! Tests of seats: the answers of their calls, and which seat waits for which.

use core_lang::value::Value;
use std::alloc::Global;
use std::sync::Wait;
use std::test::Fail;
use std::thread::Threads;
use test_support::judging::compare;
use test_support::{
    Hold, Mark, Scene, SeatCall, in_agreement, in_turn, over_one_row, side_by_side,
};

/// One cell that is written and read.
const PUT_AND_GET: &str = "lock G;
global int n protected_by(G);
atomic put(int k) { n = k; }
atomic get() : int { return n; }
";

/// Seat 0 puts 9, seat 1 gets it.
const PUT_9_THEN_GET: &[SeatCall<'static>] = &[
    SeatCall {
        section: 0,
        arguments: &[Value::Int(9)],
    },
    SeatCall {
        section: 1,
        arguments: &[],
    },
];

/// Two cells, each under a lock of its own.
const DISJOINT_LOCKS: &str = "lock G; lock H;
global int x protected_by(G); global int y protected_by(H);
atomic f() { x = x + 1; }
atomic g() { y = y + 2; }
";

const F: SeatCall<'static> = SeatCall {
    section: 0,
    arguments: &[],
};

const G: SeatCall<'static> = SeatCall {
    section: 1,
    arguments: &[],
};

/// A thread with its first lock is held until another has come to this mark.
const fn with_its_lock(thread: u32, other: u32, until: Mark, turns: u32) -> Hold {
    Hold {
        thread,
        at: Mark::Passed(1),
        other,
        until,
        turns,
    }
}

/// A thread does not call before another has passed a step.
const fn behind(thread: u32, other: u32, step: u32) -> Hold {
    Hold {
        thread,
        at: Mark::Ready,
        other,
        until: Mark::Passed(step),
        turns: 0,
    }
}

/// Compares the expected answers with those that the scene's seats get when they call side by side.
fn judge_side_by_side<R: Threads + Wait + Sync>(
    rt: &R,
    alloc: Global,
    scene: &Scene<'_>,
    want: &str,
) -> Result<(), Fail> {
    let said = side_by_side(rt, alloc, scene)?;
    compare(alloc, said.as_str(), want)
}

#[test]
fn a_seat_sees_what_another_wrote(rt: HostRuntime) -> Result<(), Fail> {
    let alloc = rt.alloc();
    let scene = Scene {
        text: PUT_AND_GET,
        calls: PUT_9_THEN_GET,
        holds: &[],
    };
    let said = in_turn(&rt, alloc, &scene, 2)?;
    compare(
        alloc,
        said.as_str(),
        "0: Ends at 0
1: Returns(Int(9)) at 1
2 entries, left Int(9)
",
    )
}

/// What seat 1 has seen continues where what seat 0 has seen ends.
#[test]
fn who_calls_later_has_seen_more(rt: HostRuntime) -> Result<(), Fail> {
    let alloc = rt.alloc();
    let scene = Scene {
        text: PUT_AND_GET,
        calls: PUT_9_THEN_GET,
        holds: &[],
    };
    let said = in_agreement(&rt, alloc, &scene)?;
    compare(
        alloc,
        said.as_str(),
        "agree true true
0: Ends at 0
1: Returns(Int(9)) at 1
agree true false
",
    )
}

#[test]
fn an_entry_without_its_seat_is_strange(rt: HostRuntime) -> Result<(), Fail> {
    let alloc = rt.alloc();
    let scene = Scene {
        text: PUT_AND_GET,
        calls: PUT_9_THEN_GET,
        holds: &[],
    };
    let said = in_turn(&rt, alloc, &scene, 1)?;
    compare(
        alloc,
        said.as_str(),
        "0: Ends at 0
1: Returns(Int(9)) at 1
strange
",
    )
}

/// The second has a seat of thread 0 too, and finds an entry in the row that isn't its own.
#[test]
fn a_row_with_entries_is_strange(rt: HostRuntime) -> Result<(), Fail> {
    let alloc = rt.alloc();
    let scene = Scene {
        text: PUT_AND_GET,
        calls: PUT_9_THEN_GET,
        holds: &[],
    };
    let said = over_one_row(&rt, alloc, &scene)?;
    compare(
        alloc,
        said.as_str(),
        "0: Ends at 0
1 entries, left Int(9)
strange
strange
",
    )
}

/// Seat 1 begins while the gate holds seat 0 with the lock.
#[test]
fn a_gate_holds_no_other_seat(rt: HostRuntime) -> Result<(), Fail> {
    let scene = Scene {
        text: DISJOINT_LOCKS,
        calls: &[F, F],
        holds: &[behind(1, 0, 1), with_its_lock(0, 1, Mark::Passed(0), 0)],
    };
    judge_side_by_side(
        &rt,
        rt.alloc(),
        &scene,
        "0: Ends at 0
1: Ends at 1
2 entries, left Int(2) Int(0)
",
    )
}

/// Seat 1 is answered while the gate holds seat 0 after its begin, before any lock.
#[test]
fn a_begin_holds_no_other_seat(rt: HostRuntime) -> Result<(), Fail> {
    let scene = Scene {
        text: DISJOINT_LOCKS,
        calls: &[F, F],
        holds: &[
            behind(1, 0, 0),
            Hold {
                thread: 0,
                at: Mark::Passed(0),
                other: 1,
                until: Mark::Over,
                turns: 0,
            },
        ],
    };
    judge_side_by_side(
        &rt,
        rt.alloc(),
        &scene,
        "0: Ends at 1
1: Ends at 0
2 entries, left Int(2) Int(0)
",
    )
}

/// Seat 1 has waited for the lock long before it is released.
#[test]
fn a_release_wakes_who_waits(rt: HostRuntime) -> Result<(), Fail> {
    let scene = Scene {
        text: DISJOINT_LOCKS,
        calls: &[F, F],
        holds: &[
            behind(1, 0, 1),
            with_its_lock(0, 1, Mark::Passed(0), 1_000_000),
        ],
    };
    judge_side_by_side(
        &rt,
        rt.alloc(),
        &scene,
        "0: Ends at 0
1: Ends at 1
2 entries, left Int(2) Int(0)
",
    )
}

#[test]
fn one_lock_holds_no_other(rt: HostRuntime) -> Result<(), Fail> {
    let scene = Scene {
        text: DISJOINT_LOCKS,
        calls: &[F, G],
        holds: &[behind(1, 0, 1), with_its_lock(0, 1, Mark::Over, 0)],
    };
    judge_side_by_side(
        &rt,
        rt.alloc(),
        &scene,
        "0: Ends at 1
1: Ends at 0
2 entries, left Int(1) Int(2)
",
    )
}

#[test]
fn the_other_lock_holds_no_other(rt: HostRuntime) -> Result<(), Fail> {
    let scene = Scene {
        text: DISJOINT_LOCKS,
        calls: &[F, G],
        holds: &[behind(0, 1, 1), with_its_lock(1, 0, Mark::Over, 0)],
    };
    judge_side_by_side(
        &rt,
        rt.alloc(),
        &scene,
        "0: Ends at 0
1: Ends at 1
2 entries, left Int(1) Int(2)
",
    )
}

/// Once seat 0 is in `f`, seat 1 calls `g` and seat 2 `f`; seat 0 goes on when `g` is answered and seat 2 has waited
/// long.
#[test]
fn who_waits_holds_no_third(rt: HostRuntime) -> Result<(), Fail> {
    let scene = Scene {
        text: DISJOINT_LOCKS,
        calls: &[F, G, F],
        holds: &[
            behind(1, 0, 1),
            behind(2, 0, 1),
            with_its_lock(0, 1, Mark::Over, 0),
            with_its_lock(0, 2, Mark::Passed(0), 1_000_000),
        ],
    };
    judge_side_by_side(
        &rt,
        rt.alloc(),
        &scene,
        "0: Ends at 1
1: Ends at 0
2: Ends at 2
3 entries, left Int(2) Int(2)
",
    )
}

/// Two cells, and a section that takes both locks.
const BOTH_LOCKS: &str = "lock G; lock H;
global int x protected_by(G); global int y protected_by(H);
atomic both() { x = x + 1; y = y + 1; }
atomic f() { x = x + 1; }
atomic g() { y = y + 2; }
";

/// A section that runs long with its lock.
const LONG: &str = "lock G; lock H;
global int x protected_by(G); global int y protected_by(H);
atomic long() { x = 1; var i: int = 0; while (i < 3000000) { i = i + 1; } x = x + 1; }
atomic g() { y = y + 2; }
";

/// Seats 1 and 2 have waited long, each for one of the two locks that seat 0 releases. Both are woken: seat 1 is held
/// with its lock until seat 2 is answered.
#[test]
fn a_release_wakes_who_waits_for_each_lock(rt: HostRuntime) -> Result<(), Fail> {
    let third = SeatCall {
        section: 2,
        arguments: &[],
    };
    let scene = Scene {
        text: BOTH_LOCKS,
        calls: &[F, G, third],
        holds: &[
            behind(1, 0, 2),
            behind(2, 0, 2),
            Hold {
                thread: 0,
                at: Mark::Passed(2),
                other: 1,
                until: Mark::Passed(0),
                turns: 0,
            },
            Hold {
                thread: 0,
                at: Mark::Passed(2),
                other: 2,
                until: Mark::Passed(0),
                turns: 1_000_000,
            },
            with_its_lock(1, 2, Mark::Over, 0),
        ],
    };
    judge_side_by_side(
        &rt,
        rt.alloc(),
        &scene,
        "0: Ends at 0
1: Ends at 2
2: Ends at 1
3 entries, left Int(2) Int(3)
",
    )
}

/// Seat 1 is answered while seat 0 runs long.
#[test]
fn a_long_section_holds_no_other(rt: HostRuntime) -> Result<(), Fail> {
    let scene = Scene {
        text: LONG,
        calls: &[F, G],
        holds: &[behind(1, 0, 1)],
    };
    judge_side_by_side(
        &rt,
        rt.alloc(),
        &scene,
        "0: Ends at 1
1: Ends at 0
2 entries, left Int(2) Int(2)
",
    )
}
