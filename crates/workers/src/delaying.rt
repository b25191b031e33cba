//! A gate whose delays are drawn.

ghost use Rattle.std.specs.Prelude.{◌≡◌, ◌≤◌};
ghost use Rattle.workers.specs.Delays.{delay, mixed, turns_of};

use crate::gate::Gate;
use rand_core::{Rng, SeedableRng};
use rand_xoshiro::SplitMix64;
use std::sync::atomic::{AtomicU64, Ordering};
use std::thread::yield_now;

/// One pass in this number is delayed, on average.
const ONE_IN: u64 = 4;

/// The limit of a delay, in turns. In each turn other threads may run.
const MOST_TURNS: u64 = 2_048;

/// Delays a thread now and then, by a busy wait. Which passes are delayed, and for how long, is drawn from the seed,
/// the thread, the progress of its call, and the number of earlier passes.
///
/// The gate is called while no lock of the runtime is held, and every call goes on in the end. A delay only changes the
/// order in which calls end, and nothing that is promised of them.
#[derive(Drop)]
pub struct DelayingGate {
    seed: u64,
    passes: AtomicU64,
}

impl DelayingGate {
    /// The gate whose delays are drawn from `seed`.
    pub fn new(seed: u64) -> DelayingGate
        ensures { result.seed ≡ seed }
    {
        DelayingGate {
            seed,
            passes: AtomicU64::new(0),
        }
    }

    /// The delay, in turns, of a pass of `thread` whose call has come as far as `step`, after `pass` earlier passes. It
    /// is at most 2,048. That a pass waits as long, and that passes are counted from 0, no clause says.
    pub fn delay(&self, thread: u32, step: u32, pass: u64) -> u64
        ensures turns { result ≡ delay self.now.seed thread step pass }
        ensures most { result ≤ 2048 }
    {
        let place = mixed(mixed(self.seed, u64::from(thread)), u64::from(step));
        turns_of(mixed(place, pass))
    }
}

impl Gate for DelayingGate {
    fn pass(&self, thread: u32, step: u32) {
        let pass = self.passes.fetch_add(1, Ordering::Relaxed);
        wait(self.delay(thread, step, pass));
    }
}

/// A number each of whose bits depends on all bits of `state` and `word`.
fn mixed(state: u64, word: u64) -> u64
    ensures { result ≡ mixed state word }
{
    SplitMix64::seed_from_u64(state.wrapping_add(word)).next_u64()
}

/// The delay, in turns, for a drawn number.
fn turns_of(drawn: u64) -> u64
    ensures turns { result ≡ turns_of drawn }
    ensures most { result ≤ 2048 }
{
    if drawn % ONE_IN != 0 {
        return 0;
    }
    1 + (drawn / ONE_IN) % MOST_TURNS
}

/// Waits for the given number of turns.
fn wait(turns: u64) {
    for _ in 0..turns {
        yield_now();
    }
}
