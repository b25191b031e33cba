//! The locks that an open section holds, to be found by lock.

ghost use Rattle.std.specs.Prelude.{◌≡◌, ◌<◌, ◌≤◌, ◌^◌, ◌++◌, [], ◌∷◌, MatchOption, ⊤, length, vec_capacity};
ghost use Rattle.runner_machine.specs.Working.Finding.{values_in, AreInRuns, RiseWithin, IsHead, Holds};
ghost use Rattle.runner_machine.specs.Working.Finding.{IsHeldAt, IsNowhere, IsObjectAt, IsObjectNowhere};

use locks::lock::Lock;

/// A lock that is held, and where its grant begins among all grants.
#[derive(Clone, Copy)]
pub struct HeldLock {
    /// The lock.
    pub lock: Lock,
    /// The place of its first cell: places are counted grant after grant.
    pub first: usize,
    /// The number of its cells.
    pub count: usize,
    /// The index of the first lock of its run. The locks of a run are of one class, and their objects rise. A section
    /// is granted its locks in lock order, so that it has few runs.
    pub head: usize,
}

// Finds the lock of `object` in a run, between `head` and `end`, by binary search.
fn search(held: &[HeldLock], head: usize, end: usize, object: u32) -> Option<usize>
    requires order { head ≤ end }
    requires within { end ≤ length held.now }
    requires rise { RiseWithin held.now head end }
    ensures none { MatchOption result (IsObjectNowhere held.now head end object) (λ _. ⊤) }
    ensures some { MatchOption result ⊤ (λ i. IsObjectAt held.now head end object i) }
{
    let mut low = head;
    let mut high = end;
    while low < high {
        let middle = low + (high - low) / 2;
        let there = held[middle].lock.object;
        if there == object {
            return Some(middle);
        }
        if there < object {
            low = middle + 1;
        } else {
            high = middle;
        }
    }
    None
}

/// Finds `lock`, the last run first.
pub fn find(held: &[HeldLock], lock: Lock) -> Option<usize>
    requires { AreInRuns held.now }
    ensures none { MatchOption result (IsNowhere held.now lock) (λ _. ⊤) }
    ensures some { MatchOption result ⊤ (λ i. IsHeldAt held.now lock i) }
{
    let mut end = held.len();
    while end > 0 {
        let head = held[end - 1].head;
        if held[head].lock.class == lock.class {
            if let Some(index) = search(held, head, end, lock.object) {
                return Some(index);
            }
        }
        end = head;
    }
    None
}

// The number of cells of all these locks.
fn cells_of(held: &[HeldLock]) -> usize
    requires few { values_in held.now < 2 ^ 64 }
    requires runs { AreInRuns held.now }
    ensures { result ≡ values_in held.now }
{
    match held.last() {
        Some(last) => last.first + last.count,
        None => 0,
    }
}

// The index of the first lock of the run that `lock` is in, if it comes next.
fn head_for(held: &[HeldLock], lock: Lock) -> usize
    requires { AreInRuns held.now }
    ensures { IsHead held.now lock result }
{
    match held.last() {
        Some(last) if last.lock.class == lock.class && last.lock.object < lock.object => last.head,
        _ => held.len(),
    }
}

// The next held lock: `lock`, with `count` cells.
fn next_held(held: &[HeldLock], lock: Lock, count: usize) -> HeldLock
    requires few { values_in held.now < 2 ^ 64 }
    requires runs { AreInRuns held.now }
    ensures lock { result.lock ≡ lock }
    ensures count { result.count ≡ count }
    ensures runs { AreInRuns (held.now ++ result ∷ []) }
{
    HeldLock {
        lock,
        first: cells_of(held),
        count,
        head: head_for(held, lock),
    }
}

/// Appends `lock`, with `count` cells.
pub fn hold(held: &mut Vec<HeldLock>, lock: Lock, count: usize)
    requires few { values_in held.old.items < 2 ^ 64 }
    requires runs { AreInRuns held.old.items }
    requires room { length held.old.items < vec_capacity held.old }
    ensures held { Holds held.old.items lock count held.new.items }
    ensures capacity { vec_capacity held.old ≤ vec_capacity held.new }
{
    let next = next_held(held, lock, count);
    held.push(next).unwrap();
}
