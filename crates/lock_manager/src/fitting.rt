//! Comparison of the locks that a section holds with the grants that it returns.

ghost use Rattle.std.specs.Prelude.{◌↔◌, IsTrue};
ghost use Rattle.std.specs.List.{Contains, All};
ghost use Rattle.moved_cells.specs.Working.Grants.{IsWhole, locks_of};
ghost use Rattle.lock_manager.specs.Working.Calls.{AreOf};

use layout::table::Layout;
use locks::lock::Lock;
use moved_cells::grant::Grant;

/// Tests that the grants are of the locks in `held`, in the same order, and that each has all cells of its lock. Both
/// lists are read once.
pub fn are_in_step(layout: &Layout, held: &[Lock], grants: &[Grant]) -> bool
    requires { All (Contains layout.now.locks) held.now }
    ensures { IsTrue result → AreOf layout.now.cell_locks held.now grants.now }
{
    if grants.len() != held.len() {
        return false;
    }
    for i in 0..held.len() {
        let lock = held[i];
        let grant = &grants[i];
        if grant.lock() != lock {
            return false;
        }
        let cells = layout.cells_of(lock);
        if grant.values().len() != cells as usize {
            return false;
        }
    }
    true
}

// Whether one of the grants is of `lock`.
fn has_grant(grants: &[Grant], lock: Lock) -> bool
    ensures { IsTrue result ↔ Contains (locks_of grants.now) lock }
{
    for grant in grants {
        if grant.lock() == lock {
            return true;
        }
    }
    false
}

/// Whether each of these locks has a grant.
pub fn all_granted(held: &[Lock], grants: &[Grant]) -> bool
    ensures { IsTrue result ↔ All (Contains (locks_of grants.now)) held.now }
{
    for lock in held {
        if !has_grant(grants, *lock) {
            return false;
        }
    }
    true
}

/// Whether each grant is of one of these locks.
pub fn all_held(grants: &[Grant], held: &[Lock]) -> bool
    ensures { IsTrue result ↔ All (λ g. Contains held.now g.lock) grants.now }
{
    for grant in grants {
        if !grant.lock().is_among(held) {
            return false;
        }
    }
    true
}

/// Whether each grant has all cells of its lock.
pub fn are_whole(layout: &Layout, grants: &[Grant]) -> bool
    requires { All (λ g. Contains layout.now.locks g.lock) grants.now }
    ensures { IsTrue result ↔ All (IsWhole layout.now.cell_locks) grants.now }
{
    for grant in grants {
        let count = layout.cells_of(grant.lock());
        if grant.values().len() != count as usize {
            return false;
        }
    }
    true
}
