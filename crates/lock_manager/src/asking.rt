//! The order in which locks may be requested.

ghost use Rattle.std.specs.Prelude.{◌↔◌, IsTrue};
ghost use Rattle.lock_manager.specs.Working.Managers.{ComesAfter};

use locks::lock::Lock;

/// Whether `lock` comes after all locks in `held`.
pub fn comes_after(ranks: &[u32], held: &[Lock], lock: Lock) -> bool
    ensures { IsTrue result ↔ ComesAfter ranks.now held.now lock }
{
    for other in held {
        if !other.precedes(lock, ranks) {
            return false;
        }
    }
    true
}
