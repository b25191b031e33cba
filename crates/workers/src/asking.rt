//! Asking for the pending locks of a section in one hold of the Mutex.

ghost use Rattle.code.specs.Memory.{IsPartOf};
ghost use Rattle.lock_manager.specs.Working.Calls.{KeepsEntries};
ghost use Rattle.runner.specs.Working.Opens.{IsKnown};
ghost use Rattle.runner.specs.Working.Answers.{GoesOnSame};
ghost use Rattle.runner.specs.Working.Laws.{memory_of};
ghost use Rattle.workers.specs.Working.LockEnds.{asked_open};

use lock_manager::manager::Manager;
use runner::states::{Asked, Asking, Next};

/// Asks for the first pending lock of a section, and after each grant for the next one, at most `most` times. Returns the
/// last answer, and how many locks were granted.
pub(crate) fn ask_on<'p>(
    manager: &mut Manager<'p>,
    asking: Asking<'p>,
    most: u32,
) -> (Asked<'p>, u32)
    requires known { IsKnown manager.old asking }
    ensures same { GoesOnSame asking.entry result.0 }
    ensures entries { KeepsEntries manager.old manager.new }
    ensures part { IsPartOf manager.old.values (memory_of asking.entry) →
        IsPartOf manager.old.values (memory_of (asked_open result.0)) }
{
    runner::laws::sections_stay_part();
    let mut asking = asking;
    for granted in 0..most {
        asking.keeps_its_rules();
        manager.keeps_its_rules();
        asking = match asking.ask(manager) {
            Asked::Got(Next::Asking(further)) => further,
            Asked::Got(next) => return (Asked::Got(next), granted + 1),
            Asked::Waits(again, holder) => return (Asked::Waits(again, holder), granted),
        };
    }
    (Asked::Got(Next::Asking(asking)), most)
}
