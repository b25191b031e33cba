//! The intersection of sets of lock paths.

ghost use Rattle.std.specs.Prelude.{◌≡◌, true, ℕ};
ghost use Rattle.std.specs.Bool.{Decides};
ghost use Rattle.locks.specs.Sets.{has};
ghost use Rattle.lockorder.specs.Working.Sections.{Share};

use locks::path_set::PathSet;

/// Whether two sets have a path in common.
pub fn share(a: PathSet, b: PathSet) -> bool
    ensures { Decides result (Share a b) }
{
    a.meet(b).bits != 0
}
