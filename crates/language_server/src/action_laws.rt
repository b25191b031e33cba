//! The laws of the changes: functions with empty bodies, whose contracts are the laws.

ghost use Rattle.language_server.specs.Working.Laws.{ReadsLocks, ReadsNearNames, ReadsNull};

/// The name that a change writes is the one that the note is on: for an unknown name the nearest name that may stand
/// there, or `null`; for what no lock protects the lock.
pub fn names_are_read()
    ensures near { ReadsNearNames }
    ensures null { ReadsNull }
    ensures lock { ReadsLocks }
{}
