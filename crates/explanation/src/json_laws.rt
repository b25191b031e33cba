//! Laws of the JSON of every fault: functions that do nothing, and whose contracts are the laws.

ghost use Rattle.explanation.specs.Working.JsonLaws.{FaultByFirstBytes};

/// A law: the JSON of a fault at the beginning of a text, with notes without places, depends only on the first bytes:
/// it is the same for each prefix of the text that is longer than what is read.
pub fn fault_by_first_bytes()
    ensures { FaultByFirstBytes }
{}
