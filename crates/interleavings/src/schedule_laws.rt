//! Laws of every steps file that is written: functions that do nothing, and whose contracts are the laws.

ghost use Rattle.interleavings.specs.ScheduleLaws.{TextsAreReadBack, TextsComeToTheirTurns};

/// A law: the text of items is read as these items, each at the first byte of its line.
pub fn texts_are_read_back()
    ensures { TextsAreReadBack }
{}

/// A law: if the items give turns, the text gives the same turns, since it has at most as many steps as a file may
/// have.
pub fn texts_come_to_their_turns()
    ensures { TextsComeToTheirTurns }
{}
