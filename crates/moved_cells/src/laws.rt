//! Laws of grants: functions that do nothing, whose contracts are the laws.

ghost use Rattle.moved_cells.specs.Working.Laws.{HasItsCells, OffsetsFindValues, OffsetsChangeCells, ValuesAreWhole, ValuesAgree};

/// The value at the offset of a cell is the cell's, and a write there changes this cell.
pub fn slots_are_cells()
    ensures cells { HasItsCells }
    ensures read { OffsetsFindValues }
    ensures write { OffsetsChangeCells }
{}

/// The values that a heap has in the cells of a lock make a grant of the lock, with a value for each of its cells.
pub fn heaps_have_values()
    ensures whole { ValuesAreWhole }
    ensures agree { ValuesAgree }
{}
