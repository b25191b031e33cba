//! Laws of calls by the cells that they touch: functions that do nothing, whose contracts are the laws.

ghost use Rattle.outcomes.specs.IndependenceLaws.{OtherCellsChangeNothing, CallsApartCommute};

/// A section's run depends only on the cells that it may read or write, and changes only those that it may write.
pub fn other_cells_change_nothing()
    ensures { OtherCellsChangeNothing }
{}

/// Two calls commute if neither writes a cell that the other touches.
pub fn calls_apart_commute()
    ensures { CallsApartCommute }
{}
