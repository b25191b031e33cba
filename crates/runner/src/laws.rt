//! Laws of open sections: functions that do nothing, whose contracts are the laws.

ghost use Rattle.runner.specs.Working.Laws.{SectionsStayPart};

/// If the cells of an open section are part of a heap, they stay part of it after its instructions, and after a lock
/// that it is granted with its cells or waits for. They are also part of another heap that has the same values in the
/// cells of its locks.
pub fn sections_stay_part()
    ensures { SectionsStayPart }
{
    code::laws::written_values_stand();
    code::laws::steps_go_alike();
    moved_cells::laws::heaps_have_values();
    history::laws::one_entry_more();
}
