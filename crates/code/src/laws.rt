//! Laws of every run of a code: functions that do nothing, and whose contracts are the laws.

ghost use Rattle.std.specs.Prelude.{List};
ghost use Rattle.core_lang.specs.declared.value.Value.{Value};
ghost use Rattle.code.specs.Memory.{HeldCells};
ghost use Rattle.code.specs.Working.Laws.{InRuns, StaysOver, EndsOnce, HasWritten, KeepsUnwritten, KeepsSize, KeepsHeld, MovesAlike, AsksAlike, FinishesAlike, HaltsAlike, HaltsOnItsHeap};

/// A law: a run that is over, on a heap or on held cells, stays as it is. Hence two ends of one run are the same.
pub fn over_stays_over()
    ensures heap { InRuns (List Value) StaysOver }
    ensures held { InRuns HeldCells StaysOver }
    ensures one_on_heap { InRuns (List Value) EndsOnce }
    ensures one_on_held { InRuns HeldCells EndsOnce }
{}

/// A law: a heap with values written into it has them, elsewhere its former values, and as many cells.
pub fn written_values_stand()
    ensures written { HasWritten }
    ensures unwritten { KeepsUnwritten }
    ensures size { KeepsSize }
{}

/// A law: an instruction on held cells does the same on each heap that has these cells and the values that were read of
/// them, with the writes made to that heap. It leaves the same cells held.
pub fn steps_go_alike()
    ensures keeps { KeepsHeld }
    ensures moves { MovesAlike }
    ensures asks { AsksAlike }
    ensures finishes { FinishesAlike }
{}

/// A law: a section that halts on held cells halts with the same outcome and prints on each heap that has these cells
/// and the values that it read of them, and leaves that heap with its writes made. This includes the heap that the
/// cells are part of.
pub fn runs_go_alike()
    ensures every { HaltsAlike }
    ensures own { HaltsOnItsHeap }
{}
