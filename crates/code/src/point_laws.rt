//! Laws of the code of a section's points: functions that do nothing, and whose contracts are the laws. `P` is the type
//! of lock paths.

ghost use Rattle.std.specs.Prelude.{List, slice_get};
ghost use Rattle.core_lang.specs.declared.value.Value.{Value};
ghost use Rattle.code.specs.Memory.{HeldCells, load_from, store_to, load_held, store_held};
ghost use Rattle.code.specs.Working.Seen.{IsMemory, held_value};
ghost use Rattle.code.specs.Working.PointLaws.{PointsGoOn, SpotsArePoints, PointsHaveSpots, SpotsHaveNumbers};
ghost use Rattle.code.specs.Working.PointLaws.{FirstPointIsAtStart, EmptyHasEnd, SpotsAcquire, OnlySpotsAcquire, SectionsGoOn};

/// A law: a whole heap is a memory, and so are held cells.
pub fn memories_are_seen()
    ensures heap { IsMemory load_from store_to slice_get }
    ensures held { IsMemory load_held store_held held_value }
{}

/// A law: if a point can be executed, each instruction of its code has its case and its operands fit, and the machine
/// comes to a point that follows it, in the state that the point leads to, or to an outcome that the section has there.
pub fn points_go_on<P>()
    ensures heap { PointsGoOn P (List Value) load_from store_to slice_get }
    ensures held { PointsGoOn P HeldCells load_held store_held held_value }
{}

/// A law: each point of a section has a place, at which its code begins with what is acquired before it. The first
/// point's place is the start of the code. Nothing is acquired elsewhere.
pub fn points_have_places<P>()
    ensures number { SpotsArePoints P }
    ensures each { PointsHaveSpots P }
    ensures once { SpotsHaveNumbers P }
    ensures first { FirstPointIsAtStart P }
    ensures none { EmptyHasEnd P }
    ensures acquired { SpotsAcquire P }
    ensures only { OnlySpotsAcquire P }
{}

/// A law: a section of a well-formed program that runs alone always has a next instruction until it comes to an
/// outcome, and at most as many operands as it needs.
pub fn sections_go_on<P>()
    ensures { SectionsGoOn P }
{
    flow::laws::points_stay_typed();
}
