//! Laws of every run: functions that do nothing, and whose contracts are the laws.

ghost use Rattle.worlds.specs.Claims.{EveryRunHasIt, EveryWorldKeepsTheRules, OfScriptsRunAlike};
ghost use Rattle.worlds.specs.Waiting.{RisingHasNoCycle, RisingWaitsForHolders, RisingGoesOn, InstructionsHaveTheirCase};
ghost use Rattle.worlds.specs.Working.InTurn.{AskedInTurn};
ghost use Rattle.worlds.specs.Working.States.{OpeningIsSound, StepsKeepSound};
ghost use Rattle.worlds.specs.Working.Ahead.{WorldsStayReady};
ghost use Rattle.worlds.specs.Working.InOrder.{SectionsStayInOrder};

/// A law: before any step a world is sound, and each step of a thread of a compiled program keeps it so. Its history is
/// legal and true, each open section keeps the rules, and each cell is either as the history leaves it or with exactly
/// one section.
pub fn steps_keep_sound()
    ensures opening { OpeningIsSound }
    ensures step { StepsKeepSound }
{
    code::laws::written_values_stand();
    code::laws::steps_go_alike();
    code::run_laws::sections_end_alike::<u8>();
    history::laws::one_entry_more();
}

/// A law: before any step a world is ready, and each step of a thread of a compiled program keeps a sound world ready.
/// What its history leaves is a heap of the program, and each open section runs on to an outcome or to a point, or asks
/// for the locks of one. In a ready world each lock that a section is to be granted next comes after all that it holds;
/// if it is sound too, the next instruction of each open section has its case.
pub fn worlds_stay_ready()
    ensures { WorldsStayReady }
{
    core_lang::laws::never_astray();
    flow::laws::points_are_counted();
    flow::laws::points_stay_typed();
    locks::laws::paths_name_the_locks();
    locks::laws::lets_keep_agreeing();
    locks::laws::names_stay();
    code::laws::written_values_stand();
    code::point_laws::points_go_on::<u8>();
    code::point_laws::points_have_places::<u8>();
    code::run_laws::sections_end_alike::<u8>();
    inserter::laws::placements_are_ordered();
    inserter::laws::asks_rise();
    history::laws::one_entry_more();
    locks_are_asked_in_turn();
}

/// A law: an open section keeps the rules and can go on, by itself: from the begin of a call that fits, by each
/// instruction, which has its case, and by each lock that it is granted with its cells. A lock that it is to be granted
/// next comes after all that it holds. Pending locks are locks of the program and fit the section's room. If the
/// section has an outcome, its entry is true.
pub fn sections_stay_in_order()
    ensures { SectionsStayInOrder }
{
    core_lang::laws::never_astray();
    flow::laws::points_are_counted();
    flow::laws::points_stay_typed();
    locks::laws::paths_name_the_locks();
    locks::laws::named_are_locks();
    locks::laws::lets_keep_agreeing();
    locks::laws::names_stay();
    locks::laws::each_path_once();
    code::laws::written_values_stand();
    code::laws::steps_go_alike();
    code::point_laws::points_go_on::<u8>();
    code::point_laws::points_have_places::<u8>();
    code::run_laws::sections_end_alike::<u8>();
    inserter::laws::placements_are_ordered();
    inserter::laws::asks_rise();
    history::laws::one_entry_more();
    locks_are_asked_in_turn();
}

/// A law about every run of a compiled program, whatever the steps. The results and prints of its finished sections,
/// and every cell that no section holds, are those of a serial run of these sections from the initial cells. A section
/// that ended before another began comes before it. The finished sections of each thread are the first calls of its
/// script, in order, and its open section is the next one. Each end has an entry of its thread. In each world on the
/// way, sections keep the rules of locking, no threads wait for each other in a cycle, and a thread that waits does so
/// for another's open section. If a section is open, the next step of some open section is not a wait. The next
/// instruction of each open section has its case.
pub fn every_run()
    ensures { EveryRunHasIt }
{
    history::laws::legal_is_serial();
    lowering::laws::compiled_run_alike();
    steps_keep_sound();
    worlds_stay_ready();
    rising_sections_go_on();
    locks::laws::precedes_is_strict();
}

/// A law: calls of scripts that run serially on the compiled program run in the same way on the accepted one, whose
/// helpers are not expanded.
pub fn of_scripts_run_alike()
    ensures { OfScriptsRunAlike }
{
    lowering::laws::compiled_run_alike();
}

/// A law: in every world that a compiled program reaches, no two sections hold one lock, and none holds one twice. A
/// section has exactly the cells of the locks that it holds. What it read is what the history leaves, and its cells
/// have that with its writes made. Each lock that it is to be granted next comes after all that it holds. The history
/// is legal, and its entries are true.
pub fn sections_keep_the_rules()
    ensures { EveryWorldKeepsTheRules }
{
    steps_keep_sound();
    worlds_stay_ready();
    locks::laws::precedes_is_strict();
}

/// A law: in every world that a compiled program reaches, the next instruction of an open section has its case, and its
/// operands fit the room that the section's code needs, unless the section still has to be granted a lock, or has an
/// outcome.
pub fn instructions_have_their_case()
    ensures { InstructionsHaveTheirCase }
{
    steps_keep_sound();
    worlds_stay_ready();
}

/// A law: in a world where each lock that a section is to be granted next comes after all that it holds, no threads
/// wait in a cycle. A thread that waits does so for the open section of another. If a section is open, the next step of
/// some open section is not a wait.
pub fn rising_sections_go_on()
    ensures no_cycle { RisingHasNoCycle }
    ensures waits { RisingWaitsForHolders }
    ensures goes_on { RisingGoesOn }
{
    locks::laws::no_circle();
    locks::laws::precedes_is_strict();
}

/// A law: the locks that a run of a section asks for before a point come after those that it holds, one after another.
/// Once all are granted, the run is still at that point and holds each lock that is listed there.
pub fn locks_are_asked_in_turn()
    ensures { AskedInTurn }
{
    locks::laws::paths_have_classes();
    locks::laws::each_path_once();
    locks::laws::precedes_is_strict();
    inserter::laws::asks_rise();
}
