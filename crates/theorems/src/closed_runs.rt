//! The laws: functions with empty bodies, whose contracts are the laws.

ghost use Rattle.theorems.specs.ClosedRuns.{OneSeatIsSerial, QuietCallsStandAnywhere, CallsEndAlone, ClosedRunsAreSimulated, ClosedEndsAreTold};

/// A closed run in which only one thread has called is what `serial` computes: its calls are that thread's script, in
/// order, and whatever these calls answer, print and leave when they run whole, one after another, is what the history
/// says.
pub fn one_seat_is_serial()
    ensures { OneSeatIsSerial }
{
    core_lang::laws::at_most_one_serial();
}

/// An entry of a call that read and wrote no cell can stand anywhere in a history: the history with the entry at any
/// place is still one of the program's, and leaves the same cells.
pub fn quiet_calls_stand_anywhere()
    ensures { QuietCallsStandAnywhere }
{}

/// In a world of a program's threads in which no section is open, a thread's next call is run whole by some number of
/// steps of that thread alone, where the call ends at all: it ends and prints as it does when it runs whole on the
/// world's cells, leaves these cells, and its entry is the history's last.
pub fn calls_end_alone()
    ensures { CallsEndAlone }
{
    code::laws::steps_go_alike();
    code::run_laws::sections_end_alike::<u8>();
    history::laws::one_entry_more();
    worlds::laws::steps_keep_sound();
    worlds::laws::worlds_stay_ready();
    worlds::laws::rising_sections_go_on();
}

/// A closed run of all scripts is also a run of the simulator, with a turn for each entry, in the history's order, in
/// which steps of its thread alone run its call whole. The history of that run has the same calls of the same threads,
/// with the same ends and prints, and each entry leaves the same cells.
pub fn closed_runs_are_simulated()
    ensures { ClosedRunsAreSimulated }
{
    code::laws::steps_go_alike();
    code::run_laws::sections_end_alike::<u8>();
    history::laws::one_entry_more();
    worlds::laws::steps_keep_sound();
    worlds::laws::worlds_stay_ready();
    worlds::laws::rising_sections_go_on();
}

/// The cells that a closed run of all scripts leaves are those of an end that `outcomes` reports, where it reports the
/// ends of all orders of the calls.
pub fn closed_ends_are_told()
    ensures { ClosedEndsAreTold }
{
    core_lang::laws::at_most_one_serial();
    crate::ends_told::every_end_is_told();
    closed_runs_are_simulated();
}
