//! Laws of threads that run sections in C: functions that do nothing, and whose contracts are the laws.

ghost use Rattle.c_threads.specs.Claims.{EveryRunIsOfWorlds, EveryRunInC, OutsideCallsRunInC};

/// A law: every run of threads in C corresponds to a run of the world of `worlds`. C defines all that it does, and some
/// steps of the world lead to the same history, to the same open sections with the same locks, and to the same cells:
/// each cell has in memory its value in the world, or in the section that holds it. A wait for a lock is not a step
/// there, nor is a release after the first, nor the return.
pub fn every_run_is_of_worlds()
    ensures { EveryRunIsOfWorlds }
{
    locks::laws::precedes_is_strict();
    history::laws::one_entry_more();
    worlds::laws::steps_keep_sound();
    worlds::laws::worlds_stay_ready();
    c_language::group_laws::groups_do_alike::<u8>();
    c_language::group_laws::sections_have_plans::<u8>();
    c_language::group_laws::sections_behave_in_c::<u8>();
    c_language::group_laws::numbers_stay_fitting();
    crate::lock_laws::notes_stay();
    crate::lock_laws::ends_give_back_what_is_held();
}

/// A law about every run of threads in C, whatever the steps. C defines all that it does. The answers of the calls that
/// have returned, and every cell of the memory whose lock no thread has locked, are those of a serial run of the
/// history's calls from the initial cells. A call that returned before another began comes before it. Each cell that a
/// thread's next group reads or writes is protected by a lock that the thread has locked, and no two threads have one
/// lock locked, so that no data race occurs. A thread without a call has no lock locked. No threads wait for each other
/// in a cycle, even while locks are released one by one. If a call is under way, the next step of some thread leads on.
/// All numbers have 64 bits.
pub fn every_run_in_c()
    ensures { EveryRunInC }
{
    locks::laws::precedes_is_strict();
    locks::laws::no_circle();
    history::laws::one_entry_more();
    worlds::laws::steps_keep_sound();
    worlds::laws::worlds_stay_ready();
    worlds::laws::rising_sections_go_on();
    worlds::laws::every_run();
    c_language::group_laws::groups_do_alike::<u8>();
    c_language::group_laws::sections_have_plans::<u8>();
    c_language::group_laws::sections_behave_in_c::<u8>();
    c_language::group_laws::numbers_stay_fitting();
    crate::lock_laws::notes_stay();
    crate::lock_laws::ends_give_back_what_is_held();
}

/// A law: the same holds for calls that come from outside: any calls of the sections of a compiled program, made by any
/// threads, instead of its scripts.
pub fn outside_calls_run_in_c()
    ensures { OutsideCallsRunInC }
{
    crate::outside::calls_may_come_from_outside();
    every_run_in_c();
}
