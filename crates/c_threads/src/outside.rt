//! A law of calls from outside: a function that does nothing, and whose contract is the law.

ghost use Rattle.c_threads.specs.Outside.{CallsMayComeFromOutside};

/// A law: a compiled program remains compiled with any calls of its sections as its scripts, up to the limits of
/// threads and calls.
pub fn calls_may_come_from_outside()
    ensures { CallsMayComeFromOutside }
{
    core_lang::laws::writing_out_changes_nothing();
}
