//! The laws of the meaning of every program, in the language's own words: an error in a definition would show in these
//! laws.

ghost use Rattle.theorems.specs.Meanings.{UncalledHelpersChangeNoExpansion, UncalledHelpersChangeNoRun};
ghost use Rattle.theorems.specs.Meanings.{ACallDoesWhatTheHelperDoes, ACallGivesWhatTheHelperGives};
ghost use Rattle.theorems.specs.Meanings.{AWhereThatHoldsChangesNothing, AWhereThatFailsEndsTheSection};

/// Further helpers that no section calls change no expansion, and no answer, print or cell of calls that are run whole,
/// one after another.
pub fn uncalled_helpers_change_nothing()
    ensures expansion { UncalledHelpersChangeNoExpansion }
    ensures runs { UncalledHelpersChangeNoRun }
{
    core_lang::laws::writing_out_changes_nothing();
}

/// A section whose only statement is a call of a helper means what the helper's body means. The same holds of a section
/// that only binds the helper's result and returns it.
pub fn a_call_is_the_helper()
    ensures drops { ACallDoesWhatTheHelperDoes }
    ensures gives { ACallGivesWhatTheHelperGives }
{}

/// A `where` that holds changes nothing; one that does not hold ends the section with its trap, and earlier writes
/// remain.
pub fn a_where_is_a_test()
    ensures holds { AWhereThatHoldsChangesNothing }
    ensures fails { AWhereThatFailsEndsTheSection }
{}
