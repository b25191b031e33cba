//! Laws of expansion and of prints: functions that do nothing, and whose contracts are the laws.

ghost use Rattle.core_lang_helpers.specs.Laws.{AProgramWithoutHelpersIsItsOwnExpansion, NoRunPrintsMore};

/// A law: a program without helpers is its own expansion.
pub fn a_program_without_helpers_is_its_own_expansion()
    ensures { AProgramWithoutHelpersIsItsOwnExpansion }
{}

/// A law: no run of a section, whatever its arguments and heap, prints more numbers than the section has `print`
/// statements, if none of these is in a loop and it calls no helper. No run prints more than 256.
pub fn no_run_prints_more()
    ensures { NoRunPrintsMore }
{}
