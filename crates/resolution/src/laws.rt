//! Laws of resolution and of faults: functions that do nothing, and whose contracts are the laws.

ghost use Rattle.resolution.specs.Working.Laws.{ExpressionsByRules, FoundAreAssigned, AssignedAreFound, WantedAreAsked, FinalsByRules, StatementsByRules, BodiesByRules, SectionsByRules};
ghost use Rattle.resolution.specs.Working.Laws.{SortsByRules, ConstantsByRules, ArgumentsByRules, OpeningsByRules, ReferencesByRules};
ghost use Rattle.resolution.specs.Working.Laws.{TheFirstsAreFirstFaults, TheFirstIsTheLeast};
ghost use Rattle.resolution.specs.Working.Laws.{TheLeastIsAFault, TheLeastHasItsReason, NoneGoesBeforeTheLeast, NoLeastIsNoFault, HaveAtMostOneLeast, FaultlessAreResolved, ResolvedByRules, RulesAreResolved, StandsForOne, GraphOfResolved, ResolvedAreChecked, WithoutHelpersAreWellFormed};

use core_lang_helpers::call_laws::{faultless_keep_limits, listed_faults};

/// A law: the least fault of the list is a fault of the program for its reason, and no fault of the program comes
/// before it. If the list is empty, the program has no fault.
pub fn least_fault()
    ensures fault { TheLeastIsAFault }
    ensures reason { TheLeastHasItsReason }
    ensures least { NoneGoesBeforeTheLeast }
    ensures none { NoLeastIsNoFault }
{
    listed_faults();
}

/// A law: the first faults of the list are first faults of the program, and the first of them is the least.
pub fn first_faults()
    ensures firsts { TheFirstsAreFirstFaults }
    ensures first { TheFirstIsTheLeast }
{
    listed_faults();
}

/// A law: a program has at most one least fault, before which no other one comes.
pub fn one_least()
    ensures { HaveAtMostOneLeast }
{}

/// A law: a program without faults is resolved.
pub fn faultless_are_resolved()
    ensures { FaultlessAreResolved }
{}

/// A law: the program that a tree stands for is exactly the one that the rules build.
pub fn resolved_by_rules()
    ensures there { ResolvedByRules }
    ensures back { RulesAreResolved }
{}

/// A law: a tree stands for at most one program.
pub fn one_program()
    ensures { StandsForOne }
{}

/// A law: the call graph of a tree without faults is that of the resolved program.
pub fn graph_of_resolved()
    ensures { GraphOfResolved }
{}

/// A law: the resolution of a program without faults is a checked program.
pub fn resolved_are_checked()
    ensures { ResolvedAreChecked }
{
    listed_faults();
    faultless_keep_limits();
}

/// A law: the resolution of a program without faults and without helpers is well formed.
pub fn without_helpers()
    ensures { WithoutHelpersAreWellFormed }
{}

/// A law: what the code computes for expressions, left sides, `where`, statements, bodies and sections is exactly what
/// the rules of typing say.
pub fn typed_by_rules()
    ensures expressions { ExpressionsByRules }
    ensures found { FoundAreAssigned }
    ensures assigned { AssignedAreFound }
    ensures wanted { WantedAreAsked }
    ensures finals { FinalsByRules }
    ensures statements { StatementsByRules }
    ensures bodies { BodiesByRules }
    ensures sections { SectionsByRules }
{}

/// A law: what the code computes for constants, arguments, initial values and final references is exactly what the
/// rules of constants say.
pub fn constants_by_rules()
    ensures sorts { SortsByRules }
    ensures constants { ConstantsByRules }
    ensures arguments { ArgumentsByRules }
    ensures openings { OpeningsByRules }
    ensures references { ReferencesByRules }
{}
