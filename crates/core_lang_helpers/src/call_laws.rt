//! Laws of call graphs and their faults: functions that do nothing, and whose contracts are the laws.

ghost use Rattle.core_lang_helpers.specs.Working.Laws.{ListedAreFaults, FaultsAreListed, EndlessReachRecursion, FaultlessAreAtMostDeep, FaultlessBringFew, WithoutCallsNoRecursion, FaultlessKeepLimits};

/// A law: the faults that the code looks for are all the faults of the graph.
pub fn listed_faults()
    ensures listed { ListedAreFaults }
    ensures all { FaultsAreListed }
{}

/// A law: calls of a helper go deeper than the number of helpers exactly if it reaches a recursion.
pub fn endless_reach_recursion()
    ensures { EndlessReachRecursion }
{}

/// A law: in a graph without a fault, whose calls are of helpers that exist, every helper is at most 8 deep.
pub fn faultless_are_at_most_deep()
    ensures { FaultlessAreAtMostDeep }
{}

/// A law: in a graph without a fault, what the calls of a section bring is within the limits.
pub fn faultless_bring_few()
    ensures { FaultlessBringFew }
{}

/// A law: if no helper calls another one, no helper reaches a recursion.
pub fn without_calls_no_recursion()
    ensures { WithoutCallsNoRecursion }
{}

/// A law: a program whose graph has no fault, and which is well typed, well scoped and within the other limits, keeps
/// the limits of calls.
pub fn faultless_keep_limits()
    ensures { FaultlessKeepLimits }
{}
