//! A law of statements in C: a function that does nothing, and whose contract is the law.

ghost use Rattle.c_language.specs.Laws.{StatementsRunInTurn};

/// A law: of two lists of statements one after another, over any memory, the second runs from the state in which the
/// first leads to the next statement. If the first leads to a label, to the end or to undefined behavior, the second is
/// not run.
pub fn statements_run_in_turn<M>()
    ensures { StatementsRunInTurn M }
{}
