//! A law of the uses of names: a function that does nothing, and whose contract is the law.

ghost use Rattle.explanation_names.specs.Working.Laws.{UnknownAreSought};

/// A law: if a name of a program is unknown (`E06`), the search covers it.
pub fn unknown_are_sought()
    ensures { UnknownAreSought }
{}
