//! A law of every shown place: a function that does nothing, and whose contract is the law.

ghost use Rattle.explanation.specs.Working.Laws.{ShownByFirstBytes};

/// A law: the beginning of a text is shown in the same way for each prefix of the text that is longer than what is
/// shown.
pub fn shown_by_first_bytes()
    ensures { ShownByFirstBytes }
{}
