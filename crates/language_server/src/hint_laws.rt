//! The laws of the hints of every program: functions with empty bodies, whose contracts are the laws.

ghost use Rattle.language_server.specs.Takes.{AreTakesOfCheck};

/// The lines of `check` on a section are its takes, each after its place in the text.
pub fn takes_are_lines_of_check()
    ensures { AreTakesOfCheck }
{}
