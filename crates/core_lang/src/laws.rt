//! Laws of the meaning of every program: functions that do nothing, and whose contracts are the laws.

ghost use Rattle.core_lang.specs.Laws.{MoreTurnsChangeNothing, HaveAtMostOneWhole, NeverGoAstray, OpeningIsTyped, OverIsWhole, WholeIsOver, SerialOfNone, SerialOfBoth, SerialSplits, QuietCallsChangeNothing, HaveAtMostOneSerial, SettledAreSerial, WritingOutChangesNothing, ExpansionsRunAlike, WrittenOutHasNoCalls, WrittenOutBindsInOrder, WellFormedAreChecked, WellFormedCallNothing};
ghost use denote.Param.Send.{IsSync};
ghost use Rattle.core_lang.specs.contracts.typed.Typed as typed;
ghost use Rattle.core_lang.specs.Working.Soundness.{ValuesHaveTheirTypes, TestsDecide, EffectsStayTyped};

/// A law: a run that ends within a number of turns ends in the same way with more turns.
pub fn more_turns_change_nothing()
    ensures { MoreTurnsChangeNothing }
{}

/// A law: a section has at most one whole run from its arguments and a heap.
pub fn at_most_one_whole()
    ensures { HaveAtMostOneWhole }
{}

/// A law: in an accepted program, where each local and cell has a value of its type, a well-typed expression gives a
/// value of its type, or traps.
pub fn values_have_their_types()
    ensures { ValuesHaveTheirTypes }
{}

/// A law: in such a state a well-typed condition is true or false, or traps.
pub fn tests_decide()
    ensures { TestsDecide }
{}

/// A law: a well-typed statement keeps each local and cell at a value of its type. It leads on, to a trap or past the
/// turns, and never astray.
pub fn effects_stay_typed()
    ensures { EffectsStayTyped }
{}

/// A law: a section of an accepted program, called with arguments that fit it on a heap of the program, never goes
/// astray, and leaves a heap of the program and an outcome of its result type.
pub fn never_astray()
    ensures { NeverGoAstray }
{}

/// A law: the initial heap of an accepted program is a heap of the program.
pub fn opening_is_typed()
    ensures { OpeningIsTyped }
{}

/// A law: a call runs whole exactly if its run ends within some bound on turns.
pub fn whole_within_some_turns()
    ensures over { OverIsWhole }
    ensures whole { WholeIsOver }
{}

/// A law: the serial run of no calls has no ends and leaves the heap as it is.
pub fn serial_of_none()
    ensures { SerialOfNone }
{}

/// A law: two lists of calls one after another run serially as the first list, and then the second on the heap that the
/// first leaves.
pub fn serial_of_both()
    ensures both { SerialOfBoth }
    ensures splits { SerialSplits }
{}

/// A law: calls that leave the heap as they found it do not change the answers of later calls.
pub fn quiet_calls_change_nothing()
    ensures { QuietCallsChangeNothing }
{}

/// A law: a serial run of calls ends in at most one way.
pub fn at_most_one_serial()
    ensures { HaveAtMostOneSerial }
{}

/// A law: the calls that a number of turns settles run serially, and the first of the others is not settled.
pub fn settled_are_serial()
    ensures { SettledAreSerial }
{}

/// A law: a program may be shared by many threads, by itself and as a part of a larger value.
pub fn programs_are_shared()
    ensures whole { IsSync typed.the_row }
    ensures part { IsSync (typed.the_field).row }
{}

/// A law: a section with its helpers expanded has the same runs as before. It has no calls, and binds its locals in
/// their order.
pub fn writing_out_changes_nothing()
    ensures section { WritingOutChangesNothing }
    ensures serial { ExpansionsRunAlike }
    ensures no_calls { WrittenOutHasNoCalls }
    ensures bound { WrittenOutBindsInOrder }
{}

/// A law: a program whose helpers are expanded may be accepted, and none of its sections calls anything.
pub fn well_formed_call_nothing()
    ensures checked { WellFormedAreChecked }
    ensures no_calls { WellFormedCallNothing }
{}
