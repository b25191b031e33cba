//! The laws of verdicts: functions with empty bodies, whose contracts are the laws.

ghost use Rattle.replay.specs.Working.Laws.{AtMostOneVerdict, SameIsHistory, HistoryIsSame, TextIsOfLines, SerialIsSame, EntriesAreSame, ScriptsAreOpen, OneOrderOneHistory, PlainCallsAreTold};

use core_lang::laws;

/// A history has at most one verdict.
pub fn at_most_one_verdict()
    ensures { AtMostOneVerdict }
{}

/// A recorded history is the same, with enough turns, exactly where its lines are those of calls that run whole one
/// after another from the opening cells, and of the heap that they leave. Each thread's calls are those of its script,
/// in order, or, where anyone may call, each a call from outside; in the second format they have begins that are
/// possible.
pub fn same_is_history()
    ensures same { SameIsHistory }
    ensures history { HistoryIsSame }
{
    laws::whole_within_some_turns();
    laws::more_turns_change_nothing();
}

/// These lines, after the first line and each with its line feed, are the history text.
pub fn text_is_of_lines()
    ensures { TextIsOfLines }
{}

/// The history of all calls is the same, where they run one after another, thread 0's whole script first.
pub fn serial_is_same()
    ensures { SerialIsSame }
{}

/// The history text of entries is the same, with enough turns, where the history is legal, its entries are true, and
/// each thread's calls are those of its script, or, where anyone may call, from outside; in the second format with
/// begins that are possible.
pub fn entries_are_same()
    ensures { EntriesAreSame }
{
    laws::more_turns_change_nothing();
    history::laws::legal_is_serial();
}

/// Where the names of the sections are well-formed and distinct, and so are those of the pools, the text of each call
/// that can be made, with numbers of 64 bits, writes that call, and anyone may make it.
pub fn plain_calls_are_told()
    ensures { PlainCallsAreTold }
{}

/// A history that is the same where the scripts call is also the same where anyone may call, if the text of each call
/// of the scripts writes that call.
pub fn scripts_are_open()
    ensures { ScriptsAreOpen }
{}

/// Two histories that have their calls in the same order, each with the same begin, agree line by line.
pub fn one_order_one_history()
    ensures { OneOrderOneHistory }
{
    laws::at_most_one_serial();
}
