//! The law: a function with an empty body, whose contract is the law.

ghost use Rattle.theorems.specs.EndsTold.{EveryEndIsTold};

/// A law on each run of a compiled program's threads in which all calls end. The order in which the calls ended is one
/// of the orders of the program's calls. Run whole one after another in that order, they answer and print as in the
/// run, and leave its cells. The report on all orders, whatever distinguishes its ends, has an end with what is seen of
/// that.
pub fn every_end_is_told()
    ensures { EveryEndIsTold }
{
    worlds::laws::every_run();
}
