//! The law: a function that does nothing, and whose contract is the law.

ghost use Rattle.report_runs.specs.ExpectationLaws.{HoldsInEveryOrder};

/// The law: where every end is reported and each reported end is as expected, what the calls leave is as expected too,
/// run whole one after another in any order.
pub fn held_in_every_order()
    ensures { HoldsInEveryOrder }
{}
