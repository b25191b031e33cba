//! Comparison of the outcomes of calls.

ghost use Rattle.std.specs.Prelude.{◌≡◌};
ghost use Rattle.std.specs.Option.{option_eq};
ghost use Rattle.report_runs.specs.Outcomes.{is_outcome};

use core_lang::value::Outcome;
use report::is_value;

/// Whether two calls ended in the same way.
fn is_outcome(a: Outcome, b: Outcome) -> bool
    ensures { result ≡ is_outcome a b }
{
    match (a, b) {
        (Outcome::Ends, Outcome::Ends) => true,
        (Outcome::Returns(a), Outcome::Returns(b)) => is_value(a, b),
        (Outcome::Traps(a), Outcome::Traps(b)) => a.number() == b.number(),
        _ => false,
    }
}

/// Whether two calls, which may not have been made, ended in the same way.
pub(crate) fn is_answer(a: Option<Outcome>, b: Option<Outcome>) -> bool
    ensures { result ≡ option_eq is_outcome a b }
{
    match (a, b) {
        (None, None) => true,
        (Some(a), Some(b)) => is_outcome(a, b),
        _ => false,
    }
}
