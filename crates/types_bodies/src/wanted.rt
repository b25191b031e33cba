//! Numbers, and which values are expected.

ghost use Rattle.std.specs.Prelude.{◌≡◌};
ghost use Rattle.resolution.specs.Expressions.{fits_type, fits_sort, want};
ghost use Rattle.resolution.specs.Working.TypedExpressions.{number_value};
ghost use Rattle.resolution.specs.Working.Findings.{found_in};
ghost use Rattle.resolution.specs.Working.FaultLists.{number_faults};

use core_lang::value::ValueType;
use resolution::finding::{Firsts, report_if};
use resolution::wanted::{Sort, Want};
use source::fault::Code;
use source::token::Number;

/// The largest number that a token can have.
const NUMBER_LIMIT: u64 = 9223372036854775807;

/// The number in 64 bits with a sign. `None` above 9,223,372,036,854,775,807, which no token can have.
pub fn number(n: Number) -> Option<i64>
    ensures { result ≡ number_value n }
{
    if n.value <= NUMBER_LIMIT {
        Some(n.value as i64)
    } else {
        None
    }
}

/// Notes a number that no token can have.
pub fn report_number(n: Number, firsts: &mut Firsts)
    ensures { firsts.new ≡ found_in firsts.old (number_faults n) }
{
    report_if(
        NUMBER_LIMIT < n.value,
        Code::NumberTooLarge,
        n.span.start as usize,
        firsts,
    );
}

/// What is expected of a value for something of this type, or anything if the type has a fault.
pub fn want(t: Option<ValueType>) -> Want
    ensures { result ≡ want t }
{
    match t {
        Some(t) => Want::Value(t),
        None => Want::Anything,
    }
}

/// Whether a value of this sort has the type: the same type, or null for a reference.
pub fn fits_type(t: ValueType, s: Sort) -> bool
    ensures { result ≡ fits_type t s }
{
    match (t, s) {
        (ValueType::Integer, Sort::Of(ValueType::Integer)) => true,
        (ValueType::Integer, Sort::Of(ValueType::Reference(_))) => false,
        (ValueType::Integer, Sort::Null) => false,
        (ValueType::Reference(_), Sort::Of(ValueType::Integer)) => false,
        (ValueType::Reference(a), Sort::Of(ValueType::Reference(b))) => a == b,
        (ValueType::Reference(_), Sort::Null) => true,
    }
}

/// Whether a value of this sort is as expected. No value is a condition.
pub fn fits_sort(w: Want, s: Sort) -> bool
    ensures { result ≡ fits_sort w s }
{
    match w {
        Want::Anything => true,
        Want::Condition => false,
        Want::Value(t) => fits_type(t, s),
    }
}
