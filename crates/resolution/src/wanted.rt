//! What an expression is, and what is expected of it.

use core_lang::value::ValueType;

/// The sort of an expression or a constant.
#[derive(Clone, Copy, Debug, PartialEq, Eq)]
pub enum Sort {
    /// A value of this type.
    Of(ValueType),
    /// `null`, which fits every reference.
    Null,
}

/// What is expected of an expression.
#[derive(Clone, Copy, Debug, PartialEq, Eq)]
pub enum Want {
    /// Anything: what it is used for has no type.
    Anything,
    /// A condition.
    Condition,
    /// A value of the type.
    Value(ValueType),
}
