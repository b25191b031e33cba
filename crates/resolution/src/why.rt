//! The reason of a fault of names and types, if its code does not say it.

use crate::wanted::{Sort, Want};
use core_lang::tree::LocalKind;
use core_lang::value::ValueType;

/// What an expression or a constant is.
#[derive(Clone, Copy, Debug, PartialEq, Eq)]
pub enum Kind {
    /// A condition.
    Condition,
    /// A value of this sort.
    Value(Sort),
}

/// What a name is expected to refer to.
#[derive(Clone, Copy, Debug, PartialEq, Eq)]
pub enum Role {
    /// A value: a local or a global.
    Value,
    /// Something with elements: an array or a pool.
    Elements,
    /// A local.
    Local,
    /// A struct.
    Struct,
    /// A pool.
    Pool,
    /// A section.
    Section,
    /// A helper.
    Helper,
    /// The target of an assignment: a `var`, a global or an element of an array.
    Target,
}

/// What a name refers to.
#[derive(Clone, Copy, Debug, PartialEq, Eq)]
pub enum Referent {
    /// Nothing: the name is unknown.
    Nothing,
    /// A parameter, a `let` or a `var`.
    Local(LocalKind),
    /// A lock.
    Lock,
    /// A struct.
    Struct,
    /// A global.
    Global,
    /// An array.
    Array,
    /// A pool.
    Pool,
    /// A section.
    Section,
    /// A helper.
    Helper,
    /// A thread.
    Thread,
}

/// The reason of a fault of names and types.
#[derive(Clone, Copy, Debug, PartialEq, Eq)]
pub enum Why {
    /// The code says it.
    Plain,
    /// The first is expected, and the second is found.
    Unwanted(Want, Kind),
    /// The sides of a comparison do not match: the left one, and the right one.
    Unlike(Kind, Kind),
    /// A value of this type is expected, and the called helper has no result.
    NoResult(ValueType),
    /// A `where` needs a reference, and the type of the `let` is `int`.
    OwnedInt,
    /// A `where` needs a final reference, and the field can change.
    OwnerField,
    /// A lock class needs a lock of its struct, and the member is none.
    ListedMember,
    /// A name is expected to refer to the first, and refers to the second.
    Misnamed(Role, Referent),
    /// A field of an `int` is named.
    FieldOfInt,
    /// A field of a lock is named.
    FieldOfLock,
    /// An operator of conditions is used on numbers.
    OperatorOfConditions,
    /// The first number of arguments is expected, and the second is found.
    Counted(usize, usize),
    /// A final reference is assigned to.
    FinalTarget,
}
