//! The final reference that is named after the `where` of a `let`.

use core_lang::value::ValueType;

/// A final reference of a struct.
#[derive(Clone, Copy, Debug, PartialEq, Eq)]
pub struct OwnerField {
    /// The struct that has it, as its number among the structs.
    pub structure: usize,
    /// Its number among the final references of the struct.
    pub number: u32,
    /// Its type.
    pub value_type: ValueType,
}
