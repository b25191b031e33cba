//! The field to which an `init` gives a value.

/// A field of a member of a pool, as an `init` names it.
#[derive(Clone, Copy, Debug, PartialEq, Eq, Hash)]
pub struct InitTarget {
    /// The pool, as an index into the declarations.
    pub pool: usize,
    /// The index of the pool's member, from 0.
    pub index: u64,
    /// The field, as an index into the struct's members.
    pub member: usize,
}
