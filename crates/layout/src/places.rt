//! The places of locks and cells.

use core_lang::value::Value;
use locks::lock::Lock;

/// How the numbers of a class's locks are found.
#[derive(Clone, Copy)]
pub enum ClassPlace {
    /// The class is one global lock, with this number.
    Global(usize),
    /// The class is a lock field, with this index among the lock fields of its struct, and among the locks of an
    /// object.
    Field(usize),
}

/// The initial value of a cell, and its place.
#[derive(Clone, Copy)]
pub struct CellPlace {
    /// The value before any section has run.
    pub opening: Value,
    /// The lock that protects it.
    pub lock: Lock,
    /// Its index among the cells of the lock.
    pub offset: u32,
}
