//! The lock paths of a program, by section.

use locks::path::LockPath;
use locks::path_set::PathSet;

/// The lock paths of one section.
#[derive(Drop)]
pub struct SectionPaths {
    /// Its lock paths, each once, in the order of their first accesses; at most 64.
    pub paths: Vec<LockPath>,
    /// For each point, the paths of its accesses.
    pub used: Vec<PathSet>,
    /// For each access, in the order of the text, its path, an index into `paths`.
    pub of_access: Vec<u8>,
}

/// The lock paths of a program.
#[derive(Drop)]
pub struct Paths {
    /// The lock paths of each section.
    pub sections: Vec<SectionPaths>,
}
