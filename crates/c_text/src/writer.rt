//! The writer of the parts of a file.

use c_sections::names::Writer;

/// A writer of the C text of a program, part by part.
#[derive(Clone, Copy)]
pub struct FileWriter<'a> {
    /// The writer of the program's names.
    pub names: Writer<'a>,
}
