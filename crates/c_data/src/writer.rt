//! The writer of the parts of a file that are about a program's data.

use c_sections::names::Writer;

/// A writer of the C text of a program's data, part by part.
#[derive(Clone, Copy)]
pub struct DataWriter<'a> {
    /// The writer of the program's names.
    pub names: Writer<'a>,
}
