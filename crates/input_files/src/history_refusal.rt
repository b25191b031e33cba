//! The faults of a history file.

ghost use Rattle.std.specs.Prelude.{◌≡◌};
ghost use Rattle.input_files.specs.Refusals.{code_name, code_text};

use thiserror::Error;

/// The code of a fault, which says what is wrong with a line. It is printed as `H1` to `H4`.
#[derive(Clone, Copy, Debug, PartialEq, Eq)]
pub enum HistoryCode {
    /// `H1`: the first line names no format.
    BadHeader,
    /// `H2`: a line that is not allowed at its place.
    BadLine,
    /// `H3`: the text ends before the line `end`.
    MissingEnd,
    /// `H4`: a line of more than 1,024 bytes.
    LongLine,
}

impl HistoryCode {
    /// The code as it is printed, `H1` to `H4`.
    pub fn name(self) -> &'static str
        ensures { result.now ≡ code_name self }
    {
        match self {
            HistoryCode::BadHeader => "H1",
            HistoryCode::BadLine => "H2",
            HistoryCode::MissingEnd => "H3",
            HistoryCode::LongLine => "H4",
        }
    }

    /// The message of the code.
    pub fn text(self) -> &'static str
        ensures { result.now ≡ code_text self }
    {
        match self {
            HistoryCode::BadHeader => "bad header",
            HistoryCode::BadLine => "bad line",
            HistoryCode::MissingEnd => "missing end",
            HistoryCode::LongLine => "line too long",
        }
    }
}

/// A faulty line.
#[derive(Clone, Copy, Debug, PartialEq, Eq, Error)]
#[error("{} {} at line {}", .code.name(), .code.text(), .line)]
pub struct HistoryFault {
    /// What is wrong with it.
    pub code: HistoryCode,
    /// The number of the line, from 1.
    pub line: usize,
}
