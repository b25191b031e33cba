//! The line that reports a fault.

ghost use Rattle.std.specs.Prelude.{◌≡◌, IfOk, string_bytes};
ghost use Rattle.input_files.specs.Steps.{steps_fault_text};

use crate::steps_refusal::StepsFault;
use source::line::TextPlace;
use source::memory::NoMemory;
use std::alloc::Global;

/// The line that reports `fault` in the steps file `file`: `FILE:LINE:COL: CODE TEXT`. Lines and columns count from 1,
/// columns in bytes.
///
/// # Errors
///
/// Out of memory.
pub fn steps_fault_line(
    alloc: Global,
    file: &str,
    text: &[u8],
    fault: StepsFault,
) -> Result<String, NoMemory>
    ensures { IfOk result (λ line. string_bytes line ≡ steps_fault_text file.now text.now fault) }
{
    let place = TextPlace {
        file,
        text,
        start: fault.start,
    };
    place.line(alloc, fault.code.name(), fault.code.text())
}
