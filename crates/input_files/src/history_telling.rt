//! The line that reports a fault.

ghost use Rattle.std.specs.Prelude.{◌≡◌, IfOk, string_bytes};
ghost use Rattle.input_files.specs.Refusals.{history_fault_text};

use crate::history_refusal::HistoryFault;
use source::memory::NoMemory;
use std::alloc::Global;

/// The line that reports `fault` in the history file `file`: `FILE:LINE: CODE TEXT`. Lines count from 1.
///
/// # Errors
///
/// Out of memory.
pub fn history_fault_line(
    alloc: Global,
    file: &str,
    fault: HistoryFault,
) -> Result<String, NoMemory>
    ensures { IfOk result (λ line. string_bytes line ≡ history_fault_text file.now fault) }
{
    let line = fault.line;
    let name = fault.code.name();
    let text = fault.code.text();
    Ok(format!(in alloc; "{file}:{line}: {name} {text}")?)
}
