//! Writes frames.

ghost use Rattle.std.specs.Prelude.{◌≡◌, ◌++◌, OnOk};
ghost use Rattle.lsp_protocol.specs.Frames.{frame};

use source::memory::NoMemory;
use std::alloc::Global;

/// Appends the frame of a body.
///
/// # Errors
///
/// Out of memory, which may leave a beginning of the frame.
pub fn push_frame(alloc: Global, out: &mut Vec<u8>, body: &[u8]) -> Result<(), NoMemory>
    ensures { OnOk result (out.new.items ≡ out.old.items ++ frame body.now) }
{
    let header = format!(in alloc; "Content-Length: {}\r\n\r\n", body.len())?;
    out.extend_from_slice(header.as_bytes())?;
    out.extend_from_slice(body)?;
    Ok(())
}
