//! The line that reports a fault.

ghost use Rattle.std.specs.Prelude.{◌≡◌, ◌≤◌, IfOk, length, string_bytes};
ghost use Rattle.source.specs.Faults.{line_of, column_of, placed_text, place_text, fault_text};

use crate::fault::Fault;
use crate::memory::NoMemory;
use std::alloc::{AllocError, Global};

/// The line of the byte at `at`, from 1.
fn line_at(text: &[u8], at: usize) -> usize
    requires { at ≤ length text.now }
    ensures { result ≡ line_of text.now at }
{
    1 + text[..at].iter().filter(|byte| **byte == b'\n').count()
}

/// The column of the byte at `at`, from 1, in bytes.
fn column_at(text: &[u8], at: usize) -> usize
    requires { at ≤ length text.now }
    ensures { result ≡ column_of text.now at }
{
    let mut column = 1;
    for byte in &text[..at] {
        if *byte == b'\n' {
            column = 1;
        } else {
            column += 1;
        }
    }
    column
}

/// The text `FILE:LINE:COL: CODE TEXT`.
#[tactic(auto, unfolding(crate::specs::Faults::placed_text))]
fn placed(
    alloc: Global,
    file: &str,
    line: usize,
    column: usize,
    name: &str,
    text: &str,
) -> Result<String, AllocError>
    ensures { IfOk result (λ whole. string_bytes whole ≡ placed_text file.now line column name.now text.now) }
{
    format!(in alloc; "{file}:{line}:{column}: {name} {text}")
}

/// A position in a text, with the name of its file.
#[derive(Drop)]
pub struct TextPlace<'a> {
    /// The name of the text's file.
    pub file: &'a str,
    /// The text.
    pub text: &'a [u8],
    /// The byte, from 0. A value past the text's length means its end.
    pub start: usize,
}

impl TextPlace<'_> {
    /// The line `FILE:LINE:COL: NAME WORDS` for this position. Lines and columns count from 1, columns in bytes.
    ///
    /// # Errors
    ///
    /// Out of memory.
    pub fn line(&self, alloc: Global, name: &str, words: &str) -> Result<String, NoMemory>
        ensures { IfOk result
            (λ s. string_bytes s ≡ place_text self.now.file.now self.now.text.now self.now.start name.now words.now) }
    {
        let at = self.start.min(self.text.len());
        let line = line_at(self.text, at);
        let column = column_at(self.text, at);
        Ok(placed(alloc, self.file, line, column, name, words)?)
    }
}

/// The line that reports `fault` in the text `text` of the file named `file`: `FILE:LINE:COL: CODE TEXT`, for a cycle
/// followed by `: ` and its classes. Lines and columns count from 1, columns in bytes. A fault past the end of the text
/// is reported at its end. The only error is a failed allocation.
pub fn fault_line(alloc: Global, file: &str, text: &[u8], fault: &Fault) -> Result<String, NoMemory>
    ensures { IfOk result (λ line. string_bytes line ≡ fault_text file.now text.now fault.now) }
{
    let place = TextPlace {
        file,
        text,
        start: fault.start,
    };
    let mut whole = place.line(alloc, fault.code.name(), fault.code.text())?;
    if !fault.detail.is_empty() {
        whole.push_str(": ")?;
        whole.push_str(fault.detail.as_str())?;
    }
    Ok(whole)
}
