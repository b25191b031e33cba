//! Reads frames.

ghost use Rattle.std.specs.Prelude.{◌≡◌, ◌||◌, IfOk, MatchOption};
ghost use Rattle.lsp_protocol.specs.Connections.{reader_of, reading_failed, is_failure};
ghost use Rattle.lsp_protocol.specs.Frames.{NoFrameIn, TakesFrame};
ghost use Rattle.lsp_protocol.specs.Working.Reading.{TakesField, TakesHeader, IsBody, IsShort};

use crate::fields::{Field, field_of};
use crate::incoming::{Incoming, ReadError};
use std::alloc::Global;
use std::io::BufRead;

/// The most lines of a header, with the empty one that ends it.
pub const HEADER_LIMIT: usize = 64;

/// The next line of a header.
fn read_field<R: BufRead>(alloc: Global, incoming: &mut Incoming<R>) -> Result<Field, ReadError>
    ensures field { IfOk result
        (TakesField (R.remaining (reader_of incoming.old)) (R.remaining (reader_of incoming.new))) }
    ensures failed { reading_failed incoming.new ≡ (is_failure result || reading_failed incoming.old) }
{
    let line = incoming.read_line(alloc)?;
    Ok(match line.as_slice() {
        [front @ .., b'\n'] => field_of(front),
        _ => Field::Wrong,
    })
}

/// The length that the next header states, if it is a header.
fn read_header<R: BufRead>(
    alloc: Global,
    incoming: &mut Incoming<R>,
) -> Result<Option<usize>, ReadError>
    ensures header { IfOk result
        (TakesHeader (R.remaining (reader_of incoming.old)) (R.remaining (reader_of incoming.new))) }
    ensures failed { reading_failed incoming.new ≡ (is_failure result || reading_failed incoming.old) }
{
    let mut length = None;
    'lines: for _ in 0..HEADER_LIMIT {
        match read_field(alloc, incoming)? {
            Field::End => return Ok(length),
            Field::Length(found) => length = Some(found),
            Field::Wrong => return Ok(None),
            Field::Other => {}
        }
    }
    Ok(None)
}

/// The next bytes, as many as given; `None` if the input ends before.
fn read_body<R: BufRead>(
    alloc: Global,
    incoming: &mut Incoming<R>,
    length: usize,
) -> Result<Option<Vec<u8>>, ReadError>
    ensures body { IfOk result (λ found. MatchOption found (IsShort (R.remaining (reader_of incoming.old)) length)
        (λ body. IsBody (R.remaining (reader_of incoming.old)) (R.remaining (reader_of incoming.new)) length
        body.items)) }
    ensures failed { reading_failed incoming.new ≡ (is_failure result || reading_failed incoming.old) }
{
    let Ok(mut body) = vec![in alloc; 0u8; length] else {
        return Err(ReadError::OutOfMemory);
    };
    if incoming.fill(&mut body)? {
        Ok(Some(body))
    } else {
        Ok(None)
    }
}

/// The body of the next frame, or `None` if the rest of the input does not begin with a frame. After a body the reader
/// is at the end of its frame; without a frame, or after an error, it is somewhere after the bytes that were read.
///
/// # Errors
///
/// The reader failed, or an allocation failed.
pub fn read_frame<R: BufRead>(
    alloc: Global,
    incoming: &mut Incoming<R>,
) -> Result<Option<Vec<u8>>, ReadError>
    ensures frame { IfOk result (λ found. MatchOption found (NoFrameIn (R.remaining (reader_of incoming.old)))
        (λ body. TakesFrame (R.remaining (reader_of incoming.old)) (R.remaining (reader_of incoming.new))
        body.items)) }
    ensures failed { reading_failed incoming.new ≡ (is_failure result || reading_failed incoming.old) }
{
    match read_header(alloc, incoming)? {
        Some(length) => read_body(alloc, incoming, length),
        None => Ok(None),
    }
}
