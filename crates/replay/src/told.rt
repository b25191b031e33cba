//! The numbers in a call's line, which are read before the call is known.

ghost use Rattle.std.specs.Prelude.{◌≡◌};
ghost use Rattle.replay.specs.Told.{begun_in, told_in, invoked_text};

use input_files::Format;
use input_files::piece::{begins, count, cut, from};

/// The numbers in a call's line.
#[derive(Clone, Copy, Debug)]
pub(crate) struct Told {
    /// The thread.
    pub thread: u64,
    /// The number of the call in its thread's script, from 0.
    pub step: u64,
    /// The length of the history when the call began; 0 where the format does not have it.
    pub begun: u64,
}

// The length of the history at the begin, from the first word of `text`, where the format has it.
fn begun_in(format: Format, text: &[u8]) -> Option<u64>
    ensures { result ≡ begun_in format text.now }
{
    match format {
        Format::One => Some(0),
        Format::Two => {
            let (begun, _) = cut(text, b' ');
            count(begun)
        }
    }
}

/// The numbers in `line`, if it begins like a call's line.
pub(crate) fn told_by(format: Format, line: &[u8]) -> Option<Told>
    ensures { result ≡ told_in format line.now }
{
    if !begins("call ", line) {
        return None;
    }
    let (thread, rest) = cut(from(line, 5), b' ');
    let Some(thread) = count(thread) else {
        return None;
    };
    let (step, rest) = cut(rest, b' ');
    let Some(step) = count(step) else {
        return None;
    };
    match begun_in(format, rest) {
        Some(begun) => Some(Told {
            thread,
            step,
            begun,
        }),
        None => None,
    }
}

/// The text after the numbers of a call's line; empty, where the line is shorter than that.
pub(crate) fn invoked_by(format: Format, line: &[u8]) -> &[u8]
    ensures { result.now ≡ invoked_text format line.now }
{
    if line.len() < 5 {
        return from(line, line.len());
    }
    let (_, rest) = cut(from(line, 5), b' ');
    let (_, rest) = cut(rest, b' ');
    match format {
        Format::One => rest,
        Format::Two => {
            let (_, rest) = cut(rest, b' ');
            rest
        }
    }
}
