//! Bytes at positions.

ghost use Rattle.std.specs.Prelude.{◌≡◌};
ghost use Rattle.lsp_texts.specs.Positions as positions;
ghost use Rattle.lsp_texts.specs.Working.Steps.{step};

use crate::walking::{Position, ends_line, next_of, units_of};

/// Whether a position that is `units` further in its line lies at `byte`: the line ends at it, or the byte's character
/// has that unit.
fn stops(units: u64, byte: u8) -> bool
    ensures { result ≡ positions.stops units byte }
{
    byte == b'\n' || byte == b'\r' || units < units_of(byte)
}

/// The lines and units that are left to a position after `byte`, which `next` follows; none where the position lies at
/// `byte`.
fn further(lines: u64, units: u64, byte: u8, next: Option<u8>) -> Option<(u64, u64)>
    ensures { result ≡ step lines units byte next }
{
    if lines > 0 {
        if ends_line(byte, next) {
            return Some((lines - 1, units));
        }
        return Some((lines, units));
    }
    if stops(units, byte) {
        return None;
    }
    Some((0, units - units_of(byte)))
}

/// The byte at a position: the character of its line that has the unit, or the line's end, where the line has fewer
/// units; the text's end, where the text has fewer lines.
pub fn offset_of(text: &[u8], position: Position) -> usize
    ensures { result ≡ positions.offset_of text.now position }
{
    let (mut lines, mut units) = (position.line, position.unit);
    for at in 0..text.len() {
        match further(lines, units, text[at], next_of(text, at)) {
            Some((more_lines, more_units)) => {
                lines = more_lines;
                units = more_units;
            }
            None => return at,
        }
    }
    text.len()
}
