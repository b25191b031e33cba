//! Reading a whole history file.

ghost use Rattle.std.specs.Prelude.{◌≡◌, ◌∷◌, ◌==◌, ◌<◌, ◌+◌, ◌^◌, length, slice_get, None, [], IfErr, IfSome, OnOk};
ghost use Rattle.std.specs.Option.{option_map};
ghost use Rattle.std.specs.List.{slice_split};
ghost use Rattle.input_files.specs.Histories.{history_in, lines_from, lines_in, recorded_lines, Answers};
ghost use Rattle.input_files.specs.Working.HistoryReading.{TakesLine, IsFaultOfLine, IsEnd, IsFaultOfEnd, Judges};

use crate::format::Format;
use crate::history_refusal::{HistoryCode, HistoryFault};
use crate::line::{after, format_of};
use crate::piece::{behind, place_of};
use crate::stage::Stage;
use source::limits::LINE_LIMIT;

/// A history as its file says it.
#[derive(Clone, Copy, Debug)]
pub struct Recorded<'a> {
    /// The format, which says what the lines of calls hold.
    pub format: Format,
    /// The lines after the first, each with its line feed.
    pub text: &'a [u8],
}

/// How far the lines have been read.
#[derive(Drop)]
struct Reader {
    format: Format,
    stage: Stage,
    number: usize,
}

fn fault(code: HistoryCode, line: usize) -> HistoryFault
    ensures { result ≡ record { code = code; line = line } }
{
    HistoryFault { code, line }
}

/// The first line of `text`, without its line feed, and what follows that. `None` if the text has no line feed.
pub fn next_line(text: &[u8]) -> Option<(&[u8], &[u8])>
    ensures some { IfSome result (λ cut. lines_in text.now ≡ cut.0.now ∷ lines_in cut.1.now) }
    ensures shorter { IfSome result (λ cut. length cut.1.now < length text.now) }
    ensures none { result ≡ None → lines_in text.now ≡ [] }
{
    let place = place_of(text, b'\n');
    if place < text.len() {
        Some((&text[..place], behind(text, place)))
    } else {
        None
    }
}

impl<'a> Recorded<'a> {
    /// The line `number` of those after the first, from 0. Time is linear in the bytes before it.
    pub fn line(&self, number: usize) -> Option<&'a [u8]>
        ensures { option_map (λ line. line.now) result ≡ slice_get (recorded_lines self.now) number }
    {
        let mut rest = self.text;
        for _passed in 0..number {
            match next_line(rest) {
                Some((_, more)) => rest = more,
                None => return None,
            }
        }
        match next_line(rest) {
            Some((line, _)) => Some(line),
            None => None,
        }
    }
}

impl Reader {
    // Reads the next line.
    fn read(&mut self, line: &[u8]) -> Result<(), HistoryFault>
        requires { self.old.number + 1 < 2 ^ 64 }
        ensures ok { OnOk result (TakesLine self.old self.new line.now) }
        ensures number { OnOk result (self.new.number ≡ self.old.number + 1) }
        ensures fault { IfErr result (IsFaultOfLine self.old line.now) }
    {
        if line.len() > LINE_LIMIT {
            return Err(fault(HistoryCode::LongLine, self.number));
        }
        let Some(stage) = after(self.format, self.stage, line) else {
            return Err(fault(HistoryCode::BadLine, self.number));
        };
        self.stage = stage;
        self.number += 1;
        Ok(())
    }

    // Checks what follows the last line feed.
    fn end(&self, piece: &[u8]) -> Result<(), HistoryFault>
        ensures ok { OnOk result (IsEnd self.now piece.now) }
        ensures fault { IfErr result (IsFaultOfEnd self.now piece.now) }
    {
        if piece.len() > LINE_LIMIT {
            return Err(fault(HistoryCode::LongLine, self.number));
        }
        if self.stage != Stage::Ended {
            return Err(fault(HistoryCode::MissingEnd, self.number));
        }
        if !piece.is_empty() {
            return Err(fault(HistoryCode::BadLine, self.number));
        }
        Ok(())
    }
}

/// Checks the form of the lines in `text`, which follow the first line of a history.
fn judge_lines(format: Format, text: &[u8]) -> Result<(), HistoryFault>
    requires { length text.now + 3 < 2 ^ 64 }
    ensures { Judges (lines_from format Stage.Opening 2 (slice_split (λ b. b == 10) text.now))
        (lines_in text.now) result }
{
    let mut reader = Reader {
        format,
        stage: Stage::Opening,
        number: 2,
    };
    let mut rest = text;
    'lines: loop {
        let place = place_of(rest, b'\n');
        if place == rest.len() {
            return reader.end(rest);
        }
        match reader.read(&rest[..place]) {
            Ok(()) => {}
            Err(fault) => return Err(fault),
        }
        rest = behind(rest, place);
    }
}

/// The history in a file: its format, and its lines after the first. Allocates nothing.
///
/// # Errors
///
/// The fault of the first faulty line.
pub fn read_history(text: &[u8]) -> Result<Recorded<'_>, HistoryFault>
    ensures { Answers result (history_in text.now) }
{
    let place = place_of(text, b'\n');
    if place > LINE_LIMIT {
        return Err(fault(HistoryCode::LongLine, 1));
    }
    if place == text.len() {
        return Err(fault(HistoryCode::MissingEnd, 1));
    }
    let Some(format) = format_of(&text[..place]) else {
        return Err(fault(HistoryCode::BadHeader, 1));
    };
    let text = behind(text, place);
    match judge_lines(format, text) {
        Ok(()) => Ok(Recorded { format, text }),
        Err(fault) => Err(fault),
    }
}
