//! The forms of lines.

ghost use Rattle.std.specs.Prelude.{◌≡◌};
ghost use Rattle.input_files.specs.Lines.{format_of, is_trap, is_ending, is_behind_call, is_invoked, is_count_and, is_told_call, is_call, is_print, is_cell_name, is_cell, among_calls, after};

use crate::format::Format;
use crate::piece::{
    are_arguments, begins, cut, from, is, is_count, is_member, is_name, is_number, is_value,
};
use crate::stage::Stage;

/// The format that the first line `text` names.
pub fn format_of(text: &[u8]) -> Option<Format>
    ensures { result ≡ format_of text.now }
{
    if is(text, "history 1") {
        Some(Format::One)
    } else if is(text, "history 2") {
        Some(Format::Two)
    } else {
        None
    }
}

fn is_trap(text: &[u8]) -> bool
    ensures { result ≡ is_trap text.now }
{
    match text {
        [first, rest @ ..] => b'1' <= *first && *first <= b'6' && rest.is_empty(),
        [] => false,
    }
}

/// Whether the text is `ends`, `returns VALUE` or `traps N`.
fn is_ending(text: &[u8]) -> bool
    ensures { result ≡ is_ending text.now }
{
    is(text, "ends")
        || (begins("returns ", text) && is_value(from(text, 8)))
        || (begins("traps ", text) && is_trap(from(text, 6)))
}

fn is_behind_call(text: &[u8]) -> bool
    ensures { result ≡ is_behind_call text.now }
{
    match text {
        [b' ', ending @ ..] => is_ending(ending),
        _ => false,
    }
}

/// Whether the text is `NAME(ARGUMENTS) END`.
fn is_invoked(text: &[u8]) -> bool
    ensures { result ≡ is_invoked text.now }
{
    let (name, inside) = cut(text, b'(');
    let (arguments, rest) = cut(inside, b')');
    is_name(name) && are_arguments(arguments) && is_behind_call(rest)
}

/// Whether the text may follow a call's thread and its number.
fn is_told_call(format: Format, text: &[u8]) -> bool
    ensures { result ≡ is_told_call format text.now }
{
    match format {
        Format::One => is_invoked(text),
        Format::Two => {
            let (begun, rest) = cut(text, b' ');
            is_count(begun) && is_invoked(rest)
        }
    }
}

/// Whether the text is the line of a call.
fn is_call(format: Format, text: &[u8]) -> bool
    ensures { result ≡ is_call format text.now }
{
    if !begins("call ", text) {
        return false;
    }
    let (thread, rest) = cut(from(text, 5), b' ');
    let (step, rest) = cut(rest, b' ');
    is_count(thread) && is_count(step) && is_told_call(format, rest)
}

/// Whether the text is the line of a print.
fn is_print(text: &[u8]) -> bool
    ensures { result ≡ is_print text.now }
{
    begins("print ", text) && is_number(from(text, 6))
}

/// Whether the text names a cell: `n`, `a[0]` or `p[0].x`.
fn is_cell_name(text: &[u8]) -> bool
    ensures { result ≡ is_cell_name text.now }
{
    if is_name(text) || is_member(text) {
        return true;
    }
    let (member, field) = cut(text, b'.');
    is_member(member) && is_name(field)
}

/// Whether the text is the line of a cell.
fn is_cell(text: &[u8]) -> bool
    ensures { result ≡ is_cell text.now }
{
    let (name, value) = cut(text, b' ');
    is_cell_name(name) && is_value(value)
}

fn among_calls(text: &[u8], allowed: bool) -> Option<Stage>
    ensures { result ≡ among_calls text.now allowed }
{
    if is(text, "cells") {
        Some(Stage::Cells)
    } else if allowed {
        Some(Stage::Called)
    } else {
        None
    }
}

/// The stage after the line `text`, or `None` if the line is not allowed at this stage.
pub fn after(format: Format, stage: Stage, text: &[u8]) -> Option<Stage>
    ensures { result ≡ after format stage text.now }
{
    match stage {
        Stage::Opening => among_calls(text, is_call(format, text)),
        Stage::Called => among_calls(text, is_call(format, text) || is_print(text)),
        Stage::Cells => {
            if is(text, "end") {
                Some(Stage::Ended)
            } else if is_cell(text) {
                Some(Stage::Cells)
            } else {
                None
            }
        }
        Stage::Ended => None,
    }
}
