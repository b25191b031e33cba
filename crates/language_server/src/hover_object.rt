//! The hover. The one error is a refused growth.

ghost use Rattle.std.specs.Prelude.{◌≡◌, ◌≤◌, false, length, string_bytes, IfOk};
ghost use Rattle.std.specs.List.{flat_map, prefix_len};
ghost use Rattle.code.specs.Listing.{line};
ghost use Rattle.serde_json.specs.Data.{null};
ghost use Rattle.serde_json.specs.View.{view};
ghost use Rattle.serde_json.specs.Written.{has_float};
ghost use Rattle.language_server.specs.Hover as object;
ghost use Rattle.language_server.specs.Working.Lines.{told_lines, lines_of_statement};
ghost use Rattle.language_server.specs.Working.Telling.{IsToldOf};

use crate::held_paths::held;
use crate::statement_lines::Statement;
use crate::statements::statement;
use compiler::compile;
use lowering::compiled::Program;
use lsp_texts::{Position, Walker, range_value};
use serde_json::{Value, json};
use source::fault::Refusal;
use source::memory::NoMemory;
use std::alloc::{AllocError, Global};
use std::collections::BTreeSet;

/// JSON's `null`.
fn null_value() -> Value
    ensures { view result ≡ null }
{
    Value::Null
}

/// The number of bytes before the end of a line.
fn in_line(bytes: &[u8]) -> usize
    ensures count { result ≡ prefix_len object.is_in_line bytes.now }
    ensures few { result ≤ length bytes.now }
{
    bytes
        .iter()
        .take_while(|byte| !matches!(**byte, b'\n' | b'\r'))
        .count()
}

/// The end of the line that has the byte `at`.
fn line_end(text: &[u8], at: usize) -> usize
    ensures { result ≡ object.line_end text.now at }
{
    let here = at.min(text.len());
    here + in_line(&text[here..])
}

/// The lines, each with its line feed.
fn joined(alloc: Global, lines: &BTreeSet<String>) -> Result<String, AllocError>
    ensures { IfOk result (λ text. string_bytes text ≡ flat_map line (told_lines lines.now)) }
{
    let mut text = String::new(alloc);
    for line in lines {
        text.push_str(line.as_str())?;
        text.push_str("\n")?;
    }
    Ok(text)
}

/// The hover on the statement that starts at byte `start`.
fn hover_value(
    alloc: Global,
    text: &[u8],
    start: usize,
    lines: &BTreeSet<String>,
) -> Result<Value, AllocError>
    ensures { IfOk result (λ told. view told ≡ object.statement_hover text.now start (told_lines lines.now)) }
{
    let value = joined(alloc, lines)?;
    let mut walker = Walker::new(text);
    let range = range_value(alloc, &mut walker, start, line_end(text, start))?;
    json!(in alloc; {"contents": {"kind": "plaintext", "value": value.as_str()}, "range": range})
}

/// The hover on a statement of a program.
fn statement_value(alloc: Global, text: &[u8], statement: &Statement<'_>) -> Result<Value, NoMemory>
    ensures { IfOk result (λ told. view told
        ≡ object.statement_hover text.now statement.now.start (lines_of_statement statement.now)) }
{
    let lines = statement.lines(alloc)?;
    let value = hover_value(alloc, text, statement.start, &lines)?;
    Ok(value)
}

/// The hover on the statement at a position in a program.
fn program_hover(
    alloc: Global,
    text: &[u8],
    program: &Program,
    position: Position,
) -> Result<Value, NoMemory>
    ensures { IfOk result (λ told. IsToldOf text.now program.now position (view told)) }
{
    let held = held(alloc, program)?;
    match statement(alloc, text, program.expanded(), position)? {
        Some(start) => statement_value(
            alloc,
            text,
            &Statement {
                program,
                held: &held,
                start,
            },
        ),
        None => Ok(null_value()),
    }
}

/// The protocol's `Hover` on the statement at a position: the last one that starts in the position's line no later than
/// the position. It has a line `NAME: holds PATHS, takes PATHS` for each section that runs the statement, each line
/// once. `holds` lists the lock paths that are surely held when the statement is reached, or has `nothing`; `, takes
/// PATHS` has the lock paths that `check` lists before it. `null` where there is no such statement, or the text is not
/// accepted.
///
/// # Errors
///
/// `NoMemory`: a growth was refused.
pub fn hover(alloc: Global, text: &str, position: Position) -> Result<Value, NoMemory>
    ensures told { IfOk result (λ told. object.IsStatementHoverOf text.now position (view told)) }
    ensures plain { IfOk result (λ told. has_float (view told) ≡ false) }
{
    let bytes = text.as_bytes();
    match compile(alloc, bytes) {
        Ok(program) => program_hover(alloc, bytes, &program, position),
        Err(Refusal::NoMemory) => Err(NoMemory),
        Err(Refusal::Fault(_)) => Ok(null_value()),
    }
}
