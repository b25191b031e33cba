//! The hints. The one error is a refused growth.

ghost use Rattle.std.specs.Prelude.{◌≡◌, false, IfOk};
ghost use Rattle.serde_json.specs.Data.{array, no_items};
ghost use Rattle.serde_json.specs.View.{view};
ghost use Rattle.serde_json.specs.Written.{has_float};
ghost use Rattle.language_server.specs.Hints as list;
ghost use Rattle.language_server.specs.Takes.{in_order, takes_of};
ghost use Rattle.language_server.specs.Working.Sets.{told_in};

use crate::takes::{Take, takes};
use compiler::compile;
use lowering::compiled::Program;
use lsp_texts::{Position, Walker, place_value};
use serde_json::{Value, json};
use source::fault::Refusal;
use source::memory::NoMemory;
use std::alloc::{AllocError, Global};
use std::collections::BTreeSet;

/// Lines of a text, counted from 0.
#[derive(Clone, Copy)]
struct Lines {
    /// The first line.
    first: u64,
    /// The last line.
    last: u64,
}

impl Lines {
    ghost use Rattle.std.specs.Prelude.{◌≡◌};
    ghost use Rattle.language_server.specs.Hints as list;

    /// Whether `place` is in the lines.
    fn contain(self, place: Position) -> bool
        ensures { result ≡ list.is_within self.first self.last place }
    {
        self.first <= place.line && place.line <= self.last
    }
}

/// The hint with the text `label` at `place`.
fn hint_value(alloc: Global, place: Position, label: &str) -> Result<Value, AllocError>
    ensures { IfOk result (λ told. view told ≡ list.hint_at place label.now) }
{
    let position = place_value(alloc, place)?;
    json!(in alloc; {"kind": 2u64, "label": label, "paddingRight": true, "position": position})
}

/// The hints in `lines`.
fn hint_values(
    alloc: Global,
    text: &[u8],
    takes: &BTreeSet<Take>,
    lines: Lines,
) -> Result<Value, NoMemory>
    ensures { IfOk result (λ told. view told ≡ list.hints_data text.now lines.first lines.last (told_in takes.now)) }
{
    let mut walker = Walker::new(text);
    let mut values = Vec::new(alloc);
    for take in takes {
        let place = walker.position_of(take.start);
        if lines.contain(place) {
            values.push(hint_value(alloc, place, take.label.as_str())?)?;
        }
    }
    Ok(Value::Array(values))
}

/// The hints of a program in `lines`.
fn program_hints(
    alloc: Global,
    text: &[u8],
    program: &Program,
    lines: Lines,
) -> Result<Value, NoMemory>
    ensures { IfOk result (λ told. view told
        ≡ list.hints_data text.now lines.first lines.last (in_order (takes_of program.now))) }
{
    let found = takes(alloc, program)?;
    hint_values(alloc, text, &found, lines)
}

/// The empty list of hints.
fn no_hints(alloc: Global) -> Value
    ensures { view result ≡ array no_items }
{
    Value::Array(Vec::new(alloc))
}

/// The protocol's list of `InlayHint` for the lines of `text` from `first_line` to `last_line`, both included and
/// counted from 0: `take PATHS` at each place where `check` has a line `at LINE:COL take PATHS`, in the order of the
/// text. At one place each label stands once, in the order of its bytes. For a text that is not accepted the list is
/// empty.
///
/// # Errors
///
/// `NoMemory`: a growth was refused.
pub fn hints(alloc: Global, text: &str, first_line: u64, last_line: u64) -> Result<Value, NoMemory>
    ensures told { IfOk result (λ told. list.AreHintsOf text.now first_line last_line (view told)) }
    ensures plain { IfOk result (λ told. has_float (view told) ≡ false) }
{
    let bytes = text.as_bytes();
    match compile(alloc, bytes) {
        Ok(program) => {
            let lines = Lines {
                first: first_line,
                last: last_line,
            };
            program_hints(alloc, bytes, &program, lines)
        }
        Err(Refusal::NoMemory) => Err(NoMemory),
        Err(Refusal::Fault(_)) => Ok(no_hints(alloc)),
    }
}
