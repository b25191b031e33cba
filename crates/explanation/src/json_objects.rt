//! The JSON objects of faults and of accepted programs. The only error is a failed allocation.

ghost use Rattle.std.specs.Prelude.{◌≡◌, IfOk, map, string_bytes};
ghost use Rattle.explanation.specs.Notes.{note_of};
ghost use Rattle.explanation.specs.Warnings.{warning_of};
ghost use Rattle.serde_json.specs.View.{view, members_view};
ghost use Rattle.explanation.specs.Json as object;
ghost use Rattle.explanation.specs.Working.JsonValues.{accepted_data_of, accepted_json_of, fault_data_of, fault_json_of, fault_members_of, fault_words_of};

use crate::explanation::{Acceptance, Explanation};
use crate::note::Note;
use crate::place_ends::Places;
use crate::remedy::remedy_of;
use crate::warning::Warning;
use serde_json::{Map, Value, json, put};
use source::fault::Fault;
use source::memory::NoMemory;
use source::mistake::Mistake;
use std::alloc::{AllocError, Global};

/// The object of a note.
fn note_value(alloc: Global, places: &Places<'_>, note: &Note) -> Result<Value, AllocError>
    ensures { IfOk result (λ value. view value ≡ object.note_data places.now.text.now (note_of note.now)) }
{
    let Some(start) = note.start else {
        return json!(in alloc; {"text": note.words.as_str()});
    };
    let range = places.range(alloc, start)?;
    json!(in alloc; {"end": range.end, "start": range.start, "text": note.words.as_str()})
}

/// The array of notes.
fn note_values(alloc: Global, places: &Places<'_>, notes: &[Note]) -> Result<Value, AllocError>
    ensures { IfOk result (λ value. view value ≡ object.notes_data places.now.text.now (map note_of notes.now)) }
{
    let mut values = Vec::new(alloc);
    for note in notes {
        values.push(note_value(alloc, places, note)?)?;
    }
    Ok(Value::Array(values))
}

/// The object of a warning.
fn warning_value(alloc: Global, places: &Places<'_>, warning: &Warning) -> Result<Value, AllocError>
    ensures { IfOk result (λ value. view value ≡ object.warning_data places.now.text.now (warning_of warning.now)) }
{
    let words = warning.what.words(alloc)?;
    let range = places.range(alloc, warning.start)?;
    json!(in alloc; {"end": range.end, "start": range.start, "text": words.as_str()})
}

/// The array of warnings.
fn warning_values(
    alloc: Global,
    places: &Places<'_>,
    warnings: &[Warning],
) -> Result<Value, AllocError>
    ensures { IfOk result
        (λ value. view value ≡ object.warnings_data places.now.text.now (map warning_of warnings.now)) }
{
    let mut values = Vec::new(alloc);
    for warning in warnings {
        values.push(warning_value(alloc, places, warning)?)?;
    }
    Ok(Value::Array(values))
}

/// The object of a further fault.
fn further_value(alloc: Global, places: &Places<'_>, fault: Mistake) -> Result<Value, AllocError>
    ensures { IfOk result (λ value. view value ≡ object.further_fault_data places.now.text.now fault) }
{
    let range = places.range(alloc, fault.start)?;
    json!(in alloc; {"code": fault.code.name(), "end": range.end, "start": range.start, "text": fault.code.text()})
}

/// The array of further faults.
fn further_values(
    alloc: Global,
    places: &Places<'_>,
    faults: &[Mistake],
) -> Result<Value, AllocError>
    ensures { IfOk result (λ value. view value ≡ object.further_faults_data places.now.text.now faults.now) }
{
    let mut values = Vec::new(alloc);
    for fault in faults {
        values.push(further_value(alloc, places, *fault)?)?;
    }
    Ok(Value::Array(values))
}

/// The message of a fault, with the classes of a cycle.
///
/// # Errors
///
/// A failed allocation.
pub fn fault_words(alloc: Global, fault: &Fault) -> Result<String, AllocError>
    ensures { IfOk result (λ words. string_bytes words ≡ fault_words_of fault.now) }
{
    let mut words = String::from_str(alloc, fault.code.text())?;
    if !fault.detail.is_empty() {
        words.push_str(": ")?;
        words.push_str(fault.detail.as_str())?;
    }
    Ok(words)
}

/// The members of a fault's object that are not about a place.
fn fault_members(alloc: Global, file: &str, fault: &Fault) -> Result<Map<String, Value>, AllocError>
    ensures { IfOk result (λ map. members_view map.entries ≡ fault_members_of file.now fault.now) }
{
    let words = fault_words(alloc, fault)?;
    let mut map = Map::new(alloc);
    put(&mut map, alloc, "accepted", Value::Bool(false))?;
    put(
        &mut map,
        alloc,
        "code",
        Value::try_from_str(alloc, fault.code.name())?,
    )?;
    put(&mut map, alloc, "file", Value::try_from_str(alloc, file)?)?;
    put(
        &mut map,
        alloc,
        "remedy",
        Value::try_from_str(alloc, remedy_of(fault.code))?,
    )?;
    put(
        &mut map,
        alloc,
        "text",
        Value::try_from_str(alloc, words.as_str())?,
    )?;
    Ok(map)
}

/// The object of a fault.
fn fault_value(alloc: Global, explanation: &Explanation<'_>) -> Result<Value, NoMemory>
    ensures { IfOk result (λ value. view value ≡ fault_data_of explanation.now) }
{
    let places = Places::of(alloc, explanation.text)?;
    let range = places.range(alloc, explanation.fault.start)?;
    let notes = note_values(alloc, &places, explanation.notes)?;
    let further = further_values(alloc, &places, &explanation.further.faults)?;
    let mut map = fault_members(alloc, explanation.file, explanation.fault)?;
    put(&mut map, alloc, "end", range.end)?;
    put(&mut map, alloc, "further", further)?;
    put(
        &mut map,
        alloc,
        "more",
        Value::Bool(explanation.further.has_more),
    )?;
    put(&mut map, alloc, "notes", notes)?;
    put(&mut map, alloc, "start", range.start)?;
    Ok(Value::Object(map))
}

/// The object of an accepted program.
fn accepted_value(alloc: Global, acceptance: &Acceptance<'_>) -> Result<Value, NoMemory>
    ensures { IfOk result (λ value. view value ≡ accepted_data_of acceptance.now) }
{
    let places = Places::of(alloc, acceptance.text)?;
    let notes = note_values(alloc, &places, acceptance.notes)?;
    let warnings = warning_values(alloc, &places, acceptance.warnings)?;
    let mut map = Map::new(alloc);
    put(&mut map, alloc, "accepted", Value::Bool(true))?;
    put(
        &mut map,
        alloc,
        "file",
        Value::try_from_str(alloc, acceptance.file)?,
    )?;
    put(&mut map, alloc, "notes", notes)?;
    put(&mut map, alloc, "warnings", warnings)?;
    Ok(Value::Object(map))
}

/// The object of a fault, on one line: its code and message, the file's name, where it begins and ends, each with line
/// and column, the notes with their places, the remedy, and the further faults, each with its code, message and places.
///
/// # Errors
///
/// Out of memory.
pub fn fault_json(alloc: Global, explanation: &Explanation<'_>) -> Result<String, NoMemory>
    ensures { IfOk result (λ json. string_bytes json ≡ fault_json_of explanation.now) }
{
    let value = fault_value(alloc, explanation)?;
    let mut json = value.to_string(alloc)?;
    json.push_str("\n")?;
    Ok(json)
}

/// The object of a program without a fault: the file's name, the notes and the warnings with their places.
///
/// # Errors
///
/// Out of memory.
pub fn accepted_json(alloc: Global, acceptance: &Acceptance<'_>) -> Result<String, NoMemory>
    ensures { IfOk result (λ json. string_bytes json ≡ accepted_json_of acceptance.now) }
{
    let value = accepted_value(alloc, acceptance)?;
    let mut json = value.to_string(alloc)?;
    json.push_str("\n")?;
    Ok(json)
}
