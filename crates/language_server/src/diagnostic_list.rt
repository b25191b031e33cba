//! The list of diagnostics. The one error is a refused growth.

ghost use Rattle.std.specs.Prelude.{◌≡◌, ◌++◌, ◌∷◌, IfOk, OnOk, false, map};
ghost use Rattle.std.specs.List.{flat_map};
ghost use Rattle.serde_json.specs.Data.{array};
ghost use Rattle.serde_json.specs.View.{view, items_of};
ghost use Rattle.serde_json.specs.Written.{has_float};
ghost use Rattle.explanation.specs.Notes.{note_of};
ghost use Rattle.explanation.specs.Warnings.{warning_of};
ghost use Rattle.explanations.specs.Told.{said_by};
ghost use Rattle.language_server.specs.Diagnostics as list;

use crate::messages::{fault_message, further_message};
use crate::places::{Document, Places};
use explanation::{Note, Warning};
use explanations::{Diagnosis, told_of};
use serde_json::{Value, json};
use source::fault::Fault;
use source::memory::NoMemory;
use source::mistake::Mistake;
use std::alloc::{AllocError, Global};

/// The tool that a diagnostic names.
const SOURCE: &str = "autolock";

/// The protocol's severity of an error.
const ERROR: u64 = 1;

/// The protocol's severity of a warning.
const WARNING: u64 = 2;

/// Appends `note` as related information, if it has a place.
fn push_related(
    alloc: Global,
    places: &Places<'_>,
    values: &mut Vec<Value>,
    note: &Note,
) -> Result<(), AllocError>
    ensures { OnOk result (map view values.new.items ≡ map view values.old.items
        ++ list.note_related places.now.document.uri.now places.now.document.text.now (note_of note.now)) }
{
    let Some(start) = note.start else {
        return Ok(());
    };
    values.push(places.related(alloc, start, note.words.as_str())?)?;
    Ok(())
}

/// The notes with a place, as related information.
fn related_values(alloc: Global, places: &Places<'_>, notes: &[Note]) -> Result<Value, AllocError>
    ensures { IfOk result (λ told. view told ≡ array (items_of (flat_map
        (list.note_related places.now.document.uri.now places.now.document.text.now) (map note_of notes.now)))) }
{
    let mut values = Vec::new(alloc);
    for note in notes {
        push_related(alloc, places, &mut values, note)?;
    }
    Ok(Value::Array(values))
}

/// The diagnostic of a fault.
fn fault_value(
    alloc: Global,
    places: &Places<'_>,
    fault: &Fault,
    notes: &[Note],
) -> Result<Value, AllocError>
    ensures { IfOk result (λ told. view told ≡ list.fault_data places.now.document.uri.now places.now.document.text.now
        fault.now (map note_of notes.now)) }
{
    let message = fault_message(alloc, fault, notes)?;
    let range = places.range(alloc, fault.start)?;
    let related = related_values(alloc, places, notes)?;
    json!(in alloc; {"code": fault.code.name(), "message": message.as_str(), "range": &range,
        "relatedInformation": &related, "severity": ERROR, "source": SOURCE})
}

/// The diagnostic of a further fault.
fn further_value(alloc: Global, places: &Places<'_>, fault: &Mistake) -> Result<Value, AllocError>
    ensures { IfOk result (λ told. view told ≡ list.further_data places.now.document.text.now fault.now) }
{
    let message = further_message(alloc, *fault)?;
    let range = places.range(alloc, fault.start)?;
    json!(in alloc; {"code": fault.code.name(), "message": message.as_str(), "range": &range,
        "severity": ERROR, "source": SOURCE})
}

/// The diagnostics of further faults.
fn further_values(
    alloc: Global,
    places: &Places<'_>,
    faults: &[Mistake],
) -> Result<Vec<Value>, AllocError>
    ensures { IfOk result
        (λ values. map view values.items ≡ map (list.further_data places.now.document.text.now) faults.now) }
{
    let mut values = Vec::new(alloc);
    for fault in faults {
        values.push(further_value(alloc, places, fault)?)?;
    }
    Ok(values)
}

/// The diagnostics of a fault and of further ones.
fn faulty_values(
    alloc: Global,
    places: &Places<'_>,
    first: Value,
    faults: &[Mistake],
) -> Result<Value, AllocError>
    ensures { IfOk result (λ told. view told ≡ array (items_of (view first
        ∷ map (list.further_data places.now.document.text.now) faults.now))) }
{
    let mut values = further_values(alloc, places, faults)?;
    values.insert(0, first)?;
    Ok(Value::Array(values))
}

/// The diagnostic of a warning.
fn warning_value(alloc: Global, places: &Places<'_>, warning: &Warning) -> Result<Value, AllocError>
    ensures { IfOk result (λ told. view told ≡ list.warning_data places.now.document.text.now
        (warning_of warning.now)) }
{
    let words = warning.what.words(alloc)?;
    let range = places.range(alloc, warning.start)?;
    json!(in alloc; {"message": words.as_str(), "range": &range, "severity": WARNING, "source": SOURCE})
}

/// The diagnostics of warnings.
fn warning_values(
    alloc: Global,
    places: &Places<'_>,
    warnings: &[Warning],
) -> Result<Value, AllocError>
    ensures { IfOk result (λ told. view told ≡ array (items_of (map (list.warning_data places.now.document.text.now)
        (map warning_of warnings.now)))) }
{
    let mut values = Vec::new(alloc);
    for warning in warnings {
        values.push(warning_value(alloc, places, warning)?)?;
    }
    Ok(Value::Array(values))
}

/// The diagnostics of the report on a text.
fn told_value(alloc: Global, places: &Places<'_>, told: &Diagnosis) -> Result<Value, AllocError>
    ensures { IfOk result (λ found. view found ≡ list.diagnostics_data places.now.document.uri.now
        places.now.document.text.now (said_by told.now)) }
{
    match told {
        Diagnosis::Faulty {
            fault,
            notes,
            further,
        } => {
            let first = fault_value(alloc, places, fault, notes)?;
            faulty_values(alloc, places, first, &further.faults)
        }
        Diagnosis::Accepted { warnings, .. } => warning_values(alloc, places, warnings),
    }
}

/// The diagnostics of `text`: an error for its fault, with the notes and a suggested fix, and one for each further
/// fault; for an accepted text a warning for each of its warnings. Related information has the URI `uri`.
///
/// # Errors
///
/// `NoMemory`: a growth was refused.
pub fn diagnostics(alloc: Global, uri: &str, text: &str) -> Result<Value, NoMemory>
    ensures told { IfOk result (λ found. list.AreDiagnosticsOf uri.now text.now (view found)) }
    ensures plain { IfOk result (λ found. has_float (view found) ≡ false) }
{
    let text = text.as_bytes();
    let told = told_of(alloc, text)?;
    let places = Places::of(alloc, Document { uri, text })?;
    let found = told_value(alloc, &places, &told)?;
    Ok(found)
}
