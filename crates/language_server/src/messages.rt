//! The messages of faults. The one error is a refused growth.

ghost use Rattle.std.specs.Prelude.{◌≡◌, ◌++◌, IfOk, OnOk, map, string_bytes};
ghost use Rattle.std.specs.List.{flat_map};
ghost use Rattle.explanation.specs.Notes.{note_of};
ghost use Rattle.language_server.specs.Diagnostics as list;

use explanation::{Note, fault_words, remedy_of};
use source::fault::Fault;
use source::mistake::Mistake;
use std::alloc::{AllocError, Global};

/// Appends `words` in a line of their own.
fn push_line(message: &mut String, words: &str) -> Result<(), AllocError>
    ensures { OnOk result (string_bytes message.new ≡ string_bytes message.old ++ list.next_line words.now) }
{
    message.push_str("\n")?;
    message.push_str(words)
}

/// Appends `note`, if it does not have a place.
fn push_note(message: &mut String, note: &Note) -> Result<(), AllocError>
    ensures { OnOk result (string_bytes message.new ≡ string_bytes message.old ++ list.note_line (note_of note.now)) }
{
    match note.start {
        Some(_) => Ok(()),
        None => push_line(message, note.words.as_str()),
    }
}

/// Appends those of `notes` that do not have a place.
fn push_notes(message: &mut String, notes: &[Note]) -> Result<(), AllocError>
    ensures { OnOk result (string_bytes message.new ≡ string_bytes message.old
        ++ flat_map list.note_line (map note_of notes.now)) }
{
    for note in notes {
        push_note(message, note)?;
    }
    Ok(())
}

/// The message of a fault: its text with its detail, a line for each note without a place, and a line for the suggested
/// fix.
pub fn fault_message(alloc: Global, fault: &Fault, notes: &[Note]) -> Result<String, AllocError>
    ensures { IfOk result (λ message. string_bytes message ≡ list.fault_message fault.now (map note_of notes.now)) }
{
    let mut message = fault_words(alloc, fault)?;
    push_notes(&mut message, notes)?;
    push_line(&mut message, remedy_of(fault.code))?;
    Ok(message)
}

/// The message of a further fault: its text, and a line for the suggested fix.
pub fn further_message(alloc: Global, fault: Mistake) -> Result<String, AllocError>
    ensures { IfOk result (λ message. string_bytes message ≡ list.further_message fault) }
{
    let mut message = String::from_str(alloc, fault.code.text())?;
    push_line(&mut message, remedy_of(fault.code))?;
    Ok(message)
}
