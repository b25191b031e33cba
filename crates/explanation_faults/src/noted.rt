//! The notes on single parts of a tree.

ghost use Rattle.std.specs.Prelude.{◌≡◌, IfOk, string_bytes};
ghost use Rattle.explanation.specs.Notes.{note_of};
ghost use Rattle.syntax.specs.Views.{ident, init_of, pool_of};
ghost use Rattle.explanation_faults.specs.FaultNotes.{gap_words, given_note, lock_note, lock_words};
ghost use Rattle.explanation_faults.specs.Working.Values.{gap_note_of};
ghost use Rattle.explanation_faults.specs.Words.{name_note};

use crate::missing_inits::MissingInit;
use explanation::Note;
use source::memory::NoMemory;
use std::alloc::Global;
use syntax::tree::{Init, Name};

/// The note `NAME WORDS` at the name.
pub fn name_note(alloc: Global, name: &Name, words: &str) -> Result<Note, NoMemory>
    ensures { IfOk result (λ note. note_of note ≡ name_note (ident name.now) words.now) }
{
    let mut said = String::from_str(alloc, name.text.as_str())?;
    said.push_str(words)?;
    Ok(Note {
        start: Some(name.start as usize),
        words: said,
    })
}

fn lock_words(alloc: Global, name: &Name) -> Result<String, NoMemory>
    ensures { IfOk result (λ words. string_bytes words ≡ lock_words (ident name.now)) }
{
    let mut words = String::from_str(alloc, " could protect it: protected_by(")?;
    words.push_str(name.text.as_str())?;
    words.push_str(")")?;
    Ok(words)
}

/// The note `NAME could protect it` at a lock.
pub fn lock_note(alloc: Global, name: &Name) -> Result<Note, NoMemory>
    ensures { IfOk result (λ note. note_of note ≡ lock_note (ident name.now)) }
{
    let words = lock_words(alloc, name)?;
    name_note(alloc, name, words.as_str())
}

fn gap_words(alloc: Global, gap: &MissingInit<'_>) -> Result<String, NoMemory>
    ensures { IfOk result (λ words. string_bytes words ≡ gap_words (pool_of gap.now.pool.now) gap.now.index) }
{
    let mut words = String::from_str(alloc, " is final, and no init gives it for ")?;
    words.push_str(gap.pool.name.text.as_str())?;
    write!(words, "[{}]", gap.index)?;
    Ok(words)
}

/// The note at a final reference that it is final, and no `init` gives it for a member of a pool.
pub fn gap_note(alloc: Global, gap: &MissingInit<'_>) -> Result<Note, NoMemory>
    ensures { IfOk result (λ note. note_of note ≡ gap_note_of gap.now) }
{
    let words = gap_words(alloc, gap)?;
    name_note(alloc, &gap.reference.name, words.as_str())
}

/// The note `FIELD is given here` at an `init`.
pub fn init_note(alloc: Global, init: &Init) -> Result<Note, NoMemory>
    ensures { IfOk result (λ note. note_of note ≡ given_note (init_of init.now)) }
{
    let mut said = String::from_str(alloc, init.field.text.as_str())?;
    said.push_str(" is given here")?;
    Ok(Note {
        start: Some(init.start.start as usize),
        words: said,
    })
}
