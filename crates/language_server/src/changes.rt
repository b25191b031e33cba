//! Changes of a text. The one error is a refused growth.

ghost use Rattle.std.specs.Prelude.{◌≡◌, ◌++◌, IfOk, codes, string_bytes};
ghost use Rattle.language_server.specs.Changes as changes;
ghost use Rattle.language_server.specs.Working.Values.{change_of};

use std::alloc::{AllocError, Global};

/// A replacement of some bytes of a text.
#[derive(Drop)]
pub struct Change {
    /// The first byte that is replaced.
    pub start: usize,
    /// The byte after the last replaced one; equal to `start` for an insertion.
    pub end: usize,
    /// The new text.
    pub new: String,
    /// The title of the change.
    pub title: String,
}

/// `first` followed by `second`.
fn joined(alloc: Global, first: &str, second: &str) -> Result<String, AllocError>
    ensures { IfOk result (λ whole. string_bytes whole ≡ first.now ++ second.now) }
{
    let mut whole = String::from_str(alloc, first)?;
    whole.push_str(second)?;
    Ok(whole)
}

/// The annotation `protected_by(LOCK)`.
fn annotation(alloc: Global, lock: &str) -> Result<String, AllocError>
    ensures { IfOk result (λ words. string_bytes words ≡ changes.annotation lock.now) }
{
    let mut words = joined(alloc, "protected_by(", lock)?;
    words.push_str(")")?;
    Ok(words)
}

/// The first word of a note.
pub fn first_word(words: &str) -> &str
    ensures { result.now ≡ changes.first_word words.now }
{
    match words.split_once(' ') {
        Some((word, _)) => word,
        None => words,
    }
}

impl Change {
    /// The change that inserts a `;` at byte `place`.
    pub fn ended(alloc: Global, place: usize) -> Result<Change, AllocError>
        ensures { IfOk result (λ change. change_of change ≡ changes.ended place) }
    {
        Change::replaced(alloc, place, place, ";")
    }

    /// The change that deletes the bytes from `start` up to `end`.
    pub fn left_out(alloc: Global, start: usize, end: usize) -> Result<Change, AllocError>
        ensures { IfOk result (λ change. change_of change ≡ changes.left_out start end) }
    {
        let title = String::from_str(alloc, "leave it out")?;
        Ok(Change {
            start,
            end,
            new: String::new(alloc),
            title,
        })
    }

    /// The change that replaces the bytes from `start` up to `end` by `word`.
    pub fn replaced(
        alloc: Global,
        start: usize,
        end: usize,
        word: &str,
    ) -> Result<Change, AllocError>
        ensures { IfOk result (λ change. change_of change ≡ changes.replaced start end word.now) }
    {
        let new = String::from_str(alloc, word)?;
        let title = joined(alloc, "write ", word)?;
        Ok(Change {
            start,
            end,
            new,
            title,
        })
    }

    /// The change that inserts the annotation with the lock `lock` at byte `place`.
    pub fn annotated(alloc: Global, place: usize, lock: &str) -> Result<Change, AllocError>
        ensures { IfOk result (λ change. change_of change ≡ changes.annotated place lock.now) }
    {
        let words = annotation(alloc, lock)?;
        let new = joined(alloc, " ", words.as_str())?;
        let title = joined(alloc, "write ", words.as_str())?;
        Ok(Change {
            start: place,
            end: place,
            new,
            title,
        })
    }
}
