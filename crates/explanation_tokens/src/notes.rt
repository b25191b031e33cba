//! The notes on an unexpected token.

ghost use Rattle.std.specs.Prelude.{◌≡◌, ◌++◌, ◌≤◌, IfOk, OnOk, length, map, option_to_list, string_bytes};
ghost use Rattle.explanation.specs.Notes.{note_of};
ghost use Rattle.source.specs.Tokens.{seen};
ghost use Rattle.explanation_tokens.specs.Advice.{advice_on};
ghost use Rattle.explanation_tokens.specs.Expected.{expected_words};
ghost use Rattle.explanation_tokens.specs.Told.{AreNotesOnTokens};
ghost use Rattle.explanation_tokens.specs.Working.Trials.{notes_on};

use crate::candidate::{Candidate, push_first, push_others};
use crate::trial::{expected, place_of};
use crate::view::View;
use explanation::Note;
use source::fault::{Code, Fault};
use source::memory::NoMemory;
use source::token::Token;
use std::alloc::{AllocError, Global};

/// The most tokens that are read again, once for each candidate.
const MOST_READ: usize = 4096;

/// The words of a note on these candidates.
fn words(alloc: Global, first: Candidate, others: &[Candidate]) -> Result<String, AllocError>
    ensures { IfOk result (λ text. string_bytes text ≡ expected_words first others.now) }
{
    let mut out = String::from_str(alloc, "expected ")?;
    push_first(&mut out, first)?;
    push_others(&mut out, others)?;
    Ok(out)
}

/// Adds the note on these candidates, if there are any.
fn push_expected(
    notes: &mut Vec<Note>,
    alloc: Global,
    candidates: &[Candidate],
) -> Result<(), NoMemory>
    ensures { OnOk result (map note_of notes.new.items ≡ map note_of notes.old.items ++ notes_on candidates.now) }
{
    if let Some((first, others)) = candidates.split_first() {
        notes.push(Note {
            start: None,
            words: words(alloc, *first, others)?,
        })?;
    }
    Ok(())
}

/// The advice on the token after the first `number` ones.
fn advice(alloc: Global, tokens: &[Token], number: usize) -> Result<Vec<Note>, NoMemory>
    requires { number ≤ length tokens.now }
    ensures { IfOk result (λ notes. map note_of notes.items ≡ option_to_list (advice_on (seen tokens.now) number)) }
{
    let mut notes = Vec::new(alloc);
    let view = View::of(alloc, tokens, number)?;
    if let Some(note) = view.note(alloc)? {
        notes.push(note)?;
    }
    Ok(notes)
}

/// The notes that the tokens give on a fault beyond its line. For an `E03`, the first is the advice on the tokens
/// around it, if a row of the table fits. Then come all tokens that could be there instead, if any could, unless more
/// than 4,096 tokens come before the place.
///
/// # Errors
///
/// Out of memory.
pub fn token_notes(alloc: Global, tokens: Vec<Token>, fault: &Fault) -> Result<Vec<Note>, NoMemory>
    ensures { IfOk result
        (λ notes. AreNotesOnTokens (seen tokens.items) fault.now.code fault.now.start (map note_of notes.items)) }
{
    let Code::UnexpectedToken = fault.code else {
        return Ok(Vec::new(alloc));
    };
    let Some(place) = place_of(&tokens, fault.start) else {
        return Ok(Vec::new(alloc));
    };
    let mut notes = advice(alloc, &tokens, place.number)?;
    if place.number > MOST_READ {
        return Ok(notes);
    }
    let candidates = expected(alloc, tokens, place)?;
    push_expected(&mut notes, alloc, &candidates)?;
    Ok(notes)
}
