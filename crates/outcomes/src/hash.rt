//! The hashes by which states are found.

ghost use Rattle.std.specs.Prelude.{◌≡◌};
ghost use Rattle.outcomes.specs.Working.Hashes.{hash, mixed, mixed_all, mixed_answer, mixed_changes, word_of};
ghost use Rattle.outcomes.specs.Working.Hashes.{mixed_answers};

use crate::state::Change;
use core_lang::value::{Outcome, Value};
use std::hash::{FoldHasher, Hasher};

fn mixed(hasher: FoldHasher, word: u64) -> FoldHasher
    ensures { result ≡ mixed hasher word }
{
    let mut hasher = hasher;
    hasher.write_u64(word);
    hasher
}

// Values of one cell are of one type, so a number and a reference need not differ.
fn word_of(value: Value) -> u64
    ensures { result ≡ word_of value }
{
    match value {
        Value::Int(n) => n.cast_unsigned(),
        Value::Ref(Some(object)) => u64::from(object),
        Value::Ref(None) => 1 << 32,
    }
}

fn mixed_counts(start: FoldHasher, done: &[usize]) -> FoldHasher
    ensures { result ≡ mixed_all start done.now }
{
    let mut hasher = start;
    for count in done {
        hasher = mixed(hasher, *count as u64);
    }
    hasher
}

fn mixed_changes(start: FoldHasher, changes: &[Change]) -> FoldHasher
    ensures { result ≡ mixed_changes start changes.now }
{
    let mut hasher = start;
    for change in changes {
        hasher = mixed(mixed(hasher, change.cell as u64), word_of(change.value));
    }
    hasher
}

// The outcome of a call takes two words, so that no result is hashed like a trap.
fn mixed_answer(hasher: FoldHasher, answer: Option<Outcome>) -> FoldHasher
    ensures { result ≡ mixed_answer hasher answer }
{
    match answer {
        None => mixed(hasher, 0),
        Some(Outcome::Ends) => mixed(hasher, 1),
        Some(Outcome::Returns(value)) => mixed(mixed(hasher, 2), word_of(value)),
        Some(Outcome::Traps(trap)) => mixed(mixed(hasher, 3), u64::from(trap.number())),
    }
}

fn mixed_answers(start: FoldHasher, answers: &[Option<Outcome>]) -> FoldHasher
    ensures { result ≡ mixed_answers start answers.now }
{
    let mut hasher = start;
    for answer in answers {
        hasher = mixed_answer(hasher, *answer);
    }
    hasher
}

/// The hash of a state, by a hasher with the keys. Equal states have equal hashes.
pub(crate) fn hash(
    start: FoldHasher,
    done: &[usize],
    changes: &[Change],
    answers: &[Option<Outcome>],
) -> u64
    ensures { result ≡ hash start done.now changes.now answers.now }
{
    let hasher = mixed_changes(mixed_counts(start, done), changes);
    mixed_answers(hasher, answers).finish()
}
