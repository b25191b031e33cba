//! The reader of expectations.

ghost use Rattle.std.specs.Prelude.{◌≡◌, ◌≤◌, ℕ, IsTrue, length, map, option_map};
ghost use Rattle.std.specs.List.{list_all};
ghost use Rattle.report_runs.specs.declared.expectation_reading.Stopped.TheVariants as stopped;
ghost use Rattle.report_runs.specs.ExpectationTexts.{is_word_byte, amount_of, amount_in, item_at, sign_at, relation_of_two, relation_of_one, relation_at};
ghost use Rattle.report_runs.specs.ExpectationTexts.{sum_from, sum_at, meaning_of, Answers};
ghost use Rattle.report_runs.specs.ExpectationTexts.{read_text, part_of, said_of};
ghost use Rattle.report_runs.specs.Working.Reads.{Reads};

use crate::bytes::{is_digit, number, skip, split_word};
use crate::expectation::{
    BadExpectation, Expectation, ExpectationRefusal, Item, Relation, Sign, Term,
};
use std::alloc::{AllocError, AllocFailed, Global};
use std::str::from_utf8_unchecked;

/// Why a part of a text could not be read.
enum Stopped<'t> {
    /// The rest of the text can't be read.
    At(&'t [u8]),
    /// A growth was refused.
    NoMemory,
}

impl From<AllocError> for Stopped<'_> {
    ghost from_gives = { λ _ e. e ≡ stopped.NoMemory };

    fn from(_e: AllocError) -> Self {
        Stopped::NoMemory
    }
}

impl<T: Drop> From<AllocFailed<T>> for Stopped<'_> {
    ghost from_gives = { λ _ e. e ≡ stopped.NoMemory };

    fn from(_e: AllocFailed<T>) -> Self {
        Stopped::NoMemory
    }
}

/// A word as a `str`.
#[tactic(auto, using(crate::proofs::Words::word_utf8))]
fn text_of(word: &[u8]) -> &str
    requires { IsTrue (list_all is_word_byte word.now) }
    ensures { result.now ≡ word.now }
{
    // SAFETY: letters, digits, `_`, `.` and brackets are ASCII.
    unsafe { from_utf8_unchecked(word) }
}

/// The item that `word` writes: a number or a name.
fn item_in(word: &[u8]) -> Option<Item<'_>>
    requires { IsTrue (list_all is_word_byte word.now) }
    ensures { option_map amount_of result ≡ amount_in word.now }
{
    let [first, ..] = word else {
        return None;
    };
    if is_digit(*first) {
        match number(word) {
            Some(number) => Some(Item::Number(number)),
            None => None,
        }
    } else {
        Some(Item::Name(text_of(word)))
    }
}

/// The item at the start of `text`, and the rest.
fn item(text: &[u8]) -> Option<(Item<'_>, &[u8])>
    ensures { option_map (λ r. (amount_of r.0, r.1.now)) result ≡ item_at text.now }
{
    let (word, rest) = split_word(text);
    match item_in(word) {
        Some(item) => Some((item, rest)),
        None => None,
    }
}

/// The sign at the start of `text`, and the rest.
fn sign(text: &[u8]) -> Option<(Sign, &[u8])>
    ensures { option_map (λ r. (r.0, r.1.now)) result ≡ sign_at text.now }
{
    match text {
        [b'+', rest @ ..] => Some((Sign::Plus, rest)),
        [b'-', rest @ ..] => Some((Sign::Minus, rest)),
        _ => None,
    }
}

/// The relation that two bytes write.
fn relation_of_two(first: u8, second: u8) -> Option<Relation>
    ensures { result ≡ relation_of_two first second }
{
    match (first, second) {
        (b'=', b'=') => Some(Relation::Equal),
        (b'!', b'=') => Some(Relation::NotEqual),
        (b'<', b'=') => Some(Relation::LessOrEqual),
        (b'>', b'=') => Some(Relation::GreaterOrEqual),
        _ => None,
    }
}

/// The relation that one byte writes.
fn relation_of_one(byte: u8) -> Option<Relation>
    ensures { result ≡ relation_of_one byte }
{
    match byte {
        b'<' => Some(Relation::Less),
        b'>' => Some(Relation::Greater),
        _ => None,
    }
}

/// The relation at the start of `text`, and the rest.
fn relation(text: &[u8]) -> Option<(Relation, &[u8])>
    ensures { option_map (λ r. (r.0, r.1.now)) result ≡ relation_at text.now }
{
    if let [first, second, rest @ ..] = text {
        if let Some(relation) = relation_of_two(*first, *second) {
            return Some((relation, rest));
        }
    }
    let [first, rest @ ..] = text else {
        return None;
    };
    match relation_of_one(*first) {
        Some(relation) => Some((relation, rest)),
        None => None,
    }
}

/// The items of a sum after its first sign, and the rest of the text.
fn sum_from<'t>(
    alloc: Global,
    first: Sign,
    text: &'t [u8],
) -> Result<(Vec<Term<'t>>, &'t [u8]), Stopped<'t>>
    ensures { (n : ℕ) → length text.entry.now ≤ n → Reads (λ read. (map part_of read.0.items, read.1.now)) result
        (sum_from n first text.entry.now) }
{
    let mut terms = Vec::new(alloc);
    let mut before = first;
    let mut rest = text;
    'items: loop {
        let here = skip(rest);
        let Some((item, behind)) = item(here) else {
            return Err(Stopped::At(here));
        };
        terms.push(Term { sign: before, item })?;
        let behind = skip(behind);
        match sign(behind) {
            Some((next, more)) => {
                before = next;
                rest = more;
            }
            None => return Ok((terms, behind)),
        }
    }
}

/// The sum at the start of `text`, and the rest.
fn sum(alloc: Global, text: &[u8]) -> Result<(Vec<Term<'_>>, &[u8]), Stopped<'_>>
    ensures { Reads (λ read. (map part_of read.0.items, read.1.now)) result (sum_at text.entry.now) }
{
    match skip(text) {
        [b'-', rest @ ..] => sum_from(alloc, Sign::Minus, rest),
        rest => sum_from(alloc, Sign::Plus, rest),
    }
}

/// The expectation that `text` writes.
fn expectation(alloc: Global, text: &[u8]) -> Result<Expectation<'_>, Stopped<'_>>
    ensures { Reads said_of result (read_text text.entry.now) }
{
    let (left, rest) = sum(alloc, text)?;
    let Some((relation, rest)) = relation(rest) else {
        return Err(Stopped::At(rest));
    };
    let (right, rest) = sum(alloc, rest)?;
    if !rest.is_empty() {
        return Err(Stopped::At(rest));
    }
    Ok(Expectation {
        left,
        relation,
        right,
    })
}

/// The expectation that `text` writes, with the meaning that `specs/ExpectationTexts.antt` defines.
///
/// # Errors
///
/// The text is not a comparison, or a growth was refused.
pub fn read_expectation(alloc: Global, text: &str) -> Result<Expectation<'_>, ExpectationRefusal>
    ensures { Answers result (meaning_of text.entry.now) }
{
    let text = text.as_bytes();
    match expectation(alloc, text) {
        Ok(expectation) => Ok(expectation),
        Err(Stopped::At(rest)) => Err(ExpectationRefusal::Bad(BadExpectation {
            start: text.len().saturating_sub(rest.len()),
        })),
        Err(Stopped::NoMemory) => Err(ExpectationRefusal::NoMemory),
    }
}
