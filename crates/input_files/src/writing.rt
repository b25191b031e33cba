//! How one item is written, and what it means.

ghost use Rattle.std.specs.Prelude.{◌≡◌, ◌≤◌, length, min, take};
ghost use Rattle.std.specs.List.{position_or_len};
ghost use Rattle.source.specs.Texts.{is_name_byte};
ghost use Rattle.input_files.specs.Steps.{thread_len, until_of, until_in, is_named, no_thread, number_of};
ghost use Rattle.input_files.specs.Steps.{counted, item_of, STEP_LIMIT};
ghost use Rattle.input_files.specs.Working.StepsReading.{capped_of, cap};

use crate::item::{Item, Until};
use crate::number::{CAP, capped, is_number};
use crate::steps_refusal::StepsCode;
use core_lang::typed::Thread;
use source::limits::STEP_LIMIT;

/// Whether the byte is a letter, a digit or `_`.
fn is_name_byte(byte: u8) -> bool
    ensures { result ≡ is_name_byte byte }
{
    matches!(byte, b'A'..=b'Z' | b'a'..=b'z' | b'_' | b'0'..=b'9')
}

/// The number of bytes that name the thread.
#[tactic(auto, using(std::proofs::lemmas::List::Sums::position_or_len_is))]
fn thread_len(bytes: &[u8]) -> usize
    ensures place { result ≡ thread_len bytes.now }
    ensures bound { result ≤ length bytes.now }
{
    for (i, byte) in bytes.iter().enumerate() {
        if !is_name_byte(*byte) {
            return i;
        }
    }
    bytes.len()
}

/// The end of an item, by the text after its thread. A count above the cap becomes the cap.
fn until_of(bytes: &[u8]) -> Option<Until>
    ensures { result ≡ capped_of (until_of bytes.now) }
{
    let [sign, rest @ ..] = bytes else {
        return Some(Until::Count(1));
    };
    if *sign == b'*' && is_number(rest) {
        Some(Until::Count(capped(rest) as usize))
    } else if *sign == b'!' && rest.is_empty() {
        Some(Until::Stop)
    } else if *sign == b'+' && rest.is_empty() {
        Some(Until::CallEnd)
    } else {
        None
    }
}

/// The end of a whole item.
fn until_in(bytes: &[u8]) -> Option<Until>
    ensures { result ≡ capped_of (until_in bytes.now) }
{
    let len = thread_len(bytes);
    if len == 0 {
        None
    } else {
        until_of(&bytes[len..])
    }
}

/// The index of the first thread named `name`, or the number of threads if there is none.
#[tactic(auto, using(std::proofs::lemmas::List::Sums::position_or_len_is))]
fn thread_named(threads: &[Thread], name: &[u8]) -> usize
    ensures place { result ≡ position_or_len (is_named name.now) threads.now }
    ensures bound { result ≤ length threads.now }
{
    for (i, thread) in threads.iter().enumerate() {
        if thread.name.as_bytes() == name {
            return i;
        }
    }
    threads.len()
}

/// The number of the thread that `bytes` name by number or by name, or the cap if it is greater.
fn number_of(threads: &[Thread], bytes: &[u8]) -> u64
    requires { length threads.now ≤ u32.MAX }
    ensures { result ≡ min (number_of threads.now bytes.now) cap }
{
    if is_number(bytes) {
        capped(bytes)
    } else {
        thread_named(threads, bytes) as u64
    }
}

/// The code of a fault for a thread that does not exist, by how it is written.
fn no_thread(word: &[u8]) -> StepsCode
    ensures { result ≡ no_thread word.now }
{
    if is_number(word) {
        StepsCode::NoSuchThread
    } else {
        StepsCode::BadItem
    }
}

/// The number of steps that an item counts: 0 if only a run shows how many they are.
pub fn counted(until: Until) -> usize
    ensures { result ≡ counted until }
{
    match until {
        Until::Count(count) => count,
        Until::Stop => 0,
        Until::CallEnd => 0,
    }
}

/// The item in `bytes`, or the code of its fault. The item starts at `start`, and the items before it count `before`
/// steps.
pub fn item(
    bytes: &[u8],
    threads: &[Thread],
    start: usize,
    before: usize,
) -> Result<Item, StepsCode>
    requires few { length threads.now ≤ u32.MAX }
    requires most { before ≤ STEP_LIMIT }
    ensures { result ≡ item_of threads.now start before bytes.now }
{
    let Some(until) = until_in(bytes) else {
        return Err(StepsCode::BadItem);
    };
    let word = &bytes[..thread_len(bytes)];
    let thread = number_of(threads, word);
    if thread >= threads.len() as u64 {
        return Err(no_thread(word));
    }
    if before as u64 + counted(until) as u64 > STEP_LIMIT {
        return Err(StepsCode::TooManySteps);
    }
    Ok(Item {
        thread: thread as u32,
        until,
        start,
    })
}
