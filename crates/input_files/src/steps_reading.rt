//! Reading a whole steps file.

ghost use Rattle.std.specs.Prelude.{◌≡◌, ◌<◌, ◌≤◌, ◌+◌, drop, length, OnOk};
ghost use Rattle.std.specs.List.{position_or_len};
ghost use Rattle.input_files.specs.Steps.{is_white, items_in, STEP_LIMIT, IfFault, Answers};
ghost use Rattle.input_files.specs.Working.StepsReading.{TakesPiece, IsFaultOfPiece};

use crate::item::Item;
use crate::steps_refusal::{StepsFault, StepsRefusal};
use crate::writing::{counted, item};
use core_lang::typed::Thread;
use std::alloc::Global;

fn is_white(byte: u8) -> bool
    ensures { result ≡ is_white byte }
{
    byte == b' ' || byte == b'\t' || byte == b'\r' || byte == b'\n'
}

/// The number of bytes before the first white byte.
#[tactic(auto, using(std::proofs::lemmas::List::Sums::position_or_len_is))]
fn item_len(bytes: &[u8]) -> usize
    ensures place { result ≡ position_or_len is_white bytes.now }
    ensures bound { result ≤ length bytes.now }
{
    for (i, byte) in bytes.iter().enumerate() {
        if is_white(*byte) {
            return i;
        }
    }
    bytes.len()
}

/// The bytes after the one at `place`.
fn after(bytes: &[u8], place: usize) -> &[u8]
    requires { place < length bytes.now }
    ensures { result.now ≡ drop (place + 1) bytes.now }
{
    &bytes[place + 1..]
}

/// The items read so far, and the number of steps that they count.
#[derive(Drop)]
struct Reader {
    items: Vec<Item>,
    steps: usize,
}

impl Reader {
    // Reads the next piece of a steps file for a program with these threads. A piece that is not empty is an item.
    fn read(&mut self, piece: &[u8], start: usize, threads: &[Thread]) -> Result<(), StepsRefusal>
        requires few { length threads.now ≤ u32.MAX }
        requires most { self.old.steps ≤ STEP_LIMIT }
        ensures ok { OnOk result (TakesPiece threads.now start piece.now self.old self.new) }
        ensures most { OnOk result (self.new.steps ≤ STEP_LIMIT) }
        ensures fault { IfFault result (IsFaultOfPiece threads.now start self.old.steps piece.now) }
    {
        if piece.is_empty() {
            return Ok(());
        }
        match item(piece, threads, start, self.steps) {
            Ok(item) => {
                self.items.push(item)?;
                self.steps += counted(item.until);
                Ok(())
            }
            Err(code) => Err(StepsRefusal::Fault(StepsFault { code, start })),
        }
    }
}

/// The items of a steps file, in order, for a program with these threads.
///
/// # Errors
///
/// The fault of the first faulty item, or out of memory.
pub fn read_items(alloc: Global, text: &[u8], threads: &[Thread]) -> Result<Vec<Item>, StepsRefusal>
    requires { length threads.now ≤ u32.MAX }
    ensures { Answers result (items_in threads.now text.now) }
{
    let mut reader = Reader {
        items: Vec::new(alloc),
        steps: 0,
    };
    let mut rest = text;
    let mut start = 0;
    'pieces: loop {
        let len = item_len(rest);
        match reader.read(&rest[..len], start, threads) {
            Ok(()) => {}
            Err(refusal) => return Err(refusal),
        }
        if len == rest.len() {
            let Reader { items, steps: _ } = reader;
            return Ok(items);
        }
        rest = after(rest, len);
        start += len + 1;
    }
}
