//! A static library for C: what `check`, `explain --json` and `emit` answer for a text in memory. It serves other
//! languages that call C too. It opens no files, starts no threads, and keeps nothing from one call to the next.
//!
//! - [`autolock_check`]: the answer of `check`. [`autolock_explain`]: that of `explain --json`.
//! - [`autolock_emit`]: the answer of `emit`. [`autolock_emit_header`]: that of `emit --header`.
//!
//! `include/autolock.h` declares the functions for C, and says what a caller has to observe. `specs/Given.antt` defines what
//! a caller is given.
//!
//! How it is proved: the reader is a slice and the writers are vectors, which give their bytes, so what an engine
//! promises of them names the text of the caller and what it is handed, with no lemma of its own. Only that a prefix is
//! UTF-8, since its bytes are letters and digits, is shown by hand.
#![tactic(auto)]

mod answer;
mod asking;

ghost use Rattle.std.specs.Prelude.{◌≡◌, ◌≢◌, [], true, false};
ghost use Rattle.driver.specs.Answers.{TextAnswers};
ghost use Rattle.driver.specs.Checks.{IsCheckReport};
ghost use Rattle.driver.specs.Explanations.{ExplainAnswers};
ghost use Rattle.driver_words.specs.Lines.{IsPrefix};
ghost use Rattle.autolock_c.specs.Given.{EmitAnswers, IsGiven, IsNothing};

use answer::give;
use asking::{emitted, explained, reported};
use driver_words::{Color, Report};
use std::alloc::Global;

/// Writes the order in which the program of `text` acquires its locks, and the locks that it acquires before each
/// statement, as `check` does; or the line of the text's fault, with an empty file name.
///
/// `out` gets as much of that as fits, and `needed` the length of all of it, in bytes. Returns the exit status of the
/// command: 0 where the text is accepted, 1 where it has a fault, 4 where memory was refused: then `out` is unchanged,
/// and `needed` is 0. The fault of a text of more than 1,048,576 bytes says so.
#[unsafe(no_mangle)]
pub extern "C" fn autolock_check(
    alloc: Global,
    text: &[u8],
    out: &mut [u8],
    needed: &mut usize,
) -> u8
    ensures given { result ≢ 4 → IsGiven (TextAnswers (IsCheckReport false text.now) [] text.now)
        result out.old out.new needed.new }
    ensures memory { result ≡ 4 → IsNothing out.old out.new needed.new }
{
    let report = Report::Check { source: false };
    give(&reported(alloc, report, text), out, needed)
}

/// Explains the fault of the program of `text`, with its place in the text and a suggested fix; or reports that it is
/// accepted, with the order of its lock classes and warnings: a JSON object in one line, as `explain --json` does,
/// whose `file` is empty.
///
/// Writes to `out` and `needed`, and returns, as [`autolock_check`] does.
#[unsafe(no_mangle)]
pub extern "C" fn autolock_explain(
    alloc: Global,
    text: &[u8],
    out: &mut [u8],
    needed: &mut usize,
) -> u8
    ensures given { result ≢ 4 → IsGiven (ExplainAnswers true Color.Never [] text.now)
        result out.old out.new needed.new }
    ensures memory { result ≡ 4 → IsNothing out.old out.new needed.new }
{
    give(&explained(alloc, text), out, needed)
}

/// Writes the sections of the program of `text` in C, with their locks placed, as `emit --prefix PREFIX` does; or the
/// line of the text's fault, with an empty file name.
///
/// Writes to `out` and `needed`, and returns, as [`autolock_check`] does, or returns 2 where names of C may not begin
/// with `prefix`: it has to be a letter, then letters and digits, at most 32 in all, and neither `AL` nor `autolock`.
/// Then `out` is unchanged, and `needed` is 0.
#[unsafe(no_mangle)]
pub extern "C" fn autolock_emit(
    alloc: Global,
    text: &[u8],
    prefix: &[u8],
    out: &mut [u8],
    needed: &mut usize,
) -> u8
    ensures given { IsPrefix prefix.now → result ≢ 4 → IsGiven (EmitAnswers false prefix.now text.now)
        result out.old out.new needed.new }
    ensures memory { result ≡ 4 → IsNothing out.old out.new needed.new }
    ensures bad_prefix { (IsPrefix prefix.now → ⊥) → (result ≡ 2) × IsNothing out.old out.new needed.new }
{
    give(&emitted(alloc, false, prefix, text), out, needed)
}

/// Writes only the header of that C text, as `emit --header --prefix PREFIX` does. Writes to `out` and `needed`, and
/// returns, as [`autolock_emit`] does.
#[unsafe(no_mangle)]
pub extern "C" fn autolock_emit_header(
    alloc: Global,
    text: &[u8],
    prefix: &[u8],
    out: &mut [u8],
    needed: &mut usize,
) -> u8
    ensures given { IsPrefix prefix.now → result ≢ 4 → IsGiven (EmitAnswers true prefix.now text.now)
        result out.old out.new needed.new }
    ensures memory { result ≡ 4 → IsNothing out.old out.new needed.new }
    ensures bad_prefix { (IsPrefix prefix.now → ⊥) → (result ≡ 2) × IsNothing out.old out.new needed.new }
{
    give(&emitted(alloc, true, prefix, text), out, needed)
}
