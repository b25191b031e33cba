#![tactic(auto)]
//! The program that checks files of cases, each a text with its expected answer. The lexer, the parser, the passes of
//! names and types, of lock paths and of points, and the engines give the answers. The program's words are the names of
//! files of cases.
//!
//! A file is paragraphs, separated by one empty line:
//!
//! - A paragraph that begins with `#` is a heading or a note, and is skipped.
//! - `@ask WORD` names the pass or engine that answers the texts below it:
//!   - `check`, as at the head of a file: the first line that the engine `check` writes, which is `accepted`.
//!   - `lists`: what `check` writes.
//!   - `graph`: what `order` writes.
//!   - `listing`: what `listing` writes.
//!   - `serial N`: what `serial` writes within N turns of each loop.
//!   - `outcomes`: what `outcomes` writes, for at most 1,000 orders and within 1,000 turns of each loop.
//!   - `simulate STEPS`: what `simulate` writes after these steps, in a file called `T`. STEPS may be empty.
//!   - `tree`: `tree`, or the line of the fault of the lexer or the parser.
//!   - `print`: the tree printed, without the last line feed.
//!   - `again`: `same`, or what differs when the tree is printed and read again: a fault, what is printed then, or the
//!     tokens.
//!   - `paths`: for each section a line with its name, `:` and its lock paths, and a line for each of its points, with
//!     its line and column and the lock paths that it uses. If the text has a fault, the line of the fault.
//!   - `points`: for each section a line with its name, `:` and the pairs of its points, counted from 0, of which one
//!     follows the other, and a line for each of its points, with its line and column, the lock paths in scope there,
//!     those used at earlier points, and those used at later points. If the text has a fault, the line of the fault.
//!   - `order`: a line with `order:` and the lock classes by rising rank. For each section follow a line with its name
//!     and `:`, and a line for each of its points, with its line and column, the lock paths wanted there and those that
//!     are surely held. If the text has a fault, the line of the fault.
//!   - `tokens`: each token with the bytes where it starts and ends, and `;`, or the line of the fault of the lexer.
//!
//!   An engine is run over the text as a file called `F`. If it ends with status 0 and reports nothing, its answer is
//!   what it writes, without the last line feed. If it ends with status 1 and writes nothing, the answer is the line
//!   that it reports. Otherwise it is `status`, its number, and what it writes and reports, each as `Debug` shows it.
//! - `@head` alone on a line, with lines below it: these lines and a line feed precede each text below. Without lines below
//!   it, nothing precedes the texts from there on.
//! - Any other paragraph is a case: a text, then a line that begins with `=> ` and has the expected answer, which may
//!   go on over the paragraph's further lines. The text ends before the line feed that ends its last line. With nothing
//!   before `=> ` it is empty.
//!
//! In texts, in what precedes them and in expected answers, `<<N|PIECE>>` stands for PIECE written N times, with each
//! `#` in it replaced by the number of the copy, counted from 0. `<<N>>` stands for the character of that number, as
//! `<<10>>` for a line feed.
//!
//! For each case with another answer, the program prints the file's name, the case's text, the answer found and the one
//! expected, and for each file the number of its cases and of its failures. A paragraph that is none of the above
//! counts as a failure.
//!
//! It exits with 0 if all cases pass, 1 if some fail, 3 if reading or writing failed, 4 if memory ran out.

mod judging;

use crate::judging::judge_text;
use std::process::ExitCode;
use std::{env, fs};
use test_support::ending::{CutShort, Ending};

/// Checks the cases of the file of this name, and prints the result.
fn judge_file(rt: &HostRuntime, name: &str) -> Result<Ending, CutShort> {
    let text = fs::read_to_string(rt, name)?;
    let tally = judge_text(rt.alloc(), name, text.as_str())?;
    print!(rt; "{}", tally.report)?;
    Ok(tally.ending())
}

/// Checks each file that the process's words name, the first of which is the program's own name. It stops after a file
/// that could not be checked.
fn judge_files(rt: &HostRuntime) -> Result<Ending, CutShort> {
    let mut ending = Ending::AllAsWanted;
    for name in env::args(rt)?.skip(1) {
        match judge_file(rt, name.as_str()) {
            Ok(other) => ending = ending.and(other),
            Err(stop) => {
                let _ = eprintln!(rt; "cases: {name}: {stop}");
                return Err(stop);
            }
        }
    }
    Ok(ending)
}

fn main(rt: HostRuntime) -> ExitCode {
    let ending = match judge_files(&rt) {
        Ok(ending) => ending,
        Err(stop) => stop.ending(),
    };
    ExitCode::from(ending.code())
}
