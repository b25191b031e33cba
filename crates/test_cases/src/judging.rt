//! The cases of a file.

use source::memory::NoMemory;
use std::alloc::Global;
use test_support::asked::{Asked, Engine};
use test_support::paragraph::{Paragraph, read_paragraph};
use test_support::repetition::written_out;
use test_support::saying::said_of;
use test_support::tally::Tally;
use test_support::told::Told;

/// The expected text of a case, with the pieces in `<<` and `>>` written out; unchanged if one of them can't be read.
fn wanted(alloc: Global, want: &str) -> Result<String, NoMemory> {
    match written_out(alloc, want)? {
        Some(want) => Ok(want),
        None => Ok(String::from_str(alloc, want)?),
    }
}

/// The answer for a case's text, with the text of `@head` before it.
fn said_behind(
    alloc: Global,
    asked: Asked<'_>,
    head: Option<&str>,
    text: &str,
) -> Result<String, NoMemory> {
    let mut whole = Told::new(alloc);
    if let Some(head) = head {
        whole.push_str(head);
        whole.push_str("\n");
    }
    whole.push_str(text);
    match written_out(alloc, whole.finish()?.as_str())? {
        Some(whole) => said_of(alloc, asked, whole.as_str()),
        None => Ok(String::from_str(
            alloc,
            "nothing, since what stands between << and >> can't be read",
        )?),
    }
}

/// Checks the cases in the text of the file of this name.
pub fn judge_text(alloc: Global, file: &str, text: &str) -> Result<Tally, NoMemory> {
    let mut tally = Tally::new(alloc);
    let mut asked = Asked::Engine(Engine::Check);
    let mut head = None;
    for paragraph in text.trim().split("\n\n") {
        match read_paragraph(paragraph) {
            Paragraph::Note => {}
            Paragraph::Ask(other) => asked = other,
            Paragraph::Head(other) => head = other,
            Paragraph::Case(text, want) => {
                let said = said_behind(alloc, asked, head, text)?;
                let want = wanted(alloc, want)?;
                tally.count(file, text, said.as_str(), want.as_str())?;
            }
            Paragraph::Unreadable => {
                tally.count(file, paragraph, "nothing, since this is no case", "a case")?;
            }
        }
    }
    tally.close(file)?;
    Ok(tally)
}
