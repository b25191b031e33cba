//! The notation in texts of cases for something long, or for what can't be seen: `<<N|PIECE>>` and `<<N>>`.

use std::alloc::{AllocError, Global};

/// Appends the letter, or the number in place of a `#`.
fn push_letter(whole: &mut String, letter: char, number: u64) -> Result<(), AllocError> {
    if letter == '#' {
        write!(whole, "{number}")
    } else {
        whole.push(letter)
    }
}

/// Appends the given number of copies of the piece, each `#` in it replaced by the number of the copy, from 0.
fn push_copies(whole: &mut String, times: u64, piece: &str) -> Result<(), AllocError> {
    for number in 0..times {
        for letter in piece.chars() {
            push_letter(whole, letter, number)?;
        }
    }
    Ok(())
}

/// Appends what `<<INSIDE>>` stands for; returns whether it stands for anything.
fn push_inside(whole: &mut String, inside: &str) -> Result<bool, AllocError> {
    match inside.split_once('|') {
        Some((times, piece)) => match times.parse::<u64>() {
            Ok(times) => push_copies(whole, times, piece)?,
            Err(_) => return Ok(false),
        },
        None => match inside.parse::<u32>().ok().and_then(char::from_u32) {
            Some(letter) => whole.push(letter)?,
            None => return Ok(false),
        },
    }
    Ok(true)
}

/// Appends what follows a `<<`; returns whether that can be read.
fn push_piece(whole: &mut String, piece: &str) -> Result<bool, AllocError> {
    let Some((inside, behind)) = piece.split_once(">>") else {
        return Ok(false);
    };
    if !push_inside(whole, inside)? {
        return Ok(false);
    }
    whole.push_str(behind)?;
    Ok(true)
}

/// Appends the text with all that stands between `<<` and `>>` expanded; returns whether all of it can be read.
fn push_written_out(whole: &mut String, text: &str) -> Result<bool, AllocError> {
    let mut pieces = text.split("<<");
    if let Some(first) = pieces.next() {
        whole.push_str(first)?;
    }
    for piece in pieces {
        if !push_piece(whole, piece)? {
            return Ok(false);
        }
    }
    Ok(true)
}

/// The text with all that stands between `<<` and `>>` expanded; none, where a part of it can't be read.
pub fn written_out(alloc: Global, text: &str) -> Result<Option<String>, AllocError> {
    let mut whole = String::new(alloc);
    if !push_written_out(&mut whole, text)? {
        return Ok(None);
    }
    Ok(Some(whole))
}
