//! From words to a request.

ghost use Rattle.std.specs.Prelude.{◌≡◌, ◌↔◌, IsTrue, IfOk, IfErr, OnOk, [], map, option_map};
ghost use Rattle.clap.specs.Words.{fault_of, first_of, found_of, rows_of, subcommand_of, subcommand_rows_of};
ghost use Rattle.driver_words.specs.Commands.{autolock};
ghost use Rattle.driver_words.specs.Lines.{name_in, IsNumber, IsTurns, IsFlag, IsChoice, IsLooking, IsLine, color_named, IsLineOf, IsRefused, IsRequest, IsUnasked, IsUnaskedOf};
ghost use Rattle.driver_words.specs.Lines.{is_word, starts_with_letter, IsPrefix, HasPrefix};
ghost use Rattle.std.specs.Prelude.{codes};
ghost use Rattle.std.specs.Char.{is_ascii_alphanumeric};
ghost use Rattle.std.specs.List.{list_all};

use crate::codes::{code_named, is_code_word};
use crate::command::command;
use crate::line::{
    Alone, Beside, Color, DEFAULT_COUNT, DEFAULT_LENGTH, DEFAULT_SEED, DEFAULT_TURNS, Emission,
    Line, OutcomesOptions, ReplayOptions, Report, Request, RunOptions, ScheduleOptions,
};
use crate::unasked::Unasked;
use clap::{ArgMatches, Error};
use std::alloc::Global;

/// The value of a name, or the empty text without one.
fn name<'a>(matches: &ArgMatches<'a>, id: &str) -> &'a str
    ensures { result.now ≡ name_in id.now (rows_of (found_of matches.now)) }
{
    matches.get_str(id).unwrap_or("")
}

/// The value of a name, if it has one.
fn text<'a>(matches: &ArgMatches<'a>, id: &str) -> Option<&'a str>
    ensures { option_map (λ text. text.now) result ≡ first_of id.now (rows_of (found_of matches.now)) }
{
    matches.get_str(id)
}

/// The number of a name, or `otherwise` without one.
fn number(matches: &ArgMatches<'_>, id: &str, otherwise: u64) -> u64
    ensures { IsNumber id.now otherwise (rows_of (found_of matches.now)) result }
{
    matches.get_one::<u64>(id).unwrap_or(otherwise)
}

/// The number of a name, if it has one.
fn choice(matches: &ArgMatches<'_>, id: &str) -> Option<u64>
    ensures { IsChoice id.now (rows_of (found_of matches.now)) result }
{
    matches.get_one::<u64>(id)
}

/// The number of `--turns`.
fn turns(matches: &ArgMatches<'_>) -> u64
    ensures { IsTurns (rows_of (found_of matches.now)) result }
{
    number(matches, "turns", DEFAULT_TURNS)
}

/// Whether a flag is given.
fn flag(matches: &ArgMatches<'_>, id: &str) -> bool
    ensures { IsFlag id.now (rows_of (found_of matches.now)) result }
{
    matches.get_flag(id)
}

/// The options of `outcomes`.
fn looking<'a>(matches: &ArgMatches<'a>) -> OutcomesOptions<'a>
    ensures { IsLooking (rows_of (found_of matches.now)) result }
{
    OutcomesOptions {
        turns: turns(matches),
        count: number(matches, "count", DEFAULT_COUNT),
        seed: number(matches, "seed", DEFAULT_SEED),
        cells: text(matches, "cells"),
        answers: flag(matches, "answers"),
        full: flag(matches, "full"),
        expect: text(matches, "expect"),
    }
}

/// When colours are used, by the word for that.
fn color_named(word: &str) -> Option<Color>
    ensures { result ≡ color_named word.now }
{
    match word {
        "auto" => Some(Color::Auto),
        "always" => Some(Color::Always),
        "never" => Some(Color::Never),
        _ => None,
    }
}

/// The request of `explain`: a word that is written like a code is one, unless JSON is requested.
fn explaining<'a>(matches: &ArgMatches<'a>) -> Result<Request<'a>, Unasked>
    ensures request { IfOk result (IsRequest (codes "explain") (rows_of (found_of matches.now))) }
    ensures unasked { IfErr result (IsUnasked (codes "explain") (rows_of (found_of matches.now))) }
{
    let json = flag(matches, "json");
    let Some(color) = color_named(name(matches, "color")) else {
        return Err(Unasked::BadColor);
    };
    let word = name(matches, "FILE");
    if json || !is_code_word(word) {
        return Ok(Request::Alone(Alone::Explain { json, color }));
    }
    match code_named(word) {
        Some(code) => Ok(Request::Code(code)),
        None => Err(Unasked::NoCode),
    }
}

/// The request of a command.
fn request<'a>(command: &str, matches: &ArgMatches<'a>) -> Result<Request<'a>, Unasked>
    ensures request { IfOk result (IsRequest command.now (rows_of (found_of matches.now))) }
    ensures unasked { IfErr result (IsUnasked command.now (rows_of (found_of matches.now))) }
{
    let request = match command {
        "check" => Request::Alone(Alone::Report(Report::Check {
            source: flag(matches, "source"),
        })),
        "explain" => return explaining(matches),
        "format" => Request::Alone(Alone::Format),
        "order" => Request::Alone(Alone::Order),
        "listing" => Request::Alone(Alone::Report(Report::Listing {
            places: flag(matches, "places"),
        })),
        "serial" => Request::Alone(Alone::Report(Report::Serial {
            turns: turns(matches),
            changed: flag(matches, "changed"),
        })),
        "schedule" => Request::Alone(Alone::Report(Report::Schedule(ScheduleOptions {
            seed: number(matches, "seed", DEFAULT_SEED),
            length: number(matches, "length", DEFAULT_LENGTH),
            worst: flag(matches, "worst"),
        }))),
        "outcomes" => Request::Alone(Alone::Report(Report::Outcomes(looking(matches)))),
        "emit" => Request::Alone(Alone::Report(Report::Emit(Emission {
            header: flag(matches, "header"),
            prefix: name(matches, "prefix"),
            lines: flag(matches, "lines"),
            file: name(matches, "FILE"),
        }))),
        "run" => Request::Alone(Alone::Run(RunOptions {
            seed: choice(matches, "seed"),
            times: choice(matches, "times"),
        })),
        "simulate" => Request::Beside(Beside::Simulate, name(matches, "STEPS")),
        "trace" => {
            let sections = flag(matches, "sections");
            let all = flag(matches, "all");
            Request::Beside(Beside::Trace { sections, all }, name(matches, "STEPS"))
        }
        "replay" => {
            let judging = ReplayOptions {
                turns: turns(matches),
                why: flag(matches, "why"),
                open: flag(matches, "open"),
            };
            Request::Beside(Beside::Replay(judging), name(matches, "HISTORY"))
        }
        "lsp" => Request::Lsp,
        _ => return Err(Unasked::NoCommand),
    };
    Ok(request)
}

/// The line of a command.
fn line<'a>(command: &str, matches: &ArgMatches<'a>) -> Result<Line<'a>, Unasked>
    ensures line { IfOk result (IsLine command.now (rows_of (found_of matches.now))) }
    ensures unasked { IfErr result (IsUnasked command.now (rows_of (found_of matches.now))) }
{
    let file = name(matches, "FILE");
    Ok(Line {
        file,
        request: request(command, matches)?,
    })
}

/// Whether a text begins with a letter.
fn starts_with_letter(text: &[u8]) -> bool
    ensures { result ≡ starts_with_letter text.now }
{
    match text {
        [] => false,
        [first, ..] => first.is_ascii_alphabetic(),
    }
}

/// Whether a text is letters and digits.
fn is_alphanumeric(text: &[u8]) -> bool
    ensures { result ≡ list_all is_ascii_alphanumeric text.now }
{
    text.iter().all(
        |byte: &u8| -> bool
            ensures { result ≡ is_ascii_alphanumeric byte.now }
        { byte.is_ascii_alphanumeric() },
    )
}

/// Whether the text is a letter, then letters and digits, at most 32 in all.
fn is_word(prefix: &str) -> bool
    ensures { result ≡ is_word prefix.now }
{
    let bytes = prefix.as_bytes();
    starts_with_letter(bytes) && is_alphanumeric(bytes) && bytes.len() <= 32
}

/// Whether the names of a C text may begin with `prefix`: a letter, then letters and digits, at most 32 in all, and
/// neither `AL` nor `autolock`, which are the prefixes of the names that all such texts share.
pub fn is_prefix(prefix: &str) -> bool
    ensures { IsTrue result ↔ IsPrefix prefix.now }
{
    match prefix {
        "AL" | "autolock" => false,
        _ => is_word(prefix),
    }
}

/// Whether the prefix of a request is valid, if it has one.
fn has_prefix(request: &Request<'_>) -> bool
    ensures { IsTrue result ↔ HasPrefix request.now }
{
    match request {
        Request::Alone(Alone::Report(Report::Emit(emission))) => is_prefix(emission.prefix),
        _ => true,
    }
}

/// The line of the command that was matched.
fn line_met<'a>(matches: &ArgMatches<'a>) -> Result<Line<'a>, Unasked>
    ensures line { IfOk result (IsLineOf (subcommand_rows_of matches.now)) }
    ensures prefix { IfOk result (λ line. HasPrefix line.request) }
    ensures unasked { IfErr result (IsUnaskedOf (subcommand_rows_of matches.now)) }
{
    let Some((name, inner)) = matches.subcommand() else {
        return Err(Unasked::NoCommand);
    };
    let line = line(name, inner)?;
    if has_prefix(&line.request) {
        Ok(line)
    } else {
        Err(Unasked::BadPrefix)
    }
}

/// The request of the words of a command line, of which the first is the program's name.
///
/// # Errors
///
/// An error of `clap`: its kind is a request for help, a failed allocation, or words that are not a command line; its
/// text is for the user.
pub fn words<'a>(alloc: Global, words: &'a [&'a str]) -> Result<Line<'a>, Error>
    ensures line { IfOk result (IsLineOf (subcommand_of autolock (map (λ word. word.now) words.entry.now))) }
    ensures prefix { IfOk result (λ line. HasPrefix line.request) }
    ensures accepted { OnOk result (fault_of autolock (map (λ word. word.now) words.entry.now) ≡ []) }
    ensures refused { IfErr result (IsRefused (map (λ word. word.now) words.entry.now)) }
{
    let mut command = command(alloc)?;
    let matches = command.try_get_matches_from_mut(words)?;
    match line_met(&matches) {
        Ok(line) => Ok(line),
        Err(unasked) => Err(command.error(unasked.kind(), unasked.text())?),
    }
}
