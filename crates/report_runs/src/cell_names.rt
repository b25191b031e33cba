//! The cells that a name stands for.

ghost use Rattle.std.specs.Prelude.{◌≡◌, true, Some, IfOk, MatchResult, MatchOption, map, option_map};
ghost use Rattle.std.specs.List.{list_all, list_any};
ghost use Rattle.report_runs.specs.Names.{goes_on, is_named, is_known, first_unknown, numbers_from, names_in, names_together, AreAsked, IsUnknownIn};

use core_lang::typed::{Cell, Typed};
use outcomes::outcome::Cells;
use report::pieces::push_owner;
use source::memory::NoMemory;
use std::alloc::{AllocError, Global};

/// Whether `text` is `name`, or `name` followed by an index or a field.
fn goes_on(name: &[u8], text: &[u8]) -> bool
    ensures { result ≡ goes_on name.now text.now }
{
    let mut rest = text;
    for byte in name {
        let [first, others @ ..] = rest else {
            return false;
        };
        if *byte != *first {
            return false;
        }
        rest = others;
    }
    match rest {
        [] => true,
        [next, ..] => *next == b'[' || *next == b'.',
    }
}

/// Whether `name` stands for `cell`. The one error is a refused growth.
pub fn is_named(alloc: Global, program: &Typed, name: &str, cell: &Cell) -> Result<bool, AllocError>
    ensures { IfOk result (λ is. is ≡ is_named program.now name.now cell.now) }
{
    let mut text = String::new(alloc);
    push_owner(&mut text, program, cell.owner)?;
    Ok(goes_on(name.as_bytes(), text.as_bytes()))
}

/// Whether `name` stands for some cell. The one error is a refused growth.
pub fn is_known(alloc: Global, program: &Typed, name: &str) -> Result<bool, AllocError>
    ensures { IfOk result (λ is. is ≡ is_known program.now name.now) }
{
    for cell in &program.cells {
        if is_named(alloc, program, name, cell)? {
            return Ok(true);
        }
    }
    Ok(false)
}

/// Whether one of `names` stands for `cell`.
fn is_asked(alloc: Global, program: &Typed, names: &[&str], cell: &Cell) -> Result<bool, AllocError>
    ensures { IfOk result
        (λ is. is ≡ list_any (λ name. is_named program.now name cell.now) (map (λ name. name.now) names.now)) }
{
    for name in names {
        if is_named(alloc, program, name, cell)? {
            return Ok(true);
        }
    }
    Ok(false)
}

/// The first of `names` that does not stand for a cell, if one doesn't.
fn unknown<'n>(
    alloc: Global,
    program: &Typed,
    names: &[&'n str],
) -> Result<Option<&'n str>, AllocError>
    ensures { IfOk result (λ name. MatchOption name
        (list_all (is_known program.now) (map (λ name. name.now) names.now) ≡ true)
        (λ name. first_unknown program.now (map (λ name. name.now) names.now) ≡ Some name.now)) }
{
    for name in names {
        if !is_known(alloc, program, name)? {
            return Ok(Some(*name));
        }
    }
    Ok(None)
}

/// The numbers of the cells that `names` stand for, each once, in order. The one error is a refused growth.
pub fn numbers_of(alloc: Global, program: &Typed, names: &[&str]) -> Result<Vec<usize>, AllocError>
    ensures { IfOk result (λ numbers. numbers.items
        ≡ numbers_from program.now (map (λ name. name.now) names.now) 0 program.now.cells.items) }
{
    let mut numbers = Vec::new(alloc);
    for (number, cell) in program.cells.iter().enumerate() {
        if is_asked(alloc, program, names, cell)? {
            numbers.push(number)?;
        }
    }
    Ok(numbers)
}

/// The names in `text`, which are separated by commas.
fn split<'t>(alloc: Global, text: &'t str) -> Result<Vec<&'t str>, AllocError>
    ensures { IfOk result (λ names. map (λ name. name.now) names.items ≡ names_in text.entry.now) }
{
    text.split(',').collect(alloc)
}

/// The names in `text` and in `more`, if either is given.
fn names_together<'t>(
    alloc: Global,
    text: Option<&'t str>,
    more: Option<&[&'t str]>,
) -> Result<Option<Vec<&'t str>>, AllocError>
    ensures { IfOk result (λ names. option_map (λ names. map (λ name. name.now) names.items) names
        ≡ names_together (option_map (λ text. text.now) text.entry)
        (option_map (λ more. map (λ name. name.now) more.now) more.entry)) }
{
    match (text, more) {
        (None, None) => Ok(None),
        (Some(text), None) => Ok(Some(split(alloc, text)?)),
        (None, Some(more)) => Ok(Some(Vec::from_slice(alloc, more)?)),
        (Some(text), Some(more)) => {
            let mut names = split(alloc, text)?;
            names.extend_from_slice(more)?;
            Ok(Some(names))
        }
    }
}

/// The cells that are asked for by the names in `text`, which are separated by commas, and by those in `more`: the
/// cells of each name, or all cells where neither is given. The inner error is the first name that does not stand for a
/// cell.
///
/// # Errors
///
/// `NoMemory`: a growth was refused.
pub fn asked_cells<'t>(
    alloc: Global,
    program: &Typed,
    text: Option<&'t str>,
    more: Option<&[&'t str]>,
) -> Result<Result<Cells, &'t str>, NoMemory>
    ensures { IfOk result (λ asked. let names =
        names_together (option_map (λ text. text.now) text.entry)
        (option_map (λ more. map (λ name. name.now) more.now) more.entry) in
        MatchResult asked (AreAsked program.now names) (λ name. IsUnknownIn program.now names name.now)) }
{
    let Some(names) = names_together(alloc, text, more)? else {
        return Ok(Ok(Cells::Every));
    };
    if let Some(name) = unknown(alloc, program, &names)? {
        return Ok(Err(name));
    }
    let numbers = numbers_of(alloc, program, &names)?;
    Ok(Ok(Cells::These(numbers)))
}
