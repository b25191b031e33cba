//! The cells that the names of an expectation stand for.

ghost use Rattle.std.specs.Prelude.{◌≡◌, ◌++◌, true, IfOk, OnOk, MatchOption, MatchResult, map};
ghost use Rattle.std.specs.List.{flat_map, list_all};
ghost use Rattle.report_runs.specs.ExpectationTexts.{part_of, said_of};
ghost use Rattle.report_runs.specs.ExpectationCells.{is_reference, has_reference, is_numeric, sum_names, names_of, addends_of, IsResolved, IsBadName, IsBadAmong};

use crate::cell_names::{is_known, is_named, numbers_of};
use crate::comparison::{Addend, Comparison, Quantity};
use crate::expectation::{Expectation, Item, Term};
use core_lang::typed::{Cell, Typed};
use core_lang::value::ValueType;
use source::memory::NoMemory;
use std::alloc::{AllocError, Global};

/// A name that does not stand for a sum.
#[derive(Clone, Copy, Debug, PartialEq, Eq)]
pub enum BadName<'t> {
    /// The name does not stand for a cell.
    Unknown(&'t str),
    /// A cell that the name stands for holds a reference.
    NoNumber(&'t str),
}

fn is_reference(cell: &Cell) -> bool
    ensures { result ≡ is_reference cell.now }
{
    match cell.value_type {
        ValueType::Integer => false,
        ValueType::Reference(_) => true,
    }
}

/// Whether a cell that `name` stands for holds a reference.
fn has_reference(alloc: Global, program: &Typed, name: &str) -> Result<bool, AllocError>
    ensures { IfOk result (λ has. has ≡ has_reference program.now name.now) }
{
    for cell in &program.cells {
        if is_named(alloc, program, name, cell)? && is_reference(cell) {
            return Ok(true);
        }
    }
    Ok(false)
}

/// Why `name` does not stand for a sum, if it doesn't.
fn bad_name<'t>(
    alloc: Global,
    program: &Typed,
    name: &'t str,
) -> Result<Option<BadName<'t>>, AllocError>
    ensures { IfOk result
        (λ bad. MatchOption bad (is_numeric program.now name.entry.now ≡ true) (IsBadName program.now name.entry.now)) }
{
    if !is_known(alloc, program, name)? {
        return Ok(Some(BadName::Unknown(name)));
    }
    if has_reference(alloc, program, name)? {
        return Ok(Some(BadName::NoNumber(name)));
    }
    Ok(None)
}

/// The first of `names` that does not stand for a sum, if one doesn't.
fn bad_among<'t>(
    alloc: Global,
    program: &Typed,
    names: &[&'t str],
) -> Result<Option<BadName<'t>>, AllocError>
    ensures { IfOk result (λ bad. MatchOption bad
        (list_all (is_numeric program.now) (map (λ name. name.now) names.now) ≡ true)
        (IsBadAmong program.now (map (λ name. name.now) names.now))) }
{
    for name in names {
        if let Some(bad) = bad_name(alloc, program, *name)? {
            return Ok(Some(bad));
        }
    }
    Ok(None)
}

/// Appends the names of a sum.
fn push_names<'t>(names: &mut Vec<&'t str>, terms: &[Term<'t>]) -> Result<(), AllocError>
    ensures { OnOk result (map (λ name. name.now) names.new.items
        ≡ map (λ name. name.now) names.old.items ++ sum_names (map part_of terms.now)) }
{
    for term in terms {
        match term.item {
            Item::Number(_) => {}
            Item::Name(name) => names.push(name)?,
        }
    }
    Ok(())
}

/// Appends the addends of `term`.
fn push_addends(
    alloc: Global,
    addends: &mut Vec<Addend>,
    program: &Typed,
    term: &Term<'_>,
) -> Result<(), AllocError>
    ensures { OnOk result (addends.new.items ≡ addends.old.items ++ addends_of program.now (part_of term.now)) }
{
    let sign = term.sign;
    match term.item {
        Item::Number(number) => {
            addends.push(Addend {
                sign,
                quantity: Quantity::Number(number),
            })?;
        }
        Item::Name(name) => {
            let numbers = numbers_of(alloc, program, &[name])?;
            for number in &numbers {
                addends.push(Addend {
                    sign,
                    quantity: Quantity::Cell(*number),
                })?;
            }
        }
    }
    Ok(())
}

/// The addends of a sum.
fn addends(alloc: Global, program: &Typed, terms: &[Term<'_>]) -> Result<Vec<Addend>, AllocError>
    ensures { IfOk result (λ addends. addends.items ≡ flat_map (addends_of program.now) (map part_of terms.now)) }
{
    let mut addends = Vec::new(alloc);
    for term in terms {
        push_addends(alloc, &mut addends, program, term)?;
    }
    Ok(addends)
}

impl<'t> Expectation<'t> {
    /// The names of the expectation, as they stand in its text. The one error is a refused growth.
    pub fn names(&self, alloc: Global) -> Result<Vec<&'t str>, AllocError>
        ensures { IfOk result (λ names. map (λ name. name.now) names.items ≡ names_of (said_of self.now)) }
    {
        let mut names = Vec::new(alloc);
        push_names(&mut names, &self.left)?;
        push_names(&mut names, &self.right)?;
        Ok(names)
    }

    /// The comparison over the cells of `program`: each name stands for the sum of its cells. The inner error is the
    /// first name that does not stand for a sum.
    ///
    /// # Errors
    ///
    /// `NoMemory`: a growth was refused.
    pub fn of_program(
        &self,
        alloc: Global,
        program: &Typed,
    ) -> Result<Result<Comparison, BadName<'t>>, NoMemory>
        ensures { IfOk result (λ resolved. MatchResult resolved
            (IsResolved program.now (said_of self.now)) (IsBadAmong program.now (names_of (said_of self.now)))) }
    {
        let names = self.names(alloc)?;
        if let Some(bad) = bad_among(alloc, program, &names)? {
            return Ok(Err(bad));
        }
        Ok(Ok(Comparison {
            left: addends(alloc, program, &self.left)?,
            relation: self.relation,
            right: addends(alloc, program, &self.right)?,
        }))
    }
}
