//! Threads and their calls.

ghost use Rattle.std.specs.Prelude.{◌≡◌, ◌≤◌, ◌+◌, ◌++◌, OnOk, IfOk, option_map, is_some, length, take, drop};
ghost use Rattle.syntax.specs.Views.{call_of as call_view, item_of, items_of};
ghost use Rattle.syntax.specs.Trees.{call};
ghost use Rattle.resolution.specs.CoreViews.{core_call};
ghost use Rattle.resolution.specs.Tables.{copies};
ghost use Rattle.resolution.specs.Working.Building.{typed_item, typed_items, typed_calls};
ghost use Rattle.resolution.specs.Working.Findings.{found_in};
ghost use Rattle.resolution.specs.Working.FaultLists.{item_faults, items_faults};
ghost use Rattle.types.specs.Working.Calls.{resolved_call, resolved_calls};
ghost use Rattle.types.specs.Working.ConstantValues.{calls_in, cores, Adds};
ghost use Rattle.types_symbols.specs.{decls_of};

use crate::constant::{are_typed, report_arguments, typed_arguments};
use core_lang::typed::Call;
use resolution::finding::{Finding, Firsts, report, report_found};
use resolution::why::{Role, Why};
use source::fault::Code;
use std::alloc::{AllocError, Global};
use syntax::tree;
use syntax::tree::{Decl, Item};
use types_symbols::scope::{ResolvedName, misnamed, report_unfit};
use types_symbols::table::SymbolTable;

/// Notes the faults of a call.
fn report_call(symbols: &SymbolTable, c: &tree::Call, firsts: &mut Firsts)
    ensures { firsts.new ≡ found_in firsts.old (item_faults (decls_of symbols.now) (call (call_view c.now))) }
{
    let start = c.section.start as usize;
    match symbols.find(c.section.text.as_str()) {
        Some((_, Decl::Atomic(section))) => {
            if c.arguments.len() == section.params.len() {
                report_arguments(symbols, &section.params, &c.arguments, firsts);
            } else {
                let why = Why::Counted(section.params.len(), c.arguments.len());
                report_found(Finding::new(Code::WrongArgumentCount, start, why), firsts);
            }
        }
        Some((place, d)) => {
            let meant = ResolvedName::Decl(place, d);
            let found = misnamed(Code::WrongType, Role::Section, start, meant);
            report_unfit(symbols, found, meant, firsts);
        }
        None => report(Code::UnknownName, start, firsts),
    }
}

/// Notes the faults of an item of a thread.
#[cycle(faults)]
fn report_item(symbols: &SymbolTable, item: &Item, firsts: &mut Firsts)
    ensures { firsts.new ≡ found_in firsts.old (item_faults (decls_of symbols.now) (item_of item.now)) }
{
    match item {
        Item::Call(c) => report_call(symbols, c, firsts),
        Item::Repeat(_, items) => report_items(symbols, items, firsts),
    }
}

/// Notes the faults of a thread's items.
#[cycle(faults)]
#[tactic(auto, using(resolution::specs::Theory::Leasts::found_append))]
pub fn report_items(symbols: &SymbolTable, items: &[Item], firsts: &mut Firsts)
    ensures { firsts.new ≡ found_in firsts.old (items_faults (decls_of symbols.now) (items_of items.now)) }
{
    for item in items {
        report_item(symbols, item, firsts);
    }
}

/// Whether a call has no fault.
fn is_typed_call(symbols: &SymbolTable, c: &tree::Call) -> bool
    ensures { result ≡ is_some (typed_item (decls_of symbols.now) (call (call_view c.now))) }
{
    match symbols.find(c.section.text.as_str()) {
        Some((_, Decl::Atomic(section))) => are_typed(symbols, &section.params, &c.arguments),
        _ => false,
    }
}

/// Whether an item has no fault.
#[cycle(are)]
fn is_typed(symbols: &SymbolTable, item: &Item) -> bool
    ensures { result ≡ is_some (typed_item (decls_of symbols.now) (item_of item.now)) }
{
    match item {
        Item::Call(c) => is_typed_call(symbols, c),
        Item::Repeat(_, items) => all_typed(symbols, items),
    }
}

/// Whether a thread's items have no fault.
#[cycle(are)]
fn all_typed(symbols: &SymbolTable, items: &[Item]) -> bool
    ensures { result ≡ is_some (typed_items (decls_of symbols.now) (items_of items.now)) }
{
    for item in items {
        if !is_typed(symbols, item) {
            return false;
        }
    }
    true
}

/// A call, resolved, if it has no fault.
fn typed_call(
    alloc: Global,
    symbols: &SymbolTable,
    c: &tree::Call,
) -> Result<Option<Call>, AllocError>
    ensures { IfOk result (λ r. option_map core_call r ≡ resolved_call (decls_of symbols.now) (call_view c.now)) }
{
    let Some((place, d)) = symbols.find(c.section.text.as_str()) else {
        return Ok(None);
    };
    let section = symbols.number(place, d);
    match d {
        Decl::Atomic(s) => match typed_arguments(alloc, symbols, &s.params, &c.arguments)? {
            Some(arguments) => Ok(Some(Call { section, arguments })),
            None => Ok(None),
        },
        _ => Ok(None),
    }
}

/// Adds a call, resolved, if it has no fault. Returns whether it has none.
fn add_call(
    alloc: Global,
    symbols: &SymbolTable,
    c: &tree::Call,
    calls: &mut Vec<Call>,
) -> Result<bool, AllocError>
    ensures { IfOk result (λ right. Adds right calls.old.items calls.new.items
        (resolved_calls (decls_of symbols.now) (call_view c.now))) }
{
    match typed_call(alloc, symbols, c)? {
        Some(call) => {
            calls.push(call)?;
            Ok(true)
        }
        None => Ok(false),
    }
}

/// Adds a copy of `count` calls from `from` on.
fn add_again(calls: &mut Vec<Call>, from: usize, count: usize) -> Result<(), AllocError>
    requires { from + count ≤ length calls.old.items }
    ensures { OnOk result
        (cores calls.new.items ≡ cores calls.old.items ++ take count (drop from (cores calls.old.items))) }
{
    for at in 0..count {
        let call = calls[from + at].clone()?;
        calls.push(call)?;
    }
    Ok(())
}

/// Adds copies of the calls from `from` on, the given number of times.
fn add_copies(calls: &mut Vec<Call>, from: usize, times: u64) -> Result<(), AllocError>
    requires { from ≤ length calls.old.items }
    ensures { OnOk result
        (cores calls.new.items ≡ cores calls.old.items ++ copies times (drop from (cores calls.old.items))) }
{
    let count = calls.len() - from;
    if count == 0 {
        return Ok(());
    }
    for turn in 0..times {
        add_again(calls, from, count)?;
    }
    Ok(())
}

/// Adds the calls of an item, if it has no fault. An item that is repeated no times adds none. Returns whether it has
/// no fault.
#[cycle(typed)]
fn add_item(
    alloc: Global,
    symbols: &SymbolTable,
    item: &Item,
    calls: &mut Vec<Call>,
) -> Result<bool, AllocError>
    ensures { IfOk result
        (λ right. Adds right calls.old.items calls.new.items (typed_item (decls_of symbols.now) (item_of item.now))) }
{
    match item {
        Item::Call(c) => add_call(alloc, symbols, c, calls),
        Item::Repeat(n, items) => {
            if n.value == 0 {
                return Ok(all_typed(symbols, items));
            }
            let from = calls.len();
            if !add_items(alloc, symbols, items, calls)? {
                return Ok(false);
            }
            add_copies(calls, from, n.value - 1)?;
            Ok(true)
        }
    }
}

/// Adds the calls of a thread's items, if they have no fault. Returns whether they have none.
#[cycle(typed)]
fn add_items(
    alloc: Global,
    symbols: &SymbolTable,
    items: &[Item],
    calls: &mut Vec<Call>,
) -> Result<bool, AllocError>
    ensures { IfOk result (λ right. Adds right calls.old.items calls.new.items
        (typed_items (decls_of symbols.now) (items_of items.now))) }
{
    for item in items {
        if !add_item(alloc, symbols, item, calls)? {
            return Ok(false);
        }
    }
    Ok(true)
}

/// The calls of a thread, if all threads together keep the limit of calls.
pub fn typed_calls(
    alloc: Global,
    symbols: &SymbolTable,
    items: &[Item],
) -> Result<Option<Vec<Call>>, AllocError>
    ensures { IfOk result (λ r. calls_in r ≡ typed_calls (decls_of symbols.now) (items_of items.now)) }
{
    if !symbols.has_few_calls() {
        return Ok(None);
    }
    let mut calls = Vec::new(alloc);
    if add_items(alloc, symbols, items, &mut calls)? {
        Ok(Some(calls))
    } else {
        Ok(None)
    }
}
