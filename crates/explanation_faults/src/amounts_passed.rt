//! The limit on objects, cells or calls that is exceeded.

ghost use Rattle.std.specs.Prelude.{◌≡◌, ◌<◌, ◌≤◌, [], Decides, IfOk, length, map};
ghost use Rattle.resolution.specs.Limits.{CALL_LIMIT};
ghost use Rattle.resolution.specs.Numbers.{calls_of, cells_of, fields_from, objects_of};
ghost use Rattle.resolution.specs.Working.Building.{few_calls};
ghost use Rattle.resolution.specs.Scopes.{declared};
ghost use Rattle.types_symbols.specs.{decls_of, members_seen};
ghost use Rattle.syntax.specs.Trees.{pool};
ghost use Rattle.syntax.specs.Views.{decl_of, member_of, pool_of};
ghost use Rattle.explanation_faults.specs.Working.AmountsFound.{amount_of, begins, ends_few, field_count, first_over, limit_of, most};
ghost use Rattle.explanation_faults.specs.AmountsPassed.{IsAmountPassed, IsFirstOver};
ghost use Rattle.explanation_faults.specs.Working.Values.{FoundWords};

use explanation_names::declared;
use resolution::finding::Firsts;
use source::limits;
use source::memory::NoMemory;
use syntax::tree::{Decl, Member, Pool};
use types_symbols::members::Structure;
use types_symbols::names::TableMaker;
use types_symbols::table::SymbolTable;

const OBJECT_LIMIT: u64 = limits::OBJECT_LIMIT as u64;

const CELL_LIMIT: u64 = limits::CELL_LIMIT as u64;

/// An amount of which declarations have some, and a program has only up to a limit.
#[derive(Clone, Copy)]
pub enum Amount {
    /// Objects.
    Objects,
    /// Cells.
    Cells,
}

/// Whether the name of a declaration begins at byte `at`.
fn begins_there(at: usize, decl: &Decl) -> bool
    ensures { result ≡ begins at (declared (decl_of decl.now)) }
{
    match declared(decl) {
        Some(name) => name.start as usize == at,
        None => false,
    }
}

/// 1 for a field that is the first member of its name, otherwise 0.
fn field_count(structure: &Structure, place: usize, member: &Member) -> u64
    ensures counted { result ≡ field_count (members_seen structure.now) place (member_of member.now) }
    ensures few { result ≤ 1 }
{
    let Member::Field(field) = member else {
        return 0;
    };
    match structure.place_of(field.name.text.as_str()) {
        Some(first) => { if first == place { 1 } else { 0 } }
        None => 0,
    }
}

/// The number of cells of an object of a struct.
fn width(structure: &Structure) -> u64
    ensures { result ≡ fields_from [] (members_seen structure.now) }
{
    let members = &structure.item().members;
    let mut width = 0;
    for (place, member) in members.iter().enumerate() {
        width += field_count(structure, place, member);
    }
    width
}

fn cells_of_pool(symbols: &SymbolTable, p: &Pool) -> u64
    ensures { result ≡ most (cells_of (decls_of symbols.now) (pool (pool_of p.now))) }
{
    match symbols.struct_of(&p.target) {
        Some((_, structure)) => p.length.value.saturating_mul(width(structure)),
        None => 0,
    }
}

fn objects_of(decl: &Decl) -> u64
    ensures { result ≡ objects_of (decl_of decl.now) }
{
    match decl {
        Decl::Pool(pool) => pool.length.value,
        Decl::Lock(_)
        | Decl::Struct(_)
        | Decl::Global(_)
        | Decl::Array(_)
        | Decl::Init(_)
        | Decl::Atomic(_)
        | Decl::Helper(_)
        | Decl::Thread(_) => 0,
    }
}

fn cells_of(symbols: &SymbolTable, decl: &Decl) -> u64
    ensures { result ≡ most (cells_of (decls_of symbols.now) (decl_of decl.now)) }
{
    match decl {
        Decl::Global(_) => 1,
        Decl::Array(array) => array.length.value,
        Decl::Pool(pool) => cells_of_pool(symbols, pool),
        Decl::Lock(_)
        | Decl::Struct(_)
        | Decl::Init(_)
        | Decl::Atomic(_)
        | Decl::Helper(_)
        | Decl::Thread(_) => 0,
    }
}

/// The amount that a declaration has.
fn amount_of(symbols: &SymbolTable, amount: Amount, decl: &Decl) -> u64
    ensures { result ≡ most (amount_of amount (decls_of symbols.now) (decl_of decl.now)) }
{
    match amount {
        Amount::Objects => objects_of(decl),
        Amount::Cells => cells_of(symbols, decl),
    }
}

/// The limit of the amount in a program.
fn limit_of(amount: Amount) -> u64
    ensures { result ≡ limit_of amount }
{
    match amount {
        Amount::Objects => OBJECT_LIMIT,
        Amount::Cells => CELL_LIMIT,
    }
}

/// Whether the first declaration with which the amount exceeds its limit begins at byte `at`.
fn is_first_over(symbols: &SymbolTable, amount: Amount, at: usize) -> bool
    ensures { result ≡ first_over (amount_of amount (decls_of symbols.now)) at (limit_of amount)
        (decls_of symbols.now) }
{
    let decls = symbols.items();
    let mut room = limit_of(amount);
    for decl in decls {
        let more = amount_of(symbols, amount, decl);
        if room < more {
            return begins_there(at, decl);
        }
        room -= more;
    }
    false
}

/// Whether the threads among `decls` make at most as many calls as the limit.
fn has_few_calls(maker: TableMaker, decls: &[Decl]) -> Result<bool, NoMemory>
    ensures { IfOk result (λ few. few ≡ few_calls (map decl_of decls.now)) }
{
    let mut firsts = Firsts::new();
    let symbols = SymbolTable::new(maker, decls, &mut firsts)?;
    Ok(symbols.has_few_calls())
}

/// Whether the calls first exceed their limit with the declaration at `place`.
fn ends_few_calls(maker: TableMaker, decls: &[Decl], place: usize) -> Result<bool, NoMemory>
    requires { place < length decls.now }
    ensures { IfOk result (λ ends. ends ≡ ends_few (map decl_of decls.now) place) }
{
    if has_few_calls(maker, &decls[..place + 1])? {
        return Ok(false);
    }
    has_few_calls(maker, &decls[..place])
}

/// Whether the thread with which the calls first exceed their limit begins at byte `at`.
fn are_calls_past(maker: TableMaker, decls: &[Decl], at: usize) -> Result<bool, NoMemory>
    ensures { IfOk result (λ is. Decides is (IsFirstOver calls_of (map decl_of decls.now) at CALL_LIMIT)) }
{
    for (place, decl) in decls.iter().enumerate() {
        if begins_there(at, decl) {
            if ends_few_calls(maker, decls, place)? {
                return Ok(true);
            }
        }
    }
    Ok(false)
}

/// The limit on objects, cells or calls that is exceeded at byte `at`.
pub fn amount_passed(symbols: &SymbolTable, at: usize) -> Result<Option<&'static str>, NoMemory>
    ensures { IfOk result (FoundWords (IsAmountPassed (decls_of symbols.now) at)) }
{
    if is_first_over(symbols, Amount::Objects, at) {
        return Ok(Some("a program has at most 65536 objects"));
    }
    if is_first_over(symbols, Amount::Cells, at) {
        return Ok(Some("a program has at most 262144 cells"));
    }
    if are_calls_past(symbols.maker(), symbols.items(), at)? {
        return Ok(Some(
            "the threads of a program make at most 100000 calls, each repeat multiplied out",
        ));
    }
    Ok(None)
}
