//! The totals before each declaration, and the limits that they exceed.

ghost use Rattle.std.specs.Prelude.{◌≡◌, ◌≤◌, ◌<◌, ◌^◌, ◌+◌, ◌*◌, ◌&&◌, nat_le, [], OnOk, IfOk, map};
ghost use Rattle.source.specs.declared.fault.Code.TheVariants.{LimitExceeded};
ghost use Rattle.syntax.specs.Views.{decl_of, member_of, struct_of, pool_of, item_of, items_of};
ghost use Rattle.syntax.specs.Trees.{struct, pool};
ghost use Rattle.resolution.specs.Limits.{CLASS_LIMIT, CELL_LIMIT, CALL_LIMIT};
ghost use Rattle.resolution.specs.Numbers.{is_lock, calls_in, calls_in_all, classes_of, cells_of};
ghost use Rattle.resolution.specs.Working.Findings.{found_in};
ghost use Rattle.resolution.specs.Working.FaultLists.{one_if, first_too_many, lock_count, member_counts, total_faults};
ghost use Rattle.types_symbols.specs.Working.Found.{AreAhead};
ghost use Rattle.types_symbols.specs.Working.Capped.{capped, totals_of, no_totals, added_by, both_totals, AreCapped, faults_by};
ghost use Rattle.types_symbols.specs.Working.Views.{decls_of};

use crate::declarations::Declarations;
use crate::members::name_of;
use resolution::finding::{Firsts, report_if};
use source::fault::Code;
use source::limits::{
    CALL_LIMIT, CELL_LIMIT, CLASS_LIMIT, MEMBER_LIMIT, OBJECT_LIMIT, SECTION_LIMIT, STRUCT_LIMIT,
    THREAD_LIMIT,
};
use std::alloc::{AllocError, Global};
use syntax::tree::{Decl, Item, Member, Pool, Struct};

/// The sums of what declarations add, each capped at one more than its limit.
#[derive(Clone, Copy)]
pub struct Totals {
    /// The lock classes: global locks, and lock fields of structs.
    pub classes: usize,
    /// The objects: the members of pools.
    pub objects: usize,
    /// The cells, of globals, elements and fields.
    pub cells: usize,
    /// The calls of threads, with repetitions.
    pub calls: usize,
}

/// A number, capped at one more than the limit.
fn cap(limit: usize, n: u64) -> usize
    requires { limit ≤ 2 ^ 32 }
    ensures { result ≡ capped limit n }
{
    n.min(limit as u64 + 1) as usize
}

/// A sum, capped at one more than the limit.
fn add(limit: usize, a: usize, b: usize) -> usize
    requires limit { limit ≤ 2 ^ 32 }
    requires first { a ≤ limit + 1 }
    requires second { b ≤ limit + 1 }
    ensures sum { result ≡ capped limit (a + b) }
    ensures within { result ≤ limit + 1 }
{
    (a + b).min(limit + 1)
}

/// A product, capped at one more than the limit.
fn times(limit: usize, a: u64, b: usize) -> usize
    requires { limit ≤ 2 ^ 30 }
    ensures product { result ≡ capped limit (a * b) }
    ensures within { result ≤ limit + 1 }
{
    let first = cap(limit, a);
    let second = cap(limit, b as u64);
    (first * second).min(limit + 1)
}

/// The lock classes of a struct.
fn locks_in(structure: &Struct) -> usize
    ensures { result ≡ capped CLASS_LIMIT (classes_of (struct (struct_of structure.now))) }
{
    let mut locks = 0;
    for m in &structure.members {
        if let Member::Lock(_) = m {
            locks = add(CLASS_LIMIT, locks, 1);
        }
    }
    locks
}

/// The number of calls of an item of a thread.
#[cycle(calls)]
fn calls_of_item(item: &Item) -> usize
    ensures calls { result ≡ capped CALL_LIMIT (calls_in (item_of item.now)) }
    ensures within { result ≤ CALL_LIMIT + 1 }
{
    match item {
        Item::Call(_) => 1,
        Item::Repeat(n, items) => times(CALL_LIMIT, n.value, calls_of_items(items)),
    }
}

/// The number of calls of a thread's items.
#[cycle(calls)]
fn calls_of_items(items: &[Item]) -> usize
    ensures calls { result ≡ capped CALL_LIMIT (calls_in_all (items_of items.now)) }
    ensures within { result ≤ CALL_LIMIT + 1 }
{
    let mut calls = 0;
    for item in items {
        calls = add(CALL_LIMIT, calls, calls_of_item(item));
    }
    calls
}

/// The cells of a pool.
fn cells_of_pool(decls: &Declarations, p: &Pool) -> usize
    ensures { result ≡ capped CELL_LIMIT (cells_of (decls_of decls.now) (pool (pool_of p.now))) }
{
    match decls.struct_of(&p.target) {
        Some((_, structure)) => times(CELL_LIMIT, p.length.value, structure.width()),
        None => 0,
    }
}

impl Totals {
    /// Zero of each.
    fn new() -> Totals
        ensures { result ≡ no_totals }
    {
        Totals {
            classes: 0,
            objects: 0,
            cells: 0,
            calls: 0,
        }
    }

    /// What a declaration adds.
    fn of(decls: &Declarations, d: &Decl) -> Totals
        ensures { result ≡ added_by (decls_of decls.now) (decl_of d.now) }
    {
        let mut totals = Totals::new();
        match d {
            Decl::Lock(_) => totals.classes = 1,
            Decl::Struct(structure) => totals.classes = locks_in(structure),
            Decl::Global(_) => totals.cells = 1,
            Decl::Array(array) => totals.cells = cap(CELL_LIMIT, array.length.value),
            Decl::Pool(pool) => {
                totals.objects = cap(OBJECT_LIMIT, pool.length.value);
                totals.cells = cells_of_pool(decls, pool);
            }
            Decl::Thread(thread) => totals.calls = calls_of_items(&thread.items),
            Decl::Init(_) | Decl::Atomic(_) | Decl::Helper(_) => {}
        }
        totals
    }

    /// The sum of both.
    fn with(self, more: Totals) -> Totals
        requires first { AreCapped self }
        requires second { AreCapped more }
        ensures sum { result ≡ both_totals self more }
        ensures within { AreCapped result }
    {
        Totals {
            classes: add(CLASS_LIMIT, self.classes, more.classes),
            objects: add(OBJECT_LIMIT, self.objects, more.objects),
            cells: add(CELL_LIMIT, self.cells, more.cells),
            calls: add(CALL_LIMIT, self.calls, more.calls),
        }
    }
}

/// Whether `own` more first exceed the limit, after `before`.
fn passes(limit: usize, before: usize, own: usize) -> bool
    requires limit { limit ≤ 2 ^ 32 }
    requires before { before ≤ limit + 1 }
    requires own { own ≤ limit + 1 }
    ensures { result ≡ first_too_many limit before own }
{
    before <= limit && limit < before + own
}

/// Notes the members that exceed the limit of members of a struct, or of lock classes.
#[tactic(auto, using(resolution::specs::Theory::Leasts::found_append))]
fn report_members(classes: usize, members: &[Member], firsts: &mut Firsts)
    requires { classes ≤ CLASS_LIMIT + 1 }
    ensures { firsts.new ≡ found_in firsts.old (member_counts classes 0 (map member_of members.now)) }
{
    let mut classes = classes;
    for (place, m) in members.iter().enumerate() {
        let start = name_of(m).start as usize;
        report_if(MEMBER_LIMIT <= place, Code::LimitExceeded, start, firsts);
        classes = report_lock(classes, m, start, firsts);
    }
}

/// Notes a lock field that exceeds the limit of lock classes, and returns the number of classes with it.
fn report_lock(classes: usize, m: &Member, start: usize, firsts: &mut Firsts) -> usize
    requires { classes < 2 ^ 63 }
    ensures classes { result ≡ classes + lock_count (is_lock (member_of m.now)) }
    ensures faults { firsts.new ≡ found_in firsts.old
        (one_if (is_lock (member_of m.now) && nat_le CLASS_LIMIT classes) LimitExceeded start) }
{
    match m {
        Member::Lock(_) => {
            report_if(CLASS_LIMIT <= classes, Code::LimitExceeded, start, firsts);
            classes + 1
        }
        Member::Final(_) | Member::Field(_) => classes,
    }
}

/// Notes a declaration that exceeds a limit.
#[tactic(auto, using(resolution::specs::Theory::Leasts::found_append))]
fn report_decl(number: usize, ahead: Totals, own: Totals, d: &Decl, firsts: &mut Firsts)
    requires ahead { AreCapped ahead }
    requires own { AreCapped own }
    ensures { firsts.new ≡ found_in firsts.old (faults_by number ahead own (decl_of d.now)) }
{
    let code = Code::LimitExceeded;
    match d {
        Decl::Lock(name) => report_if(
            CLASS_LIMIT <= ahead.classes,
            code,
            name.start as usize,
            firsts,
        ),
        Decl::Struct(s) => {
            report_if(STRUCT_LIMIT <= number, code, s.name.start as usize, firsts);
            report_members(ahead.classes, &s.members, firsts);
        }
        Decl::Global(v) => {
            let is_over = passes(CELL_LIMIT, ahead.cells, own.cells);
            report_if(is_over, code, v.name.start as usize, firsts);
        }
        Decl::Array(a) => {
            let is_over = passes(CELL_LIMIT, ahead.cells, own.cells);
            report_if(is_over, code, a.name.start as usize, firsts);
        }
        Decl::Pool(p) => {
            let are_over = passes(OBJECT_LIMIT, ahead.objects, own.objects);
            report_if(are_over, code, p.name.start as usize, firsts);
            let is_over = passes(CELL_LIMIT, ahead.cells, own.cells);
            report_if(is_over, code, p.name.start as usize, firsts);
        }
        Decl::Init(_) => {}
        Decl::Atomic(s) | Decl::Helper(s) => {
            report_if(SECTION_LIMIT <= number, code, s.name.start as usize, firsts);
        }
        Decl::Thread(t) => {
            report_if(THREAD_LIMIT <= number, code, t.name.start as usize, firsts);
            let is_over = passes(CALL_LIMIT, ahead.calls, own.calls);
            report_if(is_over, code, t.name.start as usize, firsts);
        }
    }
}

/// The totals before each declaration, and of all. Notes exceeded limits. The only error is a failed allocation.
pub(crate) fn check_totals(
    alloc: Global,
    decls: &Declarations,
    firsts: &mut Firsts,
) -> Result<(Vec<Totals>, Totals), AllocError>
    ensures totals { IfOk result (λ t. AreAhead (totals_of (decls_of decls.now)) (decls_of decls.now) t.0.items t.1) }
    ensures faults { OnOk result
        (firsts.new ≡ found_in firsts.old (total_faults (decls_of decls.now) [] (decls_of decls.now))) }
{
    let mut ahead = Vec::new(alloc);
    let mut totals = Totals::new();
    let items = decls.items();
    for (place, d) in items.iter().enumerate() {
        let own = Totals::of(decls, d);
        report_decl(decls.limited(place, d), totals, own, d, firsts);
        let Ok(()) = ahead.push(totals) else {
            drop(ahead);
            return Err(AllocError);
        };
        totals = totals.with(own);
    }
    Ok((ahead, totals))
}
