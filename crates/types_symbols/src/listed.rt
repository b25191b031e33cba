//! The lock classes that sections take whole, by their names.

ghost use Rattle.std.specs.Prelude.{◌≡◌, [], IfOk, OnOk, map};
ghost use Rattle.syntax.specs.Views.{ident, class_name_of};
ghost use Rattle.resolution.specs.Scopes.{the_member};
ghost use Rattle.resolution.specs.Working.TypedSections.{class_at, class_named};
ghost use Rattle.resolution.specs.Working.Findings.{found_in};
ghost use Rattle.resolution.specs.Working.FaultLists.{no_lock, no_lock_in, class_faults, listed_faults};
ghost use Rattle.types_symbols.specs.Working.Listed.{is_listed, IsListOf, IsListedWith};
ghost use Rattle.types_symbols.specs.Working.Views.{decls_of, decl_named, members_seen};

use crate::members::Structure;
use crate::names::TableMaker;
use crate::scope::{report_target, report_unfit_member};
use crate::table::SymbolTable;
use indexmap::IndexSet;
use resolution::finding::{Finding, Firsts, report, report_if};
use resolution::why::Why;
use source::fault::Code;
use source::keyed::KeyedState;
use std::alloc::AllocError;
use syntax::tree::{ClassName, Member, Name};

/// The class of the lock of this name, in the struct at `place`.
fn class_in(
    symbols: &SymbolTable,
    place: usize,
    structure: &Structure,
    lock: &Name,
) -> Option<usize>
    ensures { result ≡ class_at (decls_of symbols.now) place (members_seen structure.now)
        (the_member (members_seen structure.now) (ident lock.now).text) }
{
    let (at, m) = structure.find(lock.text.as_str())?;
    match m {
        Member::Lock(_) => {
            let number = structure.number(at, m);
            Some(symbols.class(place, number))
        }
        Member::Final(_) | Member::Field(_) => None,
    }
}

/// The lock class of this name. `None` if it does not name a lock field of a struct.
pub fn class_named(symbols: &SymbolTable, class: &ClassName) -> Option<usize>
    ensures { result ≡ class_named (decls_of symbols.now) (class_name_of class.now) }
{
    let (place, structure) = symbols.struct_of(&class.structure)?;
    class_in(symbols, place, structure, &class.lock)
}

/// Notes the fault of a name that is not that of a lock of the struct.
fn report_no_lock(symbols: &SymbolTable, structure: &Structure, lock: &Name, firsts: &mut Firsts)
    ensures { firsts.new ≡ found_in firsts.old
        (no_lock (decls_of symbols.now) lock.now.start
        (the_member (members_seen structure.now) (ident lock.now).text)) }
{
    let start = lock.start as usize;
    match structure.find(lock.text.as_str()) {
        None => report(Code::UnknownName, start, firsts),
        Some((_, Member::Lock(_))) => {}
        Some((_, m)) => {
            let found = Finding::new(Code::WrongType, start, Why::ListedMember);
            report_unfit_member(symbols, found, m, firsts);
        }
    }
}

/// Notes the fault of the lock's name of a listed class, unless its struct is unknown.
fn report_lock_name(symbols: &SymbolTable, class: &ClassName, firsts: &mut Firsts)
    ensures { firsts.new ≡ found_in firsts.old
        (no_lock_in (decls_of symbols.now) (decl_named symbols.now class.now.structure) (ident class.now.lock)) }
{
    let Some((_, structure)) = symbols.struct_of(&class.structure) else {
        return;
    };
    report_no_lock(symbols, structure, &class.lock, firsts);
}

/// The names of the lock classes before a place in a list, each as the names of its struct and of its lock.
#[derive(Drop)]
struct Listed<'t> {
    names: IndexSet<(&'t str, &'t str), KeyedState>,
}

impl<'t> Listed<'t> {
    /// No names.
    fn new(maker: TableMaker) -> Listed<'t>
        ensures { IsListOf [] result }
    {
        Listed {
            names: IndexSet::with_hasher(maker.alloc, maker.hashing),
        }
    }

    /// Adds the name of a class. Returns whether it was there before. The only error is a failed allocation.
    fn add(&mut self, class: &'t ClassName) -> Result<bool, AllocError>
        ensures was_there { IfOk result (λ b. b ≡ is_listed self.old (class_name_of class.now)) }
        ensures names { OnOk result (IsListedWith (class_name_of class.now) self.old self.new) }
    {
        let name = (class.structure.text.as_str(), class.lock.text.as_str());
        let is_new = self.names.insert(name)?;
        Ok(!is_new)
    }
}

/// Notes the faults of a listed lock class by itself: its struct or its lock is unknown or something else.
fn report_class(symbols: &SymbolTable, class: &ClassName, firsts: &mut Firsts)
    ensures { firsts.new ≡ found_in firsts.old (class_faults (decls_of symbols.now) (class_name_of class.now)) }
{
    report_target(symbols, &class.structure, firsts);
    report_lock_name(symbols, class, firsts);
}

/// Notes the faults of the lock classes that a section lists: a struct or a lock is unknown or something else, or a
/// class is listed twice. The only error is a failed allocation; a list of one class allocates nothing.
pub fn report_listed(
    symbols: &SymbolTable,
    listed: &[ClassName],
    firsts: &mut Firsts,
) -> Result<(), AllocError>
    ensures { OnOk result (firsts.new ≡ found_in firsts.old
        (listed_faults (decls_of symbols.now) [] (map class_name_of listed.now))) }
{
    if let [class] = listed {
        report_class(symbols, class, firsts);
        return Ok(());
    }
    let mut before = Listed::new(symbols.maker());
    for class in listed {
        report_class(symbols, class, firsts);
        let is_again = before.add(class)?;
        report_if(
            is_again,
            Code::DeclaredTwice,
            class.structure.start as usize,
            firsts,
        );
    }
    Ok(())
}
