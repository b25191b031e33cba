//! Whole programs.

ghost use Rattle.std.specs.Prelude.{◌≡◌, OnOk, IfOk, IfErr, option_map, slice_get, Some};
ghost use Rattle.syntax.specs.Trees.{pool, struct};
ghost use Rattle.syntax.specs.Views.{array_of, decl_of, items_of, pool_of, section_of, struct_of, thread_of, tree_of, variable_of};
ghost use Rattle.syntax.specs.Returns.{ReturnsRight};
ghost use Rattle.core_lang.specs.WellFormed.{IsChecked, IsWellFormed};
ghost use Rattle.resolution.specs.CoreViews.{core_of};
ghost use Rattle.resolution.specs.Tables.{nothing_yet};
ghost use Rattle.resolution.specs.Working.Building.{resolved_from};
ghost use Rattle.resolution.specs.Limits.{section_limits, helper_limits};
ghost use Rattle.resolution.specs.Resolved.{Resolves};
ghost use Rattle.resolution.specs.Faults.{IsFault, IsRefusal, HasNoFault};
ghost use Rattle.resolution.specs.Working.Laws.{DeclaresNoHelper, the_firsts};
ghost use Rattle.source.specs.Mistakes.{IsLeastOf};
ghost use Rattle.resolution.specs.Working.Findings.{found_in};
ghost use Rattle.resolution.specs.Working.FaultLists.{global_faults, array_faults, section_faults, decl_faults, each_faults, items_faults};
ghost use Rattle.types_symbols.specs.{decls_of};
ghost use Rattle.types.specs.Working.Grown.{built};
ghost use Rattle.types.specs.Working.Whole.{known, judged_faults, extended_if, global_if, array_if, section_if, helper_if, thread_if};

use crate::calls::report_calls;
use crate::constant::report_opening;
use crate::grown::{Builder, ProgramBuilder, add_helper, add_lock, add_section};
use crate::initial::report_init;
use crate::pool::report_missing;
use crate::thread::{report_items, typed_calls};
use core_lang::shape::Shape;
use core_lang::typed::Typed;
use core_lang::{shape, typed};
use resolution::finding::Firsts;
use resolution::laws;
use source::fault::{Fault, Refusal};
use source::memory::NoMemory;
use std::alloc::{AllocError, Global};
use syntax::tree::{Array, Decl, Pool, Section, Thread, Tree, Variable};
use types_bodies::section::{check_helper, check_section};
use types_bodies::wanted::want;
use types_symbols::members::Structure;
use types_symbols::names::TableMaker;
use types_symbols::report_lock;
use types_symbols::scope::{report_target, report_type, type_outside};
use types_symbols::table::SymbolTable;

/// Visits the declarations of a program: notes the faults of each, and builds the program as long as it has none.
#[derive(Clone, Copy)]
struct Judge<'a> {
    builder: Builder<'a>,
}

impl<'a> Judge<'a> {
    // Checks the struct at this place.
    #[tactic(auto, using(resolution::specs::Theory::Leasts::found_append))]
    fn check_struct(
        &self,
        place: usize,
        table: &'a Structure<'a>,
        grown: &mut ProgramBuilder,
        firsts: &mut Firsts,
    ) -> Result<(), AllocError>
        ensures value { OnOk result
            (built grown.new ≡ extended_if (known self.now) place (built grown.old) (struct (struct_of table.now))) }
        ensures faults { OnOk result
            (firsts.new ≡ found_in firsts.old (decl_faults (known self.now) place (struct (struct_of table.now)))) }
    {
        let members = &table.item().members;
        self.builder.report_members(place, table, members, firsts)?;
        if grown.is_right {
            grown.is_right = self.builder.add_struct(place, table, &mut grown.program)?;
        }
        Ok(())
    }

    // Checks a global.
    #[tactic(auto, using(resolution::specs::Theory::Leasts::found_append))]
    fn check_global(
        &self,
        v: &Variable,
        grown: &mut ProgramBuilder,
        firsts: &mut Firsts,
    ) -> Result<(), AllocError>
        ensures value { OnOk result
            (built grown.new ≡ global_if (known self.now) (built grown.old) (variable_of v.now)) }
        ensures faults { OnOk result
            (firsts.new ≡ found_in firsts.old (global_faults (known self.now) (variable_of v.now))) }
    {
        let symbols = self.builder.symbols;
        report_type(symbols, &v.value_type, firsts);
        report_lock(symbols, &v.name, &v.protection, firsts);
        let wanted = want(type_outside(symbols, &v.value_type));
        report_opening(symbols, wanted, &v.value, firsts);
        if grown.is_right {
            grown.is_right = self.builder.add_global(v, &mut grown.program)?;
        }
        Ok(())
    }

    // Checks an array.
    #[tactic(auto, using(resolution::specs::Theory::Leasts::found_append))]
    fn check_array(
        &self,
        a: &Array,
        grown: &mut ProgramBuilder,
        firsts: &mut Firsts,
    ) -> Result<(), AllocError>
        ensures value { OnOk result (built grown.new ≡ array_if (known self.now) (built grown.old) (array_of a.now)) }
        ensures faults { OnOk result
            (firsts.new ≡ found_in firsts.old (array_faults (known self.now) (array_of a.now))) }
    {
        let symbols = self.builder.symbols;
        report_type(symbols, &a.value_type, firsts);
        report_lock(symbols, &a.name, &a.protection, firsts);
        if grown.is_right {
            grown.is_right = self.builder.add_array(a, &mut grown.program)?;
        }
        Ok(())
    }

    // Checks the pool at this place.
    #[tactic(auto, using(resolution::specs::Theory::Leasts::found_append))]
    fn check_pool(
        &self,
        place: usize,
        p: &Pool,
        grown: &mut ProgramBuilder,
        firsts: &mut Firsts,
    ) -> Result<(), AllocError>
        ensures value { OnOk result
            (built grown.new ≡ extended_if (known self.now) place (built grown.old) (pool (pool_of p.now))) }
        ensures faults { OnOk result
            (firsts.new ≡ found_in firsts.old (decl_faults (known self.now) place (pool (pool_of p.now)))) }
    {
        report_target(self.builder.symbols, &p.target, firsts);
        report_missing(self.builder.symbols, place, p, firsts);
        if grown.is_right {
            grown.is_right = self.builder.add_pool(place, p, &mut grown.program)?;
        }
        Ok(())
    }

    // Checks a section.
    fn check_atomic(
        &self,
        s: &Section,
        grown: &mut ProgramBuilder,
        firsts: &mut Firsts,
    ) -> Result<(), AllocError>
        ensures value { OnOk result
            (built grown.new ≡ section_if (known self.now) (built grown.old) (section_of s.now)) }
        ensures faults { OnOk result
            (firsts.new ≡ found_in firsts.old (section_faults (known self.now) section_limits (section_of s.now))) }
    {
        let section = check_section(self.builder.alloc, self.builder.symbols, s, firsts)?;
        if grown.is_right {
            grown.is_right = add_section(section, &mut grown.program)?;
        }
        Ok(())
    }

    // Checks a helper.
    fn check_helper(
        &self,
        s: &Section,
        grown: &mut ProgramBuilder,
        firsts: &mut Firsts,
    ) -> Result<(), AllocError>
        ensures value { OnOk result
            (built grown.new ≡ helper_if (known self.now) (built grown.old) (section_of s.now)) }
        ensures faults { OnOk result
            (firsts.new ≡ found_in firsts.old (section_faults (known self.now) helper_limits (section_of s.now))) }
    {
        let helper = check_helper(self.builder.alloc, self.builder.symbols, s, firsts)?;
        if grown.is_right {
            grown.is_right = add_helper(helper, &mut grown.program)?;
        }
        Ok(())
    }

    // Checks a thread.
    fn check_thread(
        &self,
        t: &Thread,
        grown: &mut ProgramBuilder,
        firsts: &mut Firsts,
    ) -> Result<(), AllocError>
        ensures value { OnOk result (built grown.new ≡ thread_if (known self.now) (built grown.old) (thread_of t.now)) }
        ensures faults { OnOk result
            (firsts.new ≡ found_in firsts.old (items_faults (known self.now) (items_of t.now.items.items))) }
    {
        report_items(self.builder.symbols, &t.items, firsts);
        if grown.is_right {
            let calls = typed_calls(self.builder.alloc, self.builder.symbols, &t.items)?;
            grown.is_right = self.builder.add_thread(&t.name, calls, &mut grown.program)?;
        }
        Ok(())
    }

    // Checks the declaration at this place.
    #[tactic(auto, using(resolution::specs::Theory::Leasts::found_append))]
    fn check_decl(
        &self,
        place: usize,
        d: &Decl,
        grown: &mut ProgramBuilder,
        firsts: &mut Firsts,
    ) -> Result<(), AllocError>
        requires { slice_get (known self.now) place ≡ Some (decl_of d.now) }
        ensures value { OnOk result
            (built grown.new ≡ extended_if (known self.now) place (built grown.old) (decl_of d.now)) }
        ensures faults { OnOk result
            (firsts.new ≡ found_in firsts.old (decl_faults (known self.now) place (decl_of d.now))) }
    {
        let symbols = self.builder.symbols;
        match d {
            Decl::Lock(name) => {
                add_lock(self.builder.alloc, name, &mut grown.program)?;
                Ok(())
            }
            Decl::Struct(_) => {
                let Some(table) = symbols.structure(symbols.number(place, d)) else {
                    unreachable!()
                };
                self.check_struct(place, table, grown, firsts)
            }
            Decl::Global(v) => self.check_global(v, grown, firsts),
            Decl::Array(a) => self.check_array(a, grown, firsts),
            Decl::Pool(p) => self.check_pool(place, p, grown, firsts),
            Decl::Init(i) => {
                report_init(symbols, i, firsts);
                Ok(())
            }
            Decl::Atomic(s) => self.check_atomic(s, grown, firsts),
            Decl::Helper(s) => self.check_helper(s, grown, firsts),
            Decl::Thread(t) => self.check_thread(t, grown, firsts),
        }
    }

    // Checks the declarations, one after another.
    #[tactic(auto, using(resolution::specs::Theory::Leasts::found_append))]
    fn check_decls(&self, grown: &mut ProgramBuilder, firsts: &mut Firsts) -> Result<(), AllocError>
        ensures value { OnOk result
            (built grown.new ≡ resolved_from (known self.now) 0 (built grown.old) (known self.now)) }
        ensures faults { OnOk result
            (firsts.new ≡ found_in firsts.old (each_faults (known self.now) 0 (known self.now))) }
    {
        let items = self.builder.symbols.items();
        for (place, d) in items.iter().enumerate() {
            self.check_decl(place, d, grown, firsts)?;
        }
        Ok(())
    }
}

/// An empty program.
fn nothing(alloc: Global) -> Typed
    ensures { core_of result ≡ nothing_yet }
{
    Typed {
        classes: Vec::new(alloc),
        structs: Vec::new(alloc),
        globals: Vec::new(alloc),
        shape: Shape {
            arrays: Vec::new(alloc),
            pools: Vec::new(alloc),
            objects: Vec::new(alloc),
            finals: Vec::new(alloc),
            helpers: Vec::new(alloc),
        },
        cells: Vec::new(alloc),
        sections: Vec::new(alloc),
        threads: Vec::new(alloc),
    }
}

/// Checks the declarations of a program, one after another, and then its call graph.
#[tactic(auto, using(resolution::specs::Theory::Leasts::found_append))]
fn check_all(
    alloc: Global,
    symbols: &SymbolTable,
    grown: &mut ProgramBuilder,
    firsts: &mut Firsts,
) -> Result<(), AllocError>
    ensures value { OnOk result
        (built grown.new ≡ resolved_from (decls_of symbols.now) 0 (built grown.old) (decls_of symbols.now)) }
    ensures faults { OnOk result (firsts.new ≡ found_in firsts.old (judged_faults (decls_of symbols.now))) }
{
    let check = Judge {
        builder: Builder { alloc, symbols },
    };
    check.check_decls(grown, firsts)?;
    report_calls(alloc, symbols, firsts)
}

/// The resolved program that a tree stands for: each name replaced by the number of what it refers to, every expression
/// typed. Or the tree's first fault of names and types (`E05` to `E12`, `E15` to `E17`, `E19`, `E20`): the one that
/// stands first, and of those at one place the one with the lowest code. A tree with a number that no token can have is
/// refused for that (`E02`).
///
/// Each `return` of the tree stands where it may, as in the trees of the parser. The only other error is a failed
/// allocation.
pub fn check(alloc: Global, tree: &Tree) -> Result<Typed, Refusal>
    requires { ReturnsRight (tree_of tree.now) }
    // The result is the program that the tree stands for.
    ensures resolves { IfOk result (Resolves (tree_of tree.now)) }
    // Its numbers are all valid, its sections and helpers are well typed, and its calls keep the limits.
    ensures checked { IfOk result IsChecked }
    // Without helpers it is well formed.
    ensures well_formed { IfOk result (λ program. DeclaresNoHelper (tree_of tree.now) → IsWellFormed program) }
    // A tree with a fault is not accepted.
    ensures faultless { OnOk result (HasNoFault (tree_of tree.now)) }
    // The fault is a fault of the tree.
    ensures fault { IfErr result (IsRefusal (tree_of tree.now)) }
    // No fault of the tree comes before it.
    ensures least { IfErr result (IsLeastOf (IsFault (tree_of tree.now))) }
{
    laws::least_fault();
    laws::first_faults();
    laws::faultless_are_resolved();
    laws::resolved_by_rules();
    laws::resolved_are_checked();
    laws::without_helpers();
    let mut firsts = Firsts::new();
    let maker = TableMaker {
        alloc,
        hashing: tree.hashing,
    };
    let symbols = SymbolTable::new(maker, &tree.decls, &mut firsts)?;
    // After a fault the program is not built.
    let mut grown = ProgramBuilder {
        program: nothing(alloc),
        is_right: firsts.is_empty(),
    };
    check_all(alloc, &symbols, &mut grown, &mut firsts)?;
    drop(symbols);
    if let Some(fault) = firsts.first() {
        drop(grown);
        return Err(Refusal::Fault(Fault::at(alloc, fault.code, fault.start)));
    }
    if !grown.is_right {
        unreachable!()
    }
    Ok(grown.program)
}

/// The first faults of names and types of a tree, with their reasons: at most twenty, ordered by place. The first is
/// the one that [`check`] returns. The only error is a failed allocation.
pub fn first_faults(alloc: Global, tree: &Tree) -> Result<Firsts, NoMemory>
    ensures { IfOk result (λ found. found ≡ the_firsts (tree_of tree.now)) }
{
    let mut firsts = Firsts::new();
    let maker = TableMaker {
        alloc,
        hashing: tree.hashing,
    };
    let symbols = SymbolTable::new(maker, &tree.decls, &mut firsts)?;
    // (the program is not built)
    let mut grown = ProgramBuilder {
        program: nothing(alloc),
        is_right: false,
    };
    check_all(alloc, &symbols, &mut grown, &mut firsts)?;
    Ok(firsts)
}
