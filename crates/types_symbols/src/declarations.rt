//! The declarations, with tables by name and by number.

ghost use Rattle.std.specs.Prelude.{◌≡◌, ◌<◌, ◌+◌, ◌∷◌, ◌++◌, ◌^◌, [], OnOk, IfOk, option_map, map, slice_get, take};
ghost use Rattle.syntax.specs.Views.{ident, decl_of, struct_of};
ghost use Rattle.resolution.specs.Scopes.{declared, bears, the_decl, number_at, structs_in, the_struct};
ghost use Rattle.resolution.specs.Working.Findings.{found_in};
ghost use Rattle.resolution.specs.Working.FaultLists.{twice_faults, struct_faults};
ghost use Rattle.types_symbols.specs.Working.Found.{IsTableOf, IsTableWith, declared_in, AreAhead};
ghost use Rattle.types_symbols.specs.Working.Counted.{count_of, counted, counts_from, no_counts, limited, limited_of};
ghost use Rattle.types_symbols.specs.Working.Faults.{name_faults};
ghost use Rattle.types_symbols.specs.Working.Views.{decls_of, name_seen, struct_in, AreStructures};

use crate::members::Structure;
use crate::names::{Names, TableMaker};
use resolution::finding::{Firsts, report};
use source::fault::Code;
use source::limits::SECTION_LIMIT;
use std::alloc::{AllocError, Global};
use std::marker::Model;
use syntax::tree::{Decl, Name};

/// The number of declarations of each kind, those with a repeated name included.
#[derive(Clone, Copy)]
pub struct Counts {
    /// The global locks.
    pub locks: usize,
    /// The structs.
    pub structs: usize,
    /// The globals that are not arrays.
    pub globals: usize,
    /// The arrays.
    pub arrays: usize,
    /// The pools.
    pub pools: usize,
    /// The `init`s.
    pub inits: usize,
    /// The sections.
    pub sections: usize,
    /// The helpers.
    pub helpers: usize,
    /// The threads.
    pub threads: usize,
}

/// The declarations of a program, with their tables.
#[derive(Drop)]
pub struct Declarations<'t> {
    /// The declarations, in the order of the text. A place is an index into them.
    items: &'t [Decl],
    /// The place of the first declaration of each name.
    names: Names,
    /// For each declaration, by its place, the number of each kind before it.
    ahead: Vec<Counts>,
    /// The total number of each kind.
    all: Counts,
    /// The structs, by number, which is their order among the declarations.
    structs: Vec<Structure<'t>>,
}

// The model is the declarations as written, and an invariant says that the tables are theirs.
impl<'t> Model for Declarations<'t> {
    ghost use Rattle.std.specs.Prelude.{List};
    ghost use Rattle.std.specs.Coded.{codes};
    ghost use Rattle.syntax.specs.declared.tree.Decl as the_decl;
    ghost use Rattle.syntax.specs.contracts.tree.Decl as the_contract;
    ghost use Rattle.resolution.specs.Scopes.{bears};
    ghost use Rattle.types_symbols.specs.Working.Found.{IsTableOf, AreAhead};
    ghost use Rattle.types_symbols.specs.Working.Counted.{counts_from, no_counts};
    ghost use Rattle.types_symbols.specs.Working.Views.{decls_of, AreStructures};

    ghost Value = { List the_decl.Decl };

    ghost coded = { Prim.hlevel (codes, the_contract.the_row.coded) };

    ghost view = { λ d. d.items.now };

    ghost invariant = { λ d.
        IsTableOf bears (decls_of d.items.now) d.names
        × AreAhead (counts_from no_counts) (decls_of d.items.now) d.ahead.items d.all
        × AreStructures (decls_of d.items.now) d.structs.items };
}

/// The name that a declaration declares.
fn name_in(d: &Decl) -> Option<&Name>
    ensures { name_seen result ≡ declared (decl_of d.now) }
{
    match d {
        Decl::Lock(name) => Some(name),
        Decl::Struct(structure) => Some(&structure.name),
        Decl::Global(variable) => Some(&variable.name),
        Decl::Array(array) => Some(&array.name),
        Decl::Pool(pool) => Some(&pool.name),
        Decl::Init(_) => None,
        Decl::Atomic(section) => Some(&section.name),
        Decl::Helper(helper) => Some(&helper.name),
        Decl::Thread(thread) => Some(&thread.name),
    }
}

/// Counts one more.
fn count_one(counter: &mut usize)
    requires { counter.old < 2 ^ 63 }
    ensures { counter.new ≡ counter.old + 1 }
{
    *counter = *counter + 1;
}

impl Counts {
    /// Zero of each kind.
    fn new() -> Counts
        ensures { result ≡ no_counts }
    {
        Counts {
            locks: 0,
            structs: 0,
            globals: 0,
            arrays: 0,
            pools: 0,
            inits: 0,
            sections: 0,
            helpers: 0,
            threads: 0,
        }
    }

    /// The number of declarations of the kind of `d`.
    fn of(self, d: &Decl) -> usize
        ensures { result ≡ count_of self (decl_of d.now) }
    {
        match d {
            Decl::Lock(_) => self.locks,
            Decl::Struct(_) => self.structs,
            Decl::Global(_) => self.globals,
            Decl::Array(_) => self.arrays,
            Decl::Pool(_) => self.pools,
            Decl::Init(_) => self.inits,
            Decl::Atomic(_) => self.sections,
            Decl::Helper(_) => self.helpers,
            Decl::Thread(_) => self.threads,
        }
    }

    /// The number of declarations that share a limit with `d`: those of its kind, or for a section or a helper those of
    /// both kinds, each counted up to the limit.
    fn limited(self, d: &Decl) -> usize
        ensures { result ≡ limited_of self (decl_of d.now) }
    {
        match d {
            Decl::Atomic(_) | Decl::Helper(_) => {
                self.sections.min(SECTION_LIMIT) + self.helpers.min(SECTION_LIMIT)
            }
            Decl::Lock(_)
            | Decl::Struct(_)
            | Decl::Global(_)
            | Decl::Array(_)
            | Decl::Pool(_)
            | Decl::Init(_)
            | Decl::Thread(_) => self.of(d),
        }
    }

    /// Counts `d`.
    fn count(&mut self, d: &Decl)
        requires { count_of self.old (decl_of d.now) < 2 ^ 63 }
        ensures { self.new ≡ counted self.old (decl_of d.now) }
    {
        match d {
            Decl::Lock(_) => count_one(&mut self.locks),
            Decl::Struct(_) => count_one(&mut self.structs),
            Decl::Global(_) => count_one(&mut self.globals),
            Decl::Array(_) => count_one(&mut self.arrays),
            Decl::Pool(_) => count_one(&mut self.pools),
            Decl::Init(_) => count_one(&mut self.inits),
            Decl::Atomic(_) => count_one(&mut self.sections),
            Decl::Helper(_) => count_one(&mut self.helpers),
            Decl::Thread(_) => count_one(&mut self.threads),
        }
    }
}

/// Notes a name that is declared twice.
fn report_twice(names: &Names, name: Option<&Name>, firsts: &mut Firsts)
    ensures { firsts.new ≡ found_in firsts.old (declared_in names.now (name_seen name.entry)) }
{
    if let Some(name) = name {
        if names.find(name.text.as_str()).is_some() {
            report(Code::DeclaredTwice, name.start as usize, firsts);
        }
    }
}

/// Adds the name of a declaration, if it has a new one.
fn add_name(
    alloc: Global,
    names: &mut Names,
    name: Option<&Name>,
    place: usize,
) -> Result<(), AllocError>
    ensures { OnOk result (IsTableWith (name_seen name.entry) place names.old names.new) }
{
    match name {
        Some(name) => names.add(alloc, &name.text, place),
        None => Ok(()),
    }
}

/// Makes the tables of the declarations: their names, the number of each kind before each declaration, and the totals.
/// Notes names that are declared twice.
fn check_names(
    maker: TableMaker,
    decls: &[Decl],
    firsts: &mut Firsts,
) -> Result<(Names, Vec<Counts>, Counts), AllocError>
    ensures names { IfOk result (λ t. IsTableOf bears (decls_of decls.now) t.0) }
    ensures counts { IfOk result (λ t. AreAhead (counts_from no_counts) (decls_of decls.now) t.1.items t.2) }
    ensures faults { OnOk result (firsts.new ≡ found_in firsts.old (twice_faults [] (decls_of decls.now))) }
{
    let alloc = maker.alloc;
    let mut names = Names::new(maker);
    let mut ahead = Vec::new(alloc);
    let mut counts = Counts::new();
    for (place, d) in decls.iter().enumerate() {
        let name = name_in(d);
        report_twice(&names, name, firsts);
        add_name(alloc, &mut names, name, place)?;
        ahead.push(counts)?;
        counts.count(d);
    }
    Ok((names, ahead, counts))
}

/// Adds a declaration to the structs if it is one, with tables of its members.
fn check_struct<'t>(
    maker: TableMaker,
    d: &'t Decl,
    structs: &mut Vec<Structure<'t>>,
    firsts: &mut Firsts,
) -> Result<(), AllocError>
    ensures structs { OnOk result
        (map struct_of structs.new.items ≡ map struct_of structs.old.items ++ structs_in (decl_of d.now ∷ [])) }
    ensures faults { OnOk result (firsts.new ≡ found_in firsts.old (struct_faults (decl_of d.now ∷ []))) }
{
    let Decl::Struct(item) = d else {
        return Ok(());
    };
    let structure = Structure::new(maker, item, firsts)?;
    structs.push(structure)?;
    Ok(())
}

/// The structs among declarations, by number, with tables of their members.
fn check_structs<'t>(
    maker: TableMaker,
    decls: &'t [Decl],
    firsts: &mut Firsts,
) -> Result<Vec<Structure<'t>>, AllocError>
    ensures structs { IfOk result (λ t. AreStructures (decls_of decls.now) t.items) }
    ensures faults { OnOk result (firsts.new ≡ found_in firsts.old (struct_faults (decls_of decls.now))) }
{
    let mut structs = Vec::new(maker.alloc);
    for d in decls {
        check_struct(maker, d, &mut structs, firsts)?;
    }
    Ok(structs)
}

impl<'t> Declarations<'t> {
    /// The declarations with their tables. Notes names that are declared twice. The only error is a failed allocation.
    pub(crate) fn new(
        maker: TableMaker,
        items: &'t [Decl],
        firsts: &mut Firsts,
    ) -> Result<Declarations<'t>, AllocError>
        ensures items { IfOk result (λ t. t ≡ items.now) }
        ensures faults { OnOk result (firsts.new ≡ found_in firsts.old (name_faults (decls_of items.now))) }
    {
        let (names, ahead, all) = check_names(maker, items, firsts)?;
        let structs = check_structs(maker, items, firsts)?;
        Ok(Declarations {
            items,
            names,
            ahead,
            all,
            structs,
        })
    }

    /// The declarations, in the order of the text. A place is an index into them.
    pub fn items(&self) -> &'t [Decl]
        ensures { result.now ≡ self.now }
    {
        self.items
    }

    /// The declaration at a place.
    pub(crate) fn decl_at(&self, place: usize) -> Option<&'t Decl>
        ensures { option_map (λ d. decl_of d.now) result ≡ slice_get (decls_of self.now) place }
    {
        self.items.get(place)
    }

    /// The first declaration named `name`, with its place from 0.
    pub fn find(&self, name: &str) -> Option<(usize, &'t Decl)>
        ensures { option_map (λ f. (f.0, decl_of f.1.now)) result ≡ the_decl (decls_of self.now) name.now }
    {
        let place = self.names.find(name)?;
        let decl = self.items.get(place)?;
        Some((place, decl))
    }

    /// The number of each kind before `place`.
    fn ahead_of(&self, place: usize) -> Counts
        ensures { result ≡ counts_from no_counts (take place (decls_of self.now)) }
    {
        match self.ahead.get(place) {
            Some(counts) => *counts,
            None => self.all,
        }
    }

    /// The number of the declaration `d` at `place`: how many of its kind come before it.
    #[tactic(auto, using(crate::proofs::Ahead::counts_none))]
    pub fn number(&self, place: usize, d: &Decl) -> usize
        ensures { result ≡ number_at (decls_of self.now) place (decl_of d.now) }
    {
        self.ahead_of(place).of(d)
    }

    /// How many declarations before `place` share a limit with the one there: those of its kind, or for a section or a
    /// helper those of both kinds, each counted up to the limit.
    #[tactic(auto, using(crate::proofs::Ahead::limited_none))]
    pub(crate) fn limited(&self, place: usize, d: &Decl) -> usize
        ensures { result ≡ limited (take place (decls_of self.now)) (decl_of d.now) }
    {
        self.ahead_of(place).limited(d)
    }

    /// The struct of this number, with its tables. `None` if the program has fewer structs.
    pub fn structure(&self, number: usize) -> Option<&Structure<'t>>
        ensures { option_map (λ s. struct_of s.now) result ≡ the_struct (decls_of self.now) number }
    {
        self.structs.get(number)
    }

    /// The struct that `name` refers to outside of sections, with its tables and its place among the declarations.
    /// `None` if the name does not refer to a struct.
    pub fn struct_of(&self, name: &Name) -> Option<(usize, &Structure<'t>)>
        ensures { option_map (λ s. (s.0, struct_of s.1.now)) result
            ≡ struct_in (the_decl (decls_of self.now) (ident name.now).text) }
    {
        let (place, decl) = self.find(name.text.as_str())?;
        match decl {
            Decl::Struct(_) => {
                let number = self.number(place, decl);
                let structure = self.structure(number)?;
                Some((place, structure))
            }
            _ => None,
        }
    }
}
