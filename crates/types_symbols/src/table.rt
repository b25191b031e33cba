//! The declarations of a program, with all tables that later passes use.

ghost use Rattle.std.specs.Prelude.{◌≡◌, OnOk, IfOk, Some, option_map, take};
ghost use Rattle.syntax.specs.Views.{const_of, decl_of, ident, struct_of};
ghost use Rattle.resolution.specs.Scopes.{number_at, the_decl, the_struct};
ghost use Rattle.resolution.specs.Expressions.{cell_of};
ghost use Rattle.resolution.specs.Constants.{object_of, given, value_in};
ghost use Rattle.resolution.specs.Annotations.{class_number};
ghost use Rattle.resolution.specs.Working.Building.{few_calls};
ghost use Rattle.resolution.specs.Working.Findings.{found_in};
ghost use Rattle.types_symbols.specs.Working.Capped.{totals_of};
ghost use Rattle.types_symbols.specs.Working.Faults.{table_faults};
ghost use Rattle.types_symbols.specs.Working.Views.{decls_of, struct_in};

use crate::declarations::Declarations;
use crate::first_inits::{FirstInits, check_first_inits};
use crate::members::Structure;
use crate::names::TableMaker;
use crate::totals::{Totals, check_totals};
use resolution::finding::Firsts;
use resolution::init_target::InitTarget;
use source::limits::{CALL_LIMIT, CELL_LIMIT, CLASS_LIMIT, OBJECT_LIMIT};
use std::alloc::AllocError;
use std::marker::Model;
use syntax::tree::{Const, Decl, Name};

/// The declarations, with all their tables.
#[derive(Drop)]
pub struct SymbolTable<'t> {
    /// The declarations, with tables by name, place and number.
    decls: Declarations<'t>,
    /// For each declaration, by its place, the totals before it.
    ahead: Vec<Totals>,
    /// The totals of all declarations.
    all: Totals,
    /// The targets of `init`s.
    first_inits: FirstInits,
    maker: TableMaker,
}

// The model is the declarations as written, and an invariant says that the tables are theirs.
impl<'t> Model for SymbolTable<'t> {
    ghost use Rattle.std.specs.Prelude.{List};
    ghost use Rattle.std.specs.Coded.{codes};
    ghost use Rattle.syntax.specs.declared.tree.Decl as the_decl;
    ghost use Rattle.syntax.specs.contracts.tree.Decl as the_contract;
    ghost use Rattle.types_symbols.specs.Working.Found.{AreAhead};
    ghost use Rattle.types_symbols.specs.Working.Capped.{totals_of};
    ghost use Rattle.types_symbols.specs.Working.Given.{IsInitTargetTable};
    ghost use Rattle.types_symbols.specs.Working.Views.{decls_of};

    ghost Value = { List the_decl.Decl };

    ghost coded = { Prim.hlevel (codes, the_contract.the_row.coded) };

    ghost view = { λ t. t.decls };

    ghost invariant = { λ t.
        AreAhead (totals_of (decls_of t.decls)) (decls_of t.decls) t.ahead.items t.all
        × IsInitTargetTable (decls_of t.decls) (decls_of t.decls) t.first_inits };
}

impl<'t> SymbolTable<'t> {
    /// The declarations with all their tables. Notes the faults of names, limits and repeated `init`s. The only error
    /// is a failed allocation.
    pub fn new(
        maker: TableMaker,
        items: &'t [Decl],
        firsts: &mut Firsts,
    ) -> Result<SymbolTable<'t>, AllocError>
        ensures items { IfOk result (λ t. t ≡ items.now) }
        ensures faults { OnOk result (firsts.new ≡ found_in firsts.old (table_faults (decls_of items.now))) }
    {
        let alloc = maker.alloc;
        let decls = Declarations::new(maker, items, firsts)?;
        let Ok((ahead, all)) = check_totals(alloc, &decls, firsts) else {
            drop(decls);
            return Err(AllocError);
        };
        let Ok(first_inits) = check_first_inits(alloc, &decls, firsts) else {
            drop(decls);
            drop(ahead);
            return Err(AllocError);
        };
        Ok(SymbolTable {
            decls,
            ahead,
            all,
            first_inits,
            maker,
        })
    }

    /// A maker of further tables of the program's names.
    pub fn maker(&self) -> TableMaker {
        self.maker
    }

    /// The declarations with the tables of their names, numbers and structs only.
    pub fn decls(&self) -> &Declarations<'t>
        ensures { result.now ≡ self.now }
    {
        &self.decls
    }

    /// The declarations, in the order of the text. A place is an index into them.
    pub fn items(&self) -> &'t [Decl]
        ensures { result.now ≡ self.now }
    {
        self.decls.items()
    }

    /// The first declaration named `name`, with its place from 0.
    pub fn find(&self, name: &str) -> Option<(usize, &'t Decl)>
        ensures { option_map (λ f. (f.0, decl_of f.1.now)) result ≡ the_decl (decls_of self.now) name.now }
    {
        self.decls.find(name)
    }

    /// The number of the declaration `d` at `place`: how many of its kind come before it.
    pub fn number(&self, place: usize, d: &Decl) -> usize
        ensures { result ≡ number_at (decls_of self.now) place (decl_of d.now) }
    {
        self.decls.number(place, d)
    }

    /// The struct of this number, with its tables. `None` if the program has fewer structs.
    pub fn structure(&self, number: usize) -> Option<&Structure<'t>>
        ensures { option_map (λ s. struct_of s.now) result ≡ the_struct (decls_of self.now) number }
    {
        self.decls.structure(number)
    }

    /// The struct that `name` refers to outside of sections, with its tables and its place among the declarations.
    /// `None` if the name does not refer to a struct.
    pub fn struct_of(&self, name: &Name) -> Option<(usize, &Structure<'t>)>
        ensures { option_map (λ s. (s.0, struct_of s.1.now)) result
            ≡ struct_in (the_decl (decls_of self.now) (ident name.now).text) }
    {
        self.decls.struct_of(name)
    }

    /// The totals before `place`.
    fn ahead_of(&self, place: usize) -> Totals
        ensures { result ≡ totals_of (decls_of self.now) (take place (decls_of self.now)) }
    {
        match self.ahead.get(place) {
            Some(totals) => *totals,
            None => self.all,
        }
    }

    /// The first cell of the declaration at `place`: the number of cells before it, but at most 262,144, the limit.
    pub fn cell(&self, place: usize) -> u32
        ensures { result ≡ cell_of (decls_of self.now) place }
    {
        self.ahead_of(place).cells.min(CELL_LIMIT) as u32
    }

    /// The object that is member `index` of the pool at `place`: its number among all objects, but at most 65,536, the
    /// limit.
    pub fn object(&self, place: usize, index: u64) -> u32
        ensures { result ≡ object_of (decls_of self.now) place index }
    {
        let first = self.ahead_of(place).objects;
        (first + index.min(OBJECT_LIMIT as u64) as usize).min(OBJECT_LIMIT) as u32
    }

    /// The class of the lock at `place`, if `number` is 0, or of lock `number` of the struct there: the number of
    /// classes before it, but at most 128, the limit.
    pub fn class(&self, place: usize, number: usize) -> usize
        ensures { result ≡ class_number (decls_of self.now) place number }
    {
        let first = self.ahead_of(place).classes;
        (first + number.min(CLASS_LIMIT)).min(CLASS_LIMIT)
    }

    /// Whether all threads together make at most 100,000 calls, the limit.
    pub fn has_few_calls(&self) -> bool
        ensures { result ≡ few_calls (decls_of self.now) }
    {
        self.ahead_of(self.items().len()).calls <= CALL_LIMIT
    }

    /// The constant that the first `init` for `init_target` gives, if there is one.
    pub fn given(&self, init_target: InitTarget) -> Option<&'t Const>
        ensures { option_map (λ c. const_of c.now) result ≡ given (decls_of self.now) init_target }
    {
        let place = self.first_inits.find(init_target)?;
        let decl = self.decls.decl_at(place)?;
        value_in(place, decl)
    }
}

/// The constant that the declaration gives, if it is an `init`.
fn value_in(place: usize, d: &Decl) -> Option<&Const>
    ensures { option_map (λ c. const_of c.now) result ≡ value_in (Some (place, decl_of d.now)) }
{
    match d {
        Decl::Init(i) => Some(&i.value),
        Decl::Lock(_)
        | Decl::Struct(_)
        | Decl::Global(_)
        | Decl::Array(_)
        | Decl::Pool(_)
        | Decl::Atomic(_)
        | Decl::Helper(_)
        | Decl::Thread(_) => None,
    }
}
