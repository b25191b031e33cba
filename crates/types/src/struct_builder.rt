//! Structs.

ghost use Rattle.std.specs.Prelude.{◌≡◌, ◌++◌, OnOk, IfOk};
ghost use Rattle.syntax.specs.Views.{ident};
ghost use Rattle.resolution.specs.Working.Building.{lock_added, final_added};
ghost use Rattle.resolution.specs.Working.Findings.{found_in};
ghost use Rattle.types.specs.Working.Grown.{shaped};
ghost use Rattle.types.specs.Working.StructBuilders.{builder_of};
ghost use Rattle.types.specs.Working.DeclaredValues.{field_added_of, member_added_of, members_added_of, member_faults_of, members_faults_of};

use crate::grown::Builder;
use core_lang::typed::{Field, FinalField, LockClass, LockField, Protection, Struct};
use core_lang::value::ValueType;
use resolution::finding::Firsts;
use std::alloc::{AllocError, Global};
use syntax::tree::{Member, Name};
use types_symbols::FieldAnnotations;
use types_symbols::members::Structure;
use types_symbols::scope::{report_target, report_type, struct_named, type_outside};

/// A struct with some of its members, and the lock classes so far.
#[derive(Drop)]
pub struct StructBuilder {
    /// The struct with its members so far.
    pub structure: Struct,
    /// The lock classes of the program, up to the struct's last lock so far.
    pub classes: Vec<LockClass>,
}

/// A struct that is built, by its number, its place among the declarations and its tables.
#[derive(Clone, Copy)]
pub struct StructPlace<'a> {
    pub number: usize,
    pub place: usize,
    pub table: &'a Structure<'a>,
}

impl StructBuilder {
    // Adds a lock field, of the struct of this number.
    fn add_lock(&mut self, alloc: Global, number: usize, name: &Name) -> Result<(), AllocError>
        ensures { OnOk result (builder_of self.new ≡ lock_added number (builder_of self.old) (ident name.now).text) }
    {
        let class = self.classes.len();
        let lock = self.structure.locks.len();
        self.structure.locks.push(LockField {
            name: String::from_str(alloc, name.text.as_str())?,
            class,
        })?;
        self.classes.push(LockClass::Field {
            structure: number,
            lock,
        })?;
        Ok(())
    }

    // Adds a final reference, if its struct is known.
    fn add_final(
        &mut self,
        alloc: Global,
        name: &Name,
        target: Option<usize>,
    ) -> Result<bool, AllocError>
        ensures { IfOk result
            (λ right. shaped right self.new ≡ final_added (builder_of self.old) (ident name.now).text target) }
    {
        let Some(target) = target else {
            return Ok(false);
        };
        self.structure.finals.push(FinalField {
            name: String::from_str(alloc, name.text.as_str())?,
            target,
        })?;
        Ok(true)
    }

    // Adds a field, if its type and its annotation have no fault.
    fn add_field(
        &mut self,
        alloc: Global,
        name: &Name,
        t: Option<ValueType>,
        protection: Option<Protection>,
    ) -> Result<bool, AllocError>
        ensures { IfOk result (λ right. shaped right self.new ≡ field_added_of self.old name.now t protection) }
    {
        let (Some(value_type), Some(protection)) = (t, protection) else {
            return Ok(false);
        };
        self.structure.fields.push(Field {
            name: String::from_str(alloc, name.text.as_str())?,
            value_type,
            protection,
        })?;
        Ok(true)
    }
}

impl<'a> Builder<'a> {
    // Adds a member of a struct, if it has no fault.
    fn add_member(
        &self,
        here: &StructPlace<'a>,
        m: &Member,
        builder: &mut StructBuilder,
    ) -> Result<bool, AllocError>
        ensures { IfOk result
            (λ right. shaped right builder.new ≡ member_added_of self.now here.now builder.old m.now) }
    {
        match m {
            Member::Lock(name) => {
                builder.add_lock(self.alloc, here.number, name)?;
                Ok(true)
            }
            Member::Final(f) => {
                let target = struct_named(self.symbols, &f.target);
                builder.add_final(self.alloc, &f.name, target)
            }
            Member::Field(f) => {
                let t = type_outside(self.symbols, &f.value_type);
                let annotations = FieldAnnotations {
                    alloc: self.alloc,
                    symbols: self.symbols,
                    place: here.place,
                    structure: here.table,
                };
                let protection = annotations.protection(&f.protection)?;
                builder.add_field(self.alloc, &f.name, t, protection)
            }
        }
    }

    /// Adds members of a struct, one after another, if they have no fault.
    pub fn add_members(
        &self,
        here: &StructPlace<'a>,
        members: &[Member],
        builder: &mut StructBuilder,
    ) -> Result<bool, AllocError>
        ensures { IfOk result
            (λ right. shaped right builder.new ≡ members_added_of self.now here.now builder.old members.now) }
    {
        for m in members {
            if !self.add_member(here, m, builder)? {
                return Ok(false);
            }
        }
        Ok(true)
    }

    // Notes the faults of a member of the struct at a place.
    #[tactic(auto, using(resolution::specs::Theory::Leasts::found_append))]
    fn report_member(
        &self,
        place: usize,
        table: &'a Structure<'a>,
        m: &Member,
        firsts: &mut Firsts,
    ) -> Result<(), AllocError>
        ensures { OnOk result (firsts.new ≡ found_in firsts.old (member_faults_of self.now place table.now m.now)) }
    {
        match m {
            Member::Lock(_) => Ok(()),
            Member::Final(f) => {
                report_target(self.symbols, &f.target, firsts);
                Ok(())
            }
            Member::Field(f) => {
                report_type(self.symbols, &f.value_type, firsts);
                let annotations = FieldAnnotations {
                    alloc: self.alloc,
                    symbols: self.symbols,
                    place,
                    structure: table,
                };
                annotations.report(&f.name, &f.protection, firsts)
            }
        }
    }

    /// Notes the faults of members of the struct at a place. The only error is a failed allocation.
    pub fn report_members(
        &self,
        place: usize,
        table: &'a Structure<'a>,
        members: &[Member],
        firsts: &mut Firsts,
    ) -> Result<(), AllocError>
        ensures { OnOk result
            (firsts.new ≡ found_in firsts.old (members_faults_of self.now place table.now members.now)) }
    {
        for m in members {
            self.report_member(place, table, m, firsts)?;
        }
        Ok(())
    }
}
