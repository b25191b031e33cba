//! The resolved program while it is built, one declaration after another.

ghost use Rattle.std.specs.Prelude.{◌≡◌, IfOk, OnOk, option_map};
ghost use Rattle.syntax.specs.Trees.{struct};
ghost use Rattle.syntax.specs.Views.{ident, array_of, struct_of, variable_of};
ghost use Rattle.resolution.specs.CoreViews.{core_of, core_struct, core_section};
ghost use Rattle.resolution.specs.Core.{global_lock};
ghost use Rattle.resolution.specs.Working.Building.{with_class, with_cell, empty_struct, global_with, array_with, with_section, with_helper, with_thread, with_elements};
ghost use Rattle.types.specs.{calls_in};
ghost use Rattle.types.specs.Working.Grown.{if_right};
ghost use Rattle.types.specs.Working.DeclaredValues.{known, extended_of};

use crate::constant::{default_of, opened};
use crate::pool::cell_at;
use crate::struct_builder::{StructBuilder, StructPlace};
use core_lang::tree::Section;
use core_lang::typed::{Call, Cell, CellOwner, GlobalVariable, LockClass, Thread, Typed};
use core_lang::value::{Value, ValueType};
use core_lang::{shape, typed};
use std::alloc::{AllocError, Global};
use std::mem;
use syntax::tree::{Array, Name, Variable};
use types_symbols::class_of;
use types_symbols::members::Structure;
use types_symbols::scope::type_outside;
use types_symbols::table::SymbolTable;

/// The allocator and the symbol table.
#[derive(Clone, Copy)]
pub struct Builder<'a> {
    pub alloc: Global,
    pub symbols: &'a SymbolTable<'a>,
}

/// The program so far, and whether it has no fault. After a fault nothing more is built.
#[derive(Drop)]
pub struct ProgramBuilder {
    pub program: Typed,
    pub is_right: bool,
}

/// Adds a global lock.
pub fn add_lock(alloc: Global, name: &Name, program: &mut Typed) -> Result<(), AllocError>
    ensures { OnOk result (core_of program.new ≡ with_class (core_of program.old) (global_lock (ident name.now).text)) }
{
    let name = String::from_str(alloc, name.text.as_str())?;
    program.classes.push(LockClass::Global(name))?;
    Ok(())
}

/// Adds a cell.
pub fn add_cell(
    owner: CellOwner,
    value_type: ValueType,
    opening: Value,
    program: &mut Typed,
) -> Result<(), AllocError>
    ensures { OnOk result (core_of program.new ≡ with_cell (core_of program.old) owner value_type opening) }
{
    program.cells.push(Cell {
        owner,
        value_type,
        opening,
    })?;
    Ok(())
}

/// Adds the given number of elements of an array.
fn add_elements(
    array: usize,
    t: ValueType,
    count: u32,
    program: &mut Typed,
) -> Result<(), AllocError>
    ensures { OnOk result (core_of program.new ≡ with_elements (core_of program.old) array t count) }
{
    for index in 0..count {
        let owner = CellOwner::Element {
            array,
            index: index as usize,
        };
        add_cell(owner, t, default_of(t), program)?;
    }
    Ok(())
}

/// Adds a section, if it has no fault.
pub fn add_section(section: Option<Section>, program: &mut Typed) -> Result<bool, AllocError>
    ensures { IfOk result
        (λ right. if_right right program.new ≡ with_section (core_of program.old) (option_map core_section section)) }
{
    let Some(section) = section else {
        return Ok(false);
    };
    program.sections.push(section)?;
    Ok(true)
}

/// Adds a helper, if it has no fault.
pub fn add_helper(helper: Option<Section>, program: &mut Typed) -> Result<bool, AllocError>
    ensures { IfOk result
        (λ right. if_right right program.new ≡ with_helper (core_of program.old) (option_map core_section helper)) }
{
    let Some(helper) = helper else {
        return Ok(false);
    };
    program.shape.helpers.push(helper)?;
    Ok(true)
}

/// A struct without members.
fn empty_struct(alloc: Global, name: &Name) -> Result<typed::Struct, AllocError>
    ensures { IfOk result (λ r. core_struct r ≡ empty_struct (ident name.now).text) }
{
    Ok(typed::Struct {
        name: String::from_str(alloc, name.text.as_str())?,
        locks: Vec::new(alloc),
        finals: Vec::new(alloc),
        fields: Vec::new(alloc),
    })
}

impl<'a> Builder<'a> {
    /// Adds the struct at this place, if it has no fault.
    pub fn add_struct(
        &self,
        place: usize,
        table: &'a Structure<'a>,
        program: &mut Typed,
    ) -> Result<bool, AllocError>
        ensures { IfOk result (λ right. if_right right program.new ≡ extended_of self.now place program.old
            (struct (struct_of table.now))) }
    {
        let here = StructPlace {
            number: program.structs.len(),
            place,
            table,
        };
        let mut builder = StructBuilder {
            structure: empty_struct(self.alloc, &table.item().name)?,
            classes: mem::replace(&mut program.classes, Vec::new(self.alloc)),
        };
        if !self.add_members(&here, &table.item().members, &mut builder)? {
            drop(builder);
            return Ok(false);
        }
        let StructBuilder { structure, classes } = builder;
        program.classes = classes;
        program.structs.push(structure)?;
        Ok(true)
    }

    /// Adds a global, if it has no fault.
    pub fn add_global(&self, v: &Variable, program: &mut Typed) -> Result<bool, AllocError>
        ensures { IfOk result (λ right. if_right right program.new ≡ global_with (known self.now) (core_of program.old)
            (variable_of v.now)) }
    {
        let Some(class) = class_of(self.symbols, &v.protection) else {
            return Ok(false);
        };
        let Some(t) = type_outside(self.symbols, &v.value_type) else {
            return Ok(false);
        };
        let Some(value) = opened(self.symbols, t, v.value.as_ref()) else {
            return Ok(false);
        };
        let Some(cell) = cell_at(program.cells.len()) else {
            return Ok(false);
        };
        let number = program.globals.len();
        program.globals.push(GlobalVariable {
            name: String::from_str(self.alloc, v.name.text.as_str())?,
            cell,
            class,
        })?;
        add_cell(CellOwner::Global(number), t, value, program)?;
        Ok(true)
    }

    /// Adds an array, if it has no fault.
    pub fn add_array(&self, a: &Array, program: &mut Typed) -> Result<bool, AllocError>
        ensures { IfOk result
            (λ right. if_right right program.new ≡ array_with (known self.now) (core_of program.old) (array_of a.now)) }
    {
        let Some(class) = class_of(self.symbols, &a.protection) else {
            return Ok(false);
        };
        let Some(element) = type_outside(self.symbols, &a.value_type) else {
            return Ok(false);
        };
        let Some(first) = cell_at(program.cells.len()) else {
            return Ok(false);
        };
        let Some(length) = cell_at(a.length.value as usize) else {
            return Ok(false);
        };
        let number = program.shape.arrays.len();
        program.shape.arrays.push(shape::Array {
            name: String::from_str(self.alloc, a.name.text.as_str())?,
            first,
            length,
            element,
            class,
        })?;
        add_elements(number, element, length, program)?;
        Ok(true)
    }

    /// Adds a thread, if its calls have no fault.
    pub fn add_thread(
        &self,
        name: &Name,
        calls: Option<Vec<Call>>,
        program: &mut Typed,
    ) -> Result<bool, AllocError>
        ensures { IfOk result (λ right. if_right right program.new ≡ with_thread (core_of program.old)
            (ident name.now).text (calls_in calls)) }
    {
        let Some(calls) = calls else {
            return Ok(false);
        };
        let name = String::from_str(self.alloc, name.text.as_str())?;
        program.threads.push(Thread { name, calls })?;
        Ok(true)
    }
}
