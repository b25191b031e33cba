//! Pools, their objects and the initial values of these.

ghost use Rattle.std.specs.Prelude.{◌≡◌, ◌<◌, ◌^◌, IfOk, option_map, true};
ghost use Rattle.syntax.specs.Trees.{pool};
ghost use Rattle.syntax.specs.Views.{member_of, const_of, pool_of};
ghost use Rattle.resolution.specs.CoreViews.{core_of};
ghost use Rattle.resolution.specs.Working.TypedConstants.{referred};
ghost use Rattle.resolution.specs.Working.Building.{slot_given, opening_of, final_cell, field_cell};
ghost use Rattle.resolution.specs.Limits.{up_to, object_at, cell_at, final_at};
ghost use Rattle.resolution.specs.Working.Findings.{found_in};
ghost use Rattle.resolution.specs.Working.FaultLists.{some_lacks, is_at, is_due, lacks};
ghost use Rattle.types_symbols.specs.{members_seen, decls_of};
ghost use Rattle.types_symbols.specs.Working.Counted.{field_if};
ghost use Rattle.types.specs.Working.Grown.{if_right};
ghost use Rattle.types.specs.Working.Slots.{slot_of};
ghost use Rattle.types.specs.Working.DeclaredValues.{extended_of, with_member_of, with_members_of, with_object_of, with_objects_of, missing_faults_of};

use crate::constant::{opened, typed_const};
use crate::grown::{Builder, add_cell};
use core_lang::shape;
use core_lang::shape::Object;
use core_lang::typed::{CellOwner, Typed};
use core_lang::value::{Value, ValueType};
use resolution::finding::{Firsts, report_if};
use resolution::init_target::InitTarget;
use resolution::wanted::Want;
use source::fault::Code;
use source::limits::{CELL_LIMIT, OBJECT_LIMIT};
use std::alloc::AllocError;
use syntax::tree::{Const, Member, Pool};
use types_symbols::members::Structure;
use types_symbols::scope::{struct_named, type_outside};
use types_symbols::table::SymbolTable;

/// The most final references of all objects together.
const FINAL_PLACES: usize = 2097152;

/// A member of the pool at a place, and its object.
#[derive(Clone, Copy, Debug, PartialEq, Eq)]
pub struct Slot {
    /// The pool's place among the declarations.
    pub pool: usize,
    /// The index of the pool's member, from 0.
    pub index: usize,
    /// The object's number, from 0 over all pools.
    pub object: usize,
}

/// A member of a struct by its place, and the number of the struct's fields before it.
#[derive(Clone, Copy)]
struct MemberPlace {
    place: usize,
    fields: usize,
}

/// A pool by its place among the declarations, its number and the struct of its members.
#[derive(Clone, Copy)]
struct PoolPlace<'a> {
    place: usize,
    number: usize,
    members: &'a [Member],
}

/// The number in 32 bits, if it is at most the limit.
fn up_to(limit: usize, n: usize) -> Option<u32>
    requires { limit < 2 ^ 32 }
    ensures { result ≡ up_to limit n }
{
    if n <= limit { Some(n as u32) } else { None }
}

/// The place of the next object.
pub fn object_at(n: usize) -> Option<u32>
    ensures { result ≡ object_at n }
{
    up_to(OBJECT_LIMIT, n)
}

/// The place of the next cell.
pub fn cell_at(n: usize) -> Option<u32>
    ensures { result ≡ cell_at n }
{
    up_to(CELL_LIMIT, n)
}

/// The place of the next final reference.
fn final_at(n: usize) -> Option<u32>
    ensures { result ≡ final_at n }
{
    up_to(FINAL_PLACES, n)
}

/// The constant that an `init` gives the member at this place of its struct.
fn slot_given<'t>(symbols: &SymbolTable<'t>, slot: Slot, member: usize) -> Option<&'t Const>
    ensures { option_map (λ c. const_of c.now) result ≡ slot_given (decls_of symbols.now) (slot_of slot) member }
{
    symbols.given(InitTarget {
        pool: slot.pool,
        index: slot.index as u64,
        member,
    })
}

/// The object that a final reference to this struct is given.
fn referred(symbols: &SymbolTable, target: Option<usize>, c: Option<&Const>) -> Option<u32>
    ensures { result ≡ referred (decls_of symbols.now) target (option_map (λ x. const_of x.now) c.entry) }
{
    let (Some(target), Some(c)) = (target, c) else {
        return None;
    };
    match typed_const(symbols, Want::Value(ValueType::Reference(target)), c) {
        Some(Value::Ref(Some(object))) => Some(object),
        Some(Value::Ref(None)) | Some(Value::Int(_)) | None => None,
    }
}

/// Adds a final reference, if it has an object.
fn add_final(object: Option<u32>, program: &mut Typed) -> Result<bool, AllocError>
    ensures { IfOk result (λ right. if_right right program.new ≡ final_cell (core_of program.old) object) }
{
    let Some(object) = object else {
        return Ok(false);
    };
    program.shape.finals.push(object)?;
    Ok(true)
}

/// Adds a field's cell, if its type and its initial value have no fault.
fn add_field(
    owner: CellOwner,
    t: Option<ValueType>,
    opening: Option<Value>,
    program: &mut Typed,
) -> Result<bool, AllocError>
    ensures { IfOk result (λ right. if_right right program.new ≡ field_cell (core_of program.old) owner t opening) }
{
    let (Some(t), Some(opening)) = (t, opening) else {
        return Ok(false);
    };
    add_cell(owner, t, opening, program)?;
    Ok(true)
}

/// The initial value of a field, if its type has no fault.
fn opening_of(symbols: &SymbolTable, t: Option<ValueType>, c: Option<&Const>) -> Option<Value>
    ensures { result ≡ opening_of (decls_of symbols.now) t (option_map (λ x. const_of x.now) c.entry) }
{
    match t {
        Some(t) => opened(symbols, t, c),
        None => None,
    }
}

/// 1 if the member is a field, else 0.
fn field_count(m: &Member) -> usize
    ensures { result ≡ field_if true (member_of m.now) }
{
    match m {
        Member::Field(_) => 1,
        Member::Lock(_) | Member::Final(_) => 0,
    }
}

impl<'a> Builder<'a> {
    // Adds a member of an object, if it has no fault.
    fn add_part(
        &self,
        slot: Slot,
        at: MemberPlace,
        m: &Member,
        program: &mut Typed,
    ) -> Result<bool, AllocError>
        ensures { IfOk result
            (λ right. if_right right program.new ≡ with_member_of self.now slot at program.old m.now) }
    {
        let symbols = self.symbols;
        match m {
            Member::Lock(_) => Ok(true),
            Member::Final(f) => {
                let target = struct_named(symbols, &f.target);
                add_final(
                    referred(symbols, target, slot_given(symbols, slot, at.place)),
                    program,
                )
            }
            Member::Field(f) => {
                let t = type_outside(symbols, &f.value_type);
                let owner = CellOwner::Field {
                    object: slot.object,
                    field: at.fields,
                };
                let opening = opening_of(symbols, t, slot_given(symbols, slot, at.place));
                add_field(owner, t, opening, program)
            }
        }
    }

    // Adds the members of an object, if they have no fault.
    fn add_parts(
        &self,
        slot: Slot,
        members: &[Member],
        program: &mut Typed,
    ) -> Result<bool, AllocError>
        ensures { IfOk result
            (λ right. if_right right program.new ≡ with_members_of self.now slot program.old members.now) }
    {
        let mut fields = 0;
        for (place, m) in members.iter().enumerate() {
            if !self.add_part(slot, MemberPlace { place, fields }, m, program)? {
                return Ok(false);
            }
            fields = fields + field_count(m);
        }
        Ok(true)
    }

    // Adds the next object, which is the member of this index of a pool, if it has no fault.
    fn add_object(
        &self,
        pool: &PoolPlace<'a>,
        index: usize,
        program: &mut Typed,
    ) -> Result<bool, AllocError>
        ensures { IfOk result
            (λ right. if_right right program.new ≡ with_object_of self.now pool.now program.old index) }
    {
        let Some(cells) = cell_at(program.cells.len()) else {
            return Ok(false);
        };
        let Some(finals) = final_at(program.shape.finals.len()) else {
            return Ok(false);
        };
        let slot = Slot {
            pool: pool.place,
            index,
            object: program.shape.objects.len(),
        };
        program.shape.objects.push(Object {
            pool: pool.number,
            cells,
            finals,
        })?;
        self.add_parts(slot, pool.members, program)
    }

    // Adds the given number of members of a pool, if they have no fault.
    fn add_objects(
        &self,
        pool: &PoolPlace<'a>,
        count: u32,
        program: &mut Typed,
    ) -> Result<bool, AllocError>
        ensures { IfOk result
            (λ right. if_right right program.new ≡ with_objects_of self.now pool.now program.old count) }
    {
        for index in 0..count {
            if !self.add_object(pool, index as usize, program)? {
                return Ok(false);
            }
        }
        Ok(true)
    }

    /// Adds the pool at this place, if it has no fault.
    pub fn add_pool(&self, place: usize, p: &Pool, program: &mut Typed) -> Result<bool, AllocError>
        ensures { IfOk result
            (λ right. if_right right program.new ≡ extended_of self.now place program.old (pool (pool_of p.now))) }
    {
        let symbols = self.symbols;
        let Some(structure) = struct_named(symbols, &p.target) else {
            return Ok(false);
        };
        let Some((_, table)) = symbols.struct_of(&p.target) else {
            return Ok(false);
        };
        let Some(first) = object_at(program.shape.objects.len()) else {
            return Ok(false);
        };
        let Some(length) = object_at(p.length.value as usize) else {
            return Ok(false);
        };
        let pool = PoolPlace {
            place,
            number: program.shape.pools.len(),
            members: &table.item().members,
        };
        program.shape.pools.push(shape::Pool {
            name: String::from_str(self.alloc, p.name.text.as_str())?,
            first,
            length,
            structure,
        })?;
        self.add_objects(&pool, length, program)
    }
}

/// Whether some of the first `count` members of the pool at a place have no `init` for the member at this place of
/// their struct.
fn some_lacks(symbols: &SymbolTable, pool: usize, member: usize, count: u64) -> bool
    ensures { result ≡ some_lacks (decls_of symbols.now) pool member count }
{
    for index in 0..count {
        let init_target = InitTarget {
            pool,
            index,
            member,
        };
        if symbols.given(init_target).is_none() {
            return true;
        }
    }
    false
}

/// Whether a member is a final reference, the first of its name, whose struct is known.
fn is_due(symbols: &SymbolTable, structure: &Structure, place: usize, m: &Member) -> bool
    ensures { result ≡ is_due (decls_of symbols.now) (members_seen structure.now) place (member_of m.now) }
{
    match m {
        Member::Final(f) => {
            is_at(place, structure.place_of(f.name.text.as_str()))
                && struct_named(symbols, &f.target).is_some()
        }
        Member::Lock(_) | Member::Field(_) => false,
    }
}

/// Whether the name was found, and at this place.
fn is_at(place: usize, found: Option<usize>) -> bool
    ensures { result ≡ is_at place found }
{
    match found {
        Some(first) => first == place,
        None => false,
    }
}

/// Whether some member of the pool at a place has a final reference without an `init`.
fn lacks(symbols: &SymbolTable, pool: usize, count: u64, structure: &Structure) -> bool
    ensures { result ≡ lacks (decls_of symbols.now) pool count (members_seen structure.now) 0
        (members_seen structure.now) }
{
    let members = &structure.item().members;
    for (place, m) in members.iter().enumerate() {
        if is_due(symbols, structure, place, m) && some_lacks(symbols, pool, place, count) {
            return true;
        }
    }
    false
}

/// Notes a pool that has a final reference without an `init`.
pub fn report_missing(symbols: &SymbolTable, place: usize, p: &Pool, firsts: &mut Firsts)
    ensures { firsts.new ≡ found_in firsts.old (missing_faults_of symbols.now place p.now) }
{
    if let Some((_, structure)) = symbols.struct_of(&p.target) {
        let is_missing = lacks(symbols, place, p.length.value, structure);
        report_if(
            is_missing,
            Code::FinalWithoutOpeningValue,
            p.name.start as usize,
            firsts,
        );
    }
}
