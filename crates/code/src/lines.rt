//! Writes the listing of a section, piece by piece. The only error is a failed allocation.

ghost use Rattle.std.specs.Prelude.{◌≡◌, ◌+◌, ◌++◌, codes, map, OnOk, IfOk, string_bytes};
ghost use Rattle.std.specs.Fmt.{decimal};
ghost use Rattle.std.specs.List.Sorted.{IsNonDecreasing};
ghost use Rattle.std.proofs.Props.{props};
ghost use Rattle.code.specs.Listing.{array_text, pool_text, final_of, final_text, where_text, field_of, field_text};
ghost use Rattle.code.specs.Listing.{operator_text, comparison_text, section_text};
ghost use Rattle.code.specs.Lowering.{section_code};
ghost use Rattle.locks.specs.LockPaths.{lock_path_of, lock_paths};
ghost use Rattle.locks.specs.Texts.{AddsText, path_text};
ghost use Rattle.rope.specs.Working.Ropes.{Grows, AddsTo};
ghost use Rattle.code.specs.Working.Naming.{IsIndexOf, IsMnemonic, AddsBare, operand_text};

use crate::instr::Instr;
use crate::listed::Listed;
use crate::places::SectionPlaces;
use core_lang::tree::{Comparison, Operator, Section};
use core_lang::typed::{GlobalVariable, Struct, Typed};
use indexmap::IndexMap;
use locks::path::LockPath;
use locks::text::push_path;
use rope::Rope;
use source::memory::NoMemory;
use std::alloc::{AllocError, Global};

/// Appends a number.
fn push_number(out: &mut String, number: usize) -> Result<(), AllocError>
    ensures { OnOk result (AddsText (decimal number) out.old out.new) }
{
    write!(out, "{number}")
}

/// Appends the name of an array, by its number.
fn push_array(out: &mut String, program: &Typed, array: usize) -> Result<(), AllocError>
    ensures { OnOk result (AddsText (array_text program.now array) out.old out.new) }
{
    match program.shape.arrays.get(array) {
        Some(array) => out.push_str(array.name.as_str()),
        None => Ok(()),
    }
}

/// Appends the name of a pool, by its number.
fn push_pool(out: &mut String, program: &Typed, pool: usize) -> Result<(), AllocError>
    ensures { OnOk result (AddsText (pool_text program.now pool) out.old out.new) }
{
    match program.shape.pools.get(pool) {
        Some(pool) => out.push_str(pool.name.as_str()),
        None => Ok(()),
    }
}

/// Appends a final reference of a struct, as `S.f`, by its number.
fn push_final_of(out: &mut String, structure: &Struct, number: usize) -> Result<(), AllocError>
    ensures { OnOk result (AddsText (final_of structure.now number) out.old out.new) }
{
    out.push_str(structure.name.as_str())?;
    out.push_str(".")?;
    match structure.finals.get(number) {
        Some(field) => out.push_str(field.name.as_str()),
        None => Ok(()),
    }
}

/// Appends a final reference of a struct, as `S.f`, by the numbers of both.
fn push_final(
    out: &mut String,
    program: &Typed,
    structure: usize,
    number: usize,
) -> Result<(), AllocError>
    ensures { OnOk result (AddsText (final_text program.now structure number) out.old out.new) }
{
    match program.structs.get(structure) {
        Some(structure) => push_final_of(out, structure, number),
        None => Ok(()),
    }
}

/// Appends a final reference of a struct and a local, as `S.f 3`.
fn push_where(
    out: &mut String,
    program: &Typed,
    structure: usize,
    number: usize,
    local: usize,
) -> Result<(), AllocError>
    ensures { OnOk result (AddsText (where_text program.now structure number local) out.old out.new) }
{
    push_final(out, program, structure, number)?;
    out.push_str(" ")?;
    push_number(out, local)
}

/// Appends a field of a struct, as `S.f`, by its number.
fn push_field_of(out: &mut String, structure: &Struct, number: usize) -> Result<(), AllocError>
    ensures { OnOk result (AddsText (field_of structure.now number) out.old out.new) }
{
    out.push_str(structure.name.as_str())?;
    out.push_str(".")?;
    match structure.fields.get(number) {
        Some(field) => out.push_str(field.name.as_str()),
        None => Ok(()),
    }
}

/// Appends a field of a struct, as `S.f`, by the numbers of both.
fn push_field(
    out: &mut String,
    program: &Typed,
    structure: usize,
    number: usize,
) -> Result<(), AllocError>
    ensures { OnOk result (AddsText (field_text program.now structure number) out.old out.new) }
{
    match program.structs.get(structure) {
        Some(structure) => push_field_of(out, structure, number),
        None => Ok(()),
    }
}

/// Appends the place that is reached from `place` by skipping `over` instructions.
fn push_target(out: &mut String, place: usize, over: usize) -> Result<(), AllocError>
    ensures { OnOk result (AddsText (decimal (place + 1 + over)) out.old out.new) }
{
    // in 128 bits, so that every jump's target fits
    let target = place as u128 + 1 + over as u128;
    write!(out, "{target}")
}

/// The word for an operator.
fn operator_word(operator: Operator) -> &'static str
    ensures { result.now ≡ operator_text operator }
{
    match operator {
        Operator::Add => "add",
        Operator::Sub => "sub",
        Operator::Mul => "mul",
        Operator::Div => "div",
        Operator::Rem => "rem",
    }
}

/// The word for a comparison.
fn comparison_word(comparison: Comparison) -> &'static str
    ensures { result.now ≡ comparison_text comparison }
{
    match comparison {
        Comparison::Equal => "eq",
        Comparison::NotEqual => "ne",
        Comparison::Less => "lt",
        Comparison::LessOrEqual => "le",
        Comparison::Greater => "gt",
        Comparison::GreaterOrEqual => "ge",
    }
}

/// The word for an instruction, with the space after it if an operand follows.
fn mnemonic(instr: Instr) -> &'static str
    ensures { IsMnemonic instr result.now }
{
    match instr {
        Instr::PushNumber(_) => "int ",
        Instr::PushNull => "null",
        Instr::GetLocal(_) => "get ",
        Instr::PutLocal(_) => "set ",
        Instr::LoadGlobal(_) => "load ",
        Instr::PutGlobal(_) => "store ",
        Instr::LoadElement(_) => "elem ",
        Instr::Bound(_) => "bound ",
        Instr::PutElement(_) => "putelem ",
        Instr::GetMember(_) => "member ",
        Instr::LoadFinal { .. } => "final ",
        Instr::LoadField { .. } => "field ",
        Instr::NonNull => "nonnull",
        Instr::PutField { .. } => "putfield ",
        Instr::Where { .. } => "where ",
        Instr::NegateTop => "neg",
        Instr::NotTop => "not",
        Instr::Operate(operator) => operator_word(operator),
        Instr::Test(comparison) => comparison_word(comparison),
        Instr::Jump(_) | Instr::JumpBack(_) => "jump ",
        Instr::JumpIfFalse(_) => "jfalse ",
        Instr::JumpIfTrue(_) => "jtrue ",
        Instr::PrintTop => "print",
        Instr::Acquire(_) => "acquire",
        Instr::Return => "ret",
        Instr::End => "end",
    }
}

/// For each cell the first global that has it. The only error is a failed allocation.
fn index_by_cell<'a>(
    alloc: Global,
    globals: &'a [GlobalVariable],
) -> Result<IndexMap<u32, &'a GlobalVariable>, AllocError>
    ensures { IfOk result (IsIndexOf globals.now) }
{
    let mut index = IndexMap::new(alloc);
    // from the last one on, so that the first global of a cell is the one that stays
    for global in globals.iter().rev() {
        index.insert(global.cell, global)?;
    }
    Ok(index)
}

/// What the texts of instructions need beside the sections.
#[derive(Drop)]
pub struct Lister<'a> {
    /// The program, which has the names.
    program: &'a Typed,
    /// For each cell the first global that has it. A line may name any global, and a search through all of them would
    /// be slow.
    globals: IndexMap<u32, &'a GlobalVariable>,
    ghost indexed: { IsIndexOf program.now.globals.items globals } by { Prim.hlevel props },
}

impl<'a> Lister<'a> {
    ghost use Rattle.code.specs.Listing.{global_text};
    ghost use Rattle.code.specs.Working.Listers.{program_of};
    ghost use Rattle.code.specs.Working.Asked.{lists_of};
    ghost use Rattle.code.specs.Working.Sections.{front_of};

    /// A lister for the code of `program`. The only error is a failed allocation.
    pub fn new(alloc: Global, program: &'a Typed) -> Result<Lister<'a>, AllocError>
        ensures { IfOk result (λ lister. program_of lister ≡ program.now) }
    {
        let globals = index_by_cell(alloc, &program.globals)?;
        Ok(Lister { program, globals })
    }

    // Appends the name of the global with a cell.
    fn push_global(&self, out: &mut String, cell: u32) -> Result<(), AllocError>
        ensures { OnOk result (AddsText (global_text self.now.program.now cell) out.old out.new) }
    {
        match self.globals.get(&cell) {
            Some(global) => out.push_str(global.name.as_str()),
            None => Ok(()),
        }
    }

    // Appends what follows the word of an instruction at this place of a section, except lock paths.
    fn push_operand(&self, out: &mut String, place: usize, instr: Instr) -> Result<(), AllocError>
        ensures { OnOk result (AddsText (operand_text self.now.program.now place instr) out.old out.new) }
    {
        let program = self.program;
        match instr {
            Instr::PushNumber(number) => write!(out, "{number}"),
            Instr::GetLocal(local) | Instr::PutLocal(local) => push_number(out, local),
            Instr::LoadGlobal(cell) | Instr::PutGlobal(cell) => self.push_global(out, cell),
            Instr::LoadElement(array) | Instr::Bound(array) | Instr::PutElement(array) => {
                push_array(out, program, array)
            }
            Instr::GetMember(pool) => push_pool(out, program, pool),
            Instr::LoadFinal { structure, number } => {
                push_final(out, program, structure, number as usize)
            }
            Instr::LoadField { structure, number } | Instr::PutField { structure, number } => {
                push_field(out, program, structure, number as usize)
            }
            Instr::Where {
                number,
                structure,
                local,
            } => push_where(
                out,
                program,
                structure as usize,
                number as usize,
                local as usize,
            ),
            Instr::Jump(over) | Instr::JumpIfFalse(over) | Instr::JumpIfTrue(over) => {
                push_target(out, place, over)
            }
            Instr::JumpBack(back) => push_number(out, place.saturating_sub(back)),
            // the others are only words, except for the lock paths of an `acquire`
            _ => Ok(()),
        }
    }

    /// Appends an instruction at this place of a section, without the lock paths that it asks for.
    pub fn push_instr(&self, out: &mut String, place: usize, instr: Instr) -> Result<(), AllocError>
        ensures { OnOk result (AddsBare (program_of self.now) place instr out.old out.new) }
    {
        out.push_str(mnemonic(instr))?;
        self.push_operand(out, place, instr)
    }

    /// Appends the lines of a section. If its places in the program's text are given, each line has the position of its
    /// statement.
    ///
    /// # Errors
    ///
    /// Out of memory.
    pub fn push(
        &self,
        alloc: Global,
        out: &mut Rope,
        listed: Listed<'_>,
        places: Option<&SectionPlaces>,
    ) -> Result<(), NoMemory>
        requires paths { map lock_path_of listed.paths.now ≡ lock_paths (program_of self.now) listed.section.now }
        requires code { listed.code.now.instructions.items ≡ section_code (lists_of listed) listed.section.now }
        requires rises { IsNonDecreasing listed.code.now.begins.items }
        ensures { OnOk result
            (Grows (section_text (program_of self.now) listed.entry.section.now (lists_of listed.entry)
            (front_of places.entry listed.entry.code.now)) out.old out.new) }
    {
        let lines = SectionLines {
            lister: self,
            listed,
            places,
            group: out.keep(path_texts(alloc, self.program, listed.section, listed.paths)?)?,
        };
        out.push_str("section ")?;
        out.push_str(listed.section.name.as_str())?;
        out.push_str("\n")?;
        lines.push(alloc, out)?;
        Ok(())
    }
}

/// What the lines of a section need.
#[derive(Drop)]
struct SectionLines<'a> {
    lister: &'a Lister<'a>,
    listed: Listed<'a>,
    places: Option<&'a SectionPlaces>,
    // The index of the group of parts with the texts of the section's lock paths.
    group: usize,
}

impl SectionLines<'_> {
    ghost use Rattle.code.specs.Working.Sections.{HasPathsOf, paths_text_of, asked_text_of};
    ghost use Rattle.code.specs.Working.Sections.{front_text_of, line_text_of, instrs_text_of, begins_of};

    // Appends lock paths, with a space before each.
    fn push_paths(&self, out: &mut Rope, list: &[u8]) -> Result<(), AllocError>
        requires { HasPathsOf self.now out.old }
        ensures { OnOk result (AddsTo (paths_text_of self.now list.now) out.old out.new) }
    {
        for number in list {
            out.push_str(" ")?;
            out.push_part(self.group, *number as usize)?;
        }
        Ok(())
    }

    // Appends the lock paths that an instruction asks for.
    fn push_asked(&self, out: &mut Rope, instr: Instr) -> Result<(), AllocError>
        requires { HasPathsOf self.now out.old }
        ensures { OnOk result (AddsTo (asked_text_of self.now instr) out.old out.new) }
    {
        self.push_paths(out, self.listed.asked(instr))
    }

    // Appends the position of the instruction in the program's text, if positions are given.
    fn push_front(&self, line: &mut String, place: usize) -> Result<(), AllocError>
        requires { IsNonDecreasing (begins_of self.now) }
        ensures { OnOk result (AddsText (front_text_of self.now place) line.old line.new) }
    {
        match self.places {
            Some(places) => places.push(line, self.listed.code, place),
            None => Ok(()),
        }
    }

    // Appends the line of an instruction. The content of `line` does not matter.
    fn push_line(
        &self,
        out: &mut Rope,
        line: &mut String,
        place: usize,
        instr: Instr,
    ) -> Result<(), AllocError>
        requires paths { HasPathsOf self.now out.old }
        requires rises { IsNonDecreasing (begins_of self.now) }
        ensures { OnOk result (AddsTo (line_text_of self.now place instr) out.old out.new) }
    {
        line.clear();
        self.push_front(line, place)?;
        self.lister.push_instr(line, place, instr)?;
        out.push_number(place)?;
        out.push_str(" ")?;
        out.push_str(line)?;
        self.push_asked(out, instr)?;
        out.push_str("\n")
    }

    // Appends the lines of the section's instructions.
    fn push(&self, alloc: Global, out: &mut Rope) -> Result<(), AllocError>
        requires paths { HasPathsOf self.now out.old }
        requires rises { IsNonDecreasing (begins_of self.now) }
        ensures { OnOk result (AddsTo (instrs_text_of self.now) out.old out.new) }
    {
        let mut line = String::new(alloc);
        for (place, instr) in self.listed.code.instructions.iter().enumerate() {
            self.push_line(out, &mut line, place, *instr)?;
        }
        Ok(())
    }
}

/// The texts of the lock paths of a section.
///
/// # Errors
///
/// Out of memory.
pub fn path_texts(
    alloc: Global,
    program: &Typed,
    section: &Section,
    paths: &[LockPath],
) -> Result<Vec<String>, NoMemory>
    ensures { IfOk result (λ texts. map string_bytes texts.items
        ≡ map (path_text program.now section.now) (map lock_path_of paths.now)) }
{
    let mut texts = Vec::with_capacity(alloc, paths.len())?;
    for path in paths {
        let mut text = String::new(alloc);
        push_path(&mut text, program, section, path)?;
        texts.push(text)?;
    }
    Ok(texts)
}
