//! Writes the instructions of a section as C text. The only error is a failed allocation.

ghost use Rattle.std.specs.Prelude.{◌<◌, ◌+◌, length, OnOk, IfOk};
ghost use Rattle.std.specs.List.Sorted.{IsNonDecreasing};
ghost use Rattle.locks.specs.Texts.{AddsText};
ghost use Rattle.c_sections.specs.Instructions as text;

use crate::groups::Groups;
use crate::marks::{LineMarks, push_flat, push_unmarked};
use crate::targets::jump_targets;
use c_language::statement::Statement;
use c_statements::acquires::Acquires;
use c_statements::operands::OperandScope;
use code::Listed;
use code::instr::Instr;
use core_lang::typed::Typed;
use source::memory::NoMemory;
use std::alloc::{AllocError, Global};

/// What the text of a section's instructions needs.
#[derive(Drop)]
pub struct InstructionLines<'a> {
    scope: OperandScope<'a>,
    listed: Listed<'a>,
    // For each place, whether a jump leads there.
    targets: Vec<bool>,
}

impl<'a> InstructionLines<'a> {
    ghost use Rattle.c_sections.specs.Working.Bodies.{IsBodyOf, HasTargets, HasPlan, code_of};
    ghost use Rattle.c_sections.specs.Working.Bodies.{IsAt, label_of, asked_of, group_of, instr_of, instrs_of};
    ghost use Rattle.c_sections.specs.Working.Bodies.{begins_of, body_of};
    ghost use Rattle.c_sections.specs.Working.Marked.{marks_of};

    /// The instructions of a section of the program.
    pub fn new(
        alloc: Global,
        program: &'a Typed,
        listed: Listed<'a>,
    ) -> Result<InstructionLines<'a>, NoMemory>
        ensures body { IfOk result (λ lines. IsBodyOf program.now listed.entry lines) }
        ensures targets { IfOk result HasTargets }
    {
        let targets = jump_targets(alloc, &listed.code.instructions)?;
        Ok(InstructionLines {
            scope: OperandScope {
                program,
                section: listed.section,
            },
            listed,
            targets,
        })
    }

    // Appends a label, if a jump leads to this place.
    fn push_label(&self, out: &mut String, place: usize) -> Result<(), AllocError>
        requires targets { HasTargets self.now }
        requires within { place < length (code_of self.now) }
        ensures { OnOk result (AddsText (label_of self.now place) out.old out.new) }
    {
        if self.targets[place] {
            return write!(out, "L{place}:\n");
        }
        Ok(())
    }

    // Appends the acquire of the locks that an instruction asks for.
    fn push_asked(&self, alloc: Global, out: &mut String, instr: Instr) -> Result<(), NoMemory>
        ensures { OnOk result (AddsText (asked_of self.now instr) out.old out.new) }
    {
        let acquires = Acquires {
            scope: self.scope,
            paths: self.listed.paths,
        };
        match instr {
            Instr::Acquire(_) => acquires.push(alloc, out, self.listed.asked(instr)),
            _ => Ok(()),
        }
    }

    // Appends the statements of an instruction.
    fn push_group(&self, out: &mut String, group: &[Statement]) -> Result<(), AllocError>
        ensures { OnOk result (AddsText (group_of self.now group.now) out.old out.new) }
    {
        for statement in group {
            self.scope.push_statement(out, *statement)?;
        }
        Ok(())
    }

    // Appends the next instruction.
    fn push_next(
        &self,
        alloc: Global,
        out: &mut String,
        groups: &mut Groups<'_>,
        place: usize,
    ) -> Result<(), NoMemory>
        requires targets { HasTargets self.now }
        requires within { place < length (code_of self.now) }
        requires plan { HasPlan self.now }
        requires stands { IsAt self.now place groups.old }
        ensures stands { OnOk result (IsAt self.now (place + 1) groups.new) }
        ensures text { OnOk result (AddsText (instr_of self.now place) out.old out.new) }
    {
        self.push_label(out, place)?;
        let instr = groups.pass(&self.listed.code.instructions, place)?;
        self.push_asked(alloc, out, instr)?;
        self.push_group(out, &groups.statements)?;
        Ok(())
    }

    // Appends the instructions.
    fn push_plain(&self, alloc: Global, out: &mut String) -> Result<(), NoMemory>
        requires targets { HasTargets self.now }
        requires plan { HasPlan self.now }
        ensures { OnOk result (AddsText (instrs_of self.now) out.old out.new) }
    {
        let mut groups = Groups::new(alloc, self.scope.program);
        for place in 0..self.listed.code.instructions.len() {
            self.push_next(alloc, out, &mut groups, place)?;
        }
        Ok(())
    }

    /// Appends the instructions. With marks, those of each point are on one line, after a directive with the line of
    /// the program's file.
    pub fn push(
        &self,
        alloc: Global,
        out: &mut String,
        marks: Option<LineMarks<'_>>,
    ) -> Result<(), NoMemory>
        requires targets { HasTargets self.now }
        requires plan { HasPlan self.now }
        requires rises { IsNonDecreasing (begins_of self.now) }
        ensures { OnOk result
            (AddsText (body_of self.now (marks_of marks.entry self.now.listed.code.now)) out.old out.new) }
    {
        match marks {
            None => self.push_plain(alloc, out),
            Some(marks) => MarkedLines { lines: self, marks }.push(alloc, out),
        }
    }
}

/// The text of a section's instructions, each on one line after the directives of its lines of the program's file.
#[derive(Clone, Copy)]
struct MarkedLines<'a> {
    lines: &'a InstructionLines<'a>,
    marks: LineMarks<'a>,
}

impl MarkedLines<'_> {
    ghost use Rattle.c_sections.specs.Working.Bodies.{HasTargets, HasPlan, IsAt, marked_of, all_marked, begins_of, code_of};
    ghost use Rattle.c_sections.specs.Working.Marked.{mark_in};

    // Appends the next instruction.
    fn push_next(
        &self,
        alloc: Global,
        out: &mut String,
        groups: &mut Groups<'_>,
        place: usize,
    ) -> Result<(), NoMemory>
        requires targets { HasTargets self.now.lines.now }
        requires within { place < length (code_of self.now.lines.now) }
        requires plan { HasPlan self.now.lines.now }
        requires rises { IsNonDecreasing (begins_of self.now.lines.now) }
        requires stands { IsAt self.now.lines.now place groups.old }
        ensures stands { OnOk result (IsAt self.now.lines.now (place + 1) groups.new) }
        ensures text { OnOk result (AddsText
            (marked_of self.now.lines.now (mark_in self.now.marks (begins_of self.now.lines.now)) place) out.old
            out.new) }
    {
        let lines = self.lines;
        self.marks.push(out, lines.listed.code, place)?;
        let mut line = String::new(alloc);
        lines.push_next(alloc, &mut line, groups, place)?;
        push_flat(out, &line)?;
        Ok(())
    }

    // Appends the instructions.
    fn push(&self, alloc: Global, out: &mut String) -> Result<(), NoMemory>
        requires targets { HasTargets self.now.lines.now }
        requires plan { HasPlan self.now.lines.now }
        requires rises { IsNonDecreasing (begins_of self.now.lines.now) }
        ensures { OnOk result (AddsText
            (all_marked self.now.lines.now (mark_in self.now.marks (begins_of self.now.lines.now))) out.old out.new) }
    {
        let lines = self.lines;
        let mut groups = Groups::new(alloc, lines.scope.program);
        for place in 0..lines.listed.code.instructions.len() {
            self.push_next(alloc, out, &mut groups, place)?;
        }
        push_unmarked(out)?;
        Ok(())
    }
}
