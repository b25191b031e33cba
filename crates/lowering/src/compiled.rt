//! Compiled programs.

ghost use Rattle.std.specs.Prelude.{◌≡◌, ◌<◌, length, IfOk};
ghost use Rattle.core_lang.specs.WellFormed.{IsChecked, IsWellFormed};
ghost use Rattle.core_lang_helpers.specs.Data.{IsExpanded};
ghost use Rattle.inserter.specs.Placement.{all_lists};
ghost use Rattle.lockorder.specs.Edges.{AreRanksOf, RiseIn};
ghost use Rattle.lockpaths.specs.Paths.{ArePaths};
ghost use Rattle.locks.specs.Faults.{HasNoFault};
ghost use Rattle.points.specs.Working.Points.{AreAllPointsOf};
ghost use Rattle.lowering.specs.Working.Compiled.{program_of, written_in};

use crate::program_code::{lists_before, lower};
use crate::program_rooms::rooms;
use code::section_code::ProgramCode;
use core_lang::typed::Typed;
use inserter::place_by;
use inserter::placed::Placed;
use layout::lay_out;
use layout::room::Room;
use layout::table::Layout;
use lockorder::ranks::Ranks;
use lockpaths::table::Paths;
use points::table::Points;
use source::memory::NoMemory;
use std::alloc::Global;
use std::marker::Model;

/// An accepted program, and the same with its helpers expanded.
#[derive(Drop)]
pub struct Trees {
    /// The program, with its helpers.
    pub accepted: Typed,
    /// The program with its helpers expanded; `None` if it has none, since then it is the same.
    pub written: Option<Typed>,
}

/// The program that runs: the expanded one, if it is separate.
#[inline]
fn running<'a>(accepted: &'a Typed, written: &'a Option<Typed>) -> &'a Typed
    ensures { result.now ≡ written_in accepted.now written.now }
{
    match written {
        Some(written) => written,
        None => accepted,
    }
}

impl Trees {
    /// The program with its helpers expanded, which is what runs.
    #[inline]
    pub fn program(&self) -> &Typed
        ensures { result.now ≡ program_of self.now }
    {
        running(&self.accepted, &self.written)
    }
}

/// The results of the passes before the lists.
#[derive(Drop)]
pub struct Analyses {
    /// Its lock paths.
    pub paths: Paths,
    /// The points of each section, in the order of [`Typed::sections`].
    pub points: Vec<Points>,
    /// The rank of each lock class.
    pub ranks: Ranks,
}

/// An accepted program with all results of the passes. Its model is its plan.
#[derive(Drop)]
pub struct Program {
    accepted: Typed,
    written: Option<Typed>,
    paths: Paths,
    ranks: Ranks,
    placed: Placed,
    layout: Layout,
    code: ProgramCode,
    rooms: Vec<Room>,
}

impl Model for Program {
    ghost use Rattle.core_lang.specs.contracts.tree.Action as action;
    ghost use Rattle.core_lang.specs.contracts.tree.Expr as expr;
    ghost use Rattle.core_lang.specs.contracts.tree.Condition as condition;
    ghost use Rattle.std.specs.Coded.{codes};
    ghost use Rattle.lowering.specs.Plans.{Plan};
    ghost use Rattle.lowering.specs.Working.Compiled.{plan_of, written_in, IsProgram};

    ghost Value = { Plan };

    ghost coded = { Prim.hlevel (codes, action.the_row.coded, expr.the_row.coded, condition.the_row.coded) };

    ghost view = { λ p. plan_of p.accepted (written_in p.accepted p.written) p.ranks.items p.placed p.layout };

    ghost invariant = { λ p. let plan = plan_of p.accepted (written_in p.accepted p.written) p.ranks.items p.placed
        p.layout in
        IsProgram plan p.paths p.code p.rooms.items };
}

impl Program {
    ghost use Rattle.lowering.specs.Plans.{IsCompiled};
    ghost use Rattle.code.specs.Lowering.{lists_at};
    ghost use Rattle.code.specs.Working.NumberLists.{number_lists};
    ghost use Rattle.lowering.specs.Working.Lowered.{IsCodeOf};
    ghost use Rattle.lowering.specs.Working.Compiled.{IsRoomAt};

    /// Compiles an accepted program, given its trees with and without helpers and the results of the passes. The points
    /// are dropped as soon as the lists are made.
    ///
    /// # Errors
    ///
    /// Out of memory.
    pub fn of(alloc: Global, trees: Trees, found: Analyses) -> Result<Program, NoMemory>
        requires checked { IsChecked trees.accepted }
        requires expanded { IsExpanded trees.accepted (program_of trees) }
        requires program { IsWellFormed (program_of trees) }
        requires paths { ArePaths (program_of trees) found.paths }
        requires stable { HasNoFault (program_of trees) }
        requires points { AreAllPointsOf (program_of trees) found.points.items }
        requires ranked { AreRanksOf (program_of trees) found.ranks.items }
        requires rise { RiseIn (program_of trees) found.ranks.items }
        ensures accepted { IfOk result (λ made. made.accepted ≡ trees.accepted) }
        ensures program { IfOk result (λ made. made.program ≡ program_of trees) }
        ensures compiled { IfOk result IsCompiled }
    {
        let Analyses {
            paths,
            points,
            ranks,
        } = found;
        let program = trees.program();
        let placed = place_by(alloc, program, &points, &ranks)?;
        drop(points);
        let layout = lay_out(alloc, program)?;
        let code = lower(alloc, program, &placed)?;
        let rooms = rooms(alloc, program, &code, &paths, &layout)?;
        let Trees { accepted, written } = trees;
        Ok(Program {
            accepted,
            written,
            paths,
            ranks,
            placed,
            layout,
            code,
            rooms,
        })
    }

    /// The accepted program, with its helpers.
    #[inline]
    pub fn typed(&self) -> &Typed
        ensures accepted { result.now ≡ self.now.accepted }
        ensures compiled { IsCompiled self.now }
    {
        &self.accepted
    }

    /// The program with its helpers expanded, which is what runs. The crates above use that it is compiled.
    #[inline]
    pub fn expanded(&self) -> &Typed
        ensures program { result.now ≡ self.now.program }
        ensures compiled { IsCompiled self.now }
    {
        running(&self.accepted, &self.written)
    }

    /// The number of its threads.
    #[inline]
    pub fn threads(&self) -> u32
        ensures { result ≡ length self.now.program.threads.items }
    {
        self.expanded().threads.len() as u32
    }

    /// The lock paths of its sections.
    #[inline]
    pub fn paths(&self) -> &Paths
        ensures { ArePaths self.now.program result.now }
    {
        &self.paths
    }

    /// The ranks of its lock classes.
    #[inline]
    pub fn ranks(&self) -> &[u32]
        ensures { result.now ≡ self.now.ranks }
    {
        self.ranks.as_slice()
    }

    /// The lists of lock paths before the points of its sections.
    #[inline]
    pub fn placed(&self) -> &Placed
        ensures { all_lists result.now ≡ self.now.lists }
    {
        &self.placed
    }

    /// The lists of lock paths before the points of the section of this number, or none if it has no such section.
    #[inline]
    pub fn lists_before(&self, section: usize) -> &[Vec<u8>]
        ensures { number_lists result.now ≡ lists_at self.now.lists section }
    {
        lists_before(self.placed(), section)
    }

    /// The layout of its cells and locks.
    #[inline]
    pub fn layout(&self) -> &Layout
        ensures { result.now ≡ self.now.layout }
    {
        &self.layout
    }

    /// The code of its sections.
    #[inline]
    pub fn code(&self) -> &ProgramCode
        ensures { IsCodeOf self.now.program self.now.lists result.now }
    {
        &self.code
    }

    /// The room that one run of each section needs.
    #[inline]
    pub fn room(&self, section: usize) -> Room
        requires { section < length self.now.program.sections.items }
        ensures { IsRoomAt self.now section result }
    {
        self.rooms[section]
    }
}
