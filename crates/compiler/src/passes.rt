//! The passes in order.

ghost use Rattle.std.specs.Prelude.{◌≡◌, IfOk, IfErr};
ghost use Rattle.core_lang.specs.WellFormed.{IsChecked, IsWellFormed};
ghost use Rattle.core_lang_helpers.specs.Data.{IsExpanded};
ghost use Rattle.lockorder.specs.Faults.{IsCycleOf, IsFaultAtFirst, IsFaultOf};
ghost use Rattle.lockpaths.specs.Paths.{ArePaths};
ghost use Rattle.lowering.specs.Plans.{IsCompiled};
ghost use Rattle.lowering.specs.Working.Compiled.{program_of};
ghost use Rattle.points.specs.Working.Points.{AreAllPointsOf};
ghost use Rattle.compiler.specs.Cycles.{IsBare, IsCyclic};
ghost use Rattle.compiler.specs.Programs.{Accepts, IsForMemory, IsRefusal};
ghost use Rattle.compiler.specs.Working.Orders.{IsOrdered};

use core_lang::typed::Typed;
use core_lang_helpers::laws::a_program_without_helpers_is_its_own_expansion;
use core_lang_helpers::program::expand;
use lexer::lex;
use lockorder::order_by;
use lockorder::ranks::{Cycle, Edge, OrderRefusal, Ranks};
use lockpaths::paths;
use lockpaths::table::Paths;
use lowering::compiled::{Analyses, Program, Trees};
use parser::parse;
use points::all_points;
use points::table::Points;
use resolution::laws::one_program;
use source::fault::{Fault, Refusal};
use source::memory::NoMemory;
use std::alloc::Global;
use types::program::check;

/// The program of a text, with an order of its lock classes.
#[derive(Drop)]
pub struct Ordered {
    /// The accepted program, and the same with its helpers expanded.
    pub trees: Trees,
    /// Its lock paths.
    pub paths: Paths,
    /// The points of each of its sections.
    pub points: Vec<Points>,
    /// The rank of each lock class.
    pub ranks: Ranks,
}

/// The program of a text, with a cycle of its lock classes.
#[derive(Drop)]
pub struct Cyclic {
    /// The checked program, and the same with its helpers expanded.
    pub trees: Trees,
    /// Its lock paths.
    pub paths: Paths,
    /// The edges of a cycle of its lock classes.
    pub edges: Vec<Edge>,
    /// The fault of the cycle.
    pub fault: Fault,
}

// The program with its helpers expanded.
fn written_out(alloc: Global, program: &Typed) -> Result<Typed, Refusal>
    requires { IsChecked program.now }
    ensures expanded { IfOk result (IsExpanded program.now) }
    ensures well_formed { IfOk result IsWellFormed }
    ensures fault { IfErr result IsForMemory }
{
    match expand(alloc, program) {
        Ok(written) => Ok(written),
        Err(NoMemory) => Err(Refusal::NoMemory),
    }
}

// The accepted program, and the same with its helpers expanded; one tree if it has none.
fn trees(alloc: Global, accepted: Typed) -> Result<Trees, Refusal>
    requires { IsChecked accepted }
    ensures accepted { IfOk result (λ trees. trees.accepted ≡ accepted) }
    ensures expanded { IfOk result (λ trees. IsExpanded accepted (program_of trees)) }
    ensures well_formed { IfOk result (λ trees. IsWellFormed (program_of trees)) }
    ensures fault { IfErr result IsForMemory }
{
    a_program_without_helpers_is_its_own_expansion();
    if accepted.shape.helpers.is_empty() {
        return Ok(Trees {
            accepted,
            written: None,
        });
    }
    let written = written_out(alloc, &accepted)?;
    Ok(Trees {
        accepted,
        written: Some(written),
    })
}

// The points of each of the program's sections.
fn points_found(alloc: Global, program: &Typed, paths: &Paths) -> Result<Vec<Points>, Refusal>
    requires { ArePaths program.now paths.now }
    ensures points { IfOk result (λ points. AreAllPointsOf program.now points.items) }
    ensures fault { IfErr result IsForMemory }
{
    match all_points(alloc, program, paths) {
        Ok(points) => Ok(points),
        Err(NoMemory) => Err(Refusal::NoMemory),
    }
}

// The facts about a program whose lock classes have a cycle.
fn with_cycle(alloc: Global, trees: Trees, paths: Paths, cycle: Cycle) -> Result<Cyclic, Refusal>
    requires { IsCycleOf (program_of trees) cycle.edges.items }
    ensures trees { IfOk result (λ found. found.trees ≡ trees) }
    ensures paths { IfOk result (λ found. found.paths ≡ paths) }
    ensures cycle { IfOk result (λ found. IsCycleOf (program_of trees) found.edges.items) }
    ensures first { IfOk result (λ found. IsFaultAtFirst (program_of trees) found.fault) }
    ensures told { IfOk result (λ found. IsFaultOf (program_of trees) found.edges.items found.fault) }
    ensures memory { IfErr result IsForMemory }
{
    match cycle.fault(alloc, trees.program()) {
        Ok(fault) => Ok(Cyclic {
            trees,
            paths,
            edges: cycle.edges,
            fault,
        }),
        Err(NoMemory) => {
            drop(trees);
            drop(paths);
            drop(cycle);
            Err(Refusal::NoMemory)
        }
    }
}

/// The program of a text with the order of its lock classes, or with a cycle of them.
///
/// # Errors
///
/// The fault of the first pass that has one, if it is not a fault of the order of locks; or out of memory.
pub fn examine(alloc: Global, text: &[u8]) -> Result<Result<Ordered, Cyclic>, Refusal>
    ensures order { IfOk result (λ found. IfOk found (IsOrdered text.now)) }
    ensures cycle { IfOk result (λ found. IfErr found (IsCyclic text.now)) }
    ensures fault { IfErr result (IsRefusal text.now) }
    ensures bare { IfErr result IsBare }
{
    one_program();
    let tokens = lex(alloc, text)?;
    let tree = parse(alloc, &tokens)?;
    drop(tokens);
    let accepted = check(alloc, &tree)?;
    drop(tree);
    let trees = trees(alloc, accepted)?;
    let found = paths(alloc, trees.program())?;
    let points = points_found(alloc, trees.program(), &found)?;
    match order_by(alloc, trees.program(), &points) {
        Ok(ranks) => Ok(Ok(Ordered {
            trees,
            paths: found,
            points,
            ranks,
        })),
        Err(OrderRefusal::Cycle(cycle)) => {
            drop(points);
            match with_cycle(alloc, trees, found, cycle) {
                Ok(cyclic) => Ok(Err(cyclic)),
                Err(refusal) => Err(refusal),
            }
        }
        Err(OrderRefusal::NoMemory) => {
            drop(trees);
            drop(found);
            drop(points);
            Err(Refusal::NoMemory)
        }
    }
}

/// The compiled program that the text means.
///
/// # Errors
///
/// The fault of the first pass that has one, or out of memory.
pub fn compile(alloc: Global, text: &[u8]) -> Result<Program, Refusal>
    ensures accepts { IfOk result (λ made. Accepts text.now made.accepted) }
    ensures compiled { IfOk result IsCompiled }
    ensures fault { IfErr result (IsRefusal text.now) }
{
    match examine(alloc, text)? {
        Ok(ordered) => {
            let found = Analyses {
                paths: ordered.paths,
                points: ordered.points,
                ranks: ordered.ranks,
            };
            match Program::of(alloc, ordered.trees, found) {
                Ok(program) => Ok(program),
                Err(NoMemory) => Err(Refusal::NoMemory),
            }
        }
        Err(cyclic) => Err(Refusal::Fault(cyclic.fault)),
    }
}
