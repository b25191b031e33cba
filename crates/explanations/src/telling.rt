//! The report on a text. The one error is a refused growth.

ghost use Rattle.std.specs.Prelude.{◌≡◌, [], IfOk, string_bytes};
ghost use Rattle.compiler.specs.Cycles.{IsCyclic};
ghost use Rattle.compiler.specs.Programs.{IsOfFirstPass};
ghost use Rattle.compiler.specs.Working.Orders.{IsOrdered};
ghost use Rattle.explanations.specs.Told.{IsToldOf, said_by};

use crate::cycle_calls::Calls;
use crate::cycle_edges::cycle_notes;
use crate::cycle_order::order_notes;
use crate::listed::ListedClasses;
use crate::text::text_warnings;
use compiler::{Cyclic, Ordered, examine};
use explanation::{Further, Note, Warning};
use explanation_faults::fault_told;
use source::fault::{Fault, Refusal};
use source::memory::NoMemory;
use std::alloc::Global;

/// The report on a text.
#[derive(Debug, Drop)]
pub enum Diagnosis {
    /// The text has a fault: the one of the first pass that has any.
    Faulty {
        /// The fault.
        fault: Fault,
        /// The notes on the fault.
        notes: Vec<Note>,
        /// The further faults.
        further: Further,
    },
    /// The text is accepted.
    Accepted {
        /// The notes on the order of its lock classes.
        notes: Vec<Note>,
        /// The warnings.
        warnings: Vec<Warning>,
    },
}

/// The report on a fault without a detail.
fn told_of_fault(alloc: Global, text: &[u8], fault: Fault) -> Result<Diagnosis, NoMemory>
    requires given { IsOfFirstPass text.now fault }
    requires bare { string_bytes fault.detail ≡ [] }
    ensures { IfOk result (λ told. IsToldOf text.now (said_by told)) }
{
    let told = fault_told(alloc, text, &fault)?;
    Ok(Diagnosis::Faulty {
        fault,
        notes: told.notes,
        further: told.further,
    })
}

/// The report on a cycle of lock classes.
fn told_of_cycle(alloc: Global, text: &[u8], cyclic: Cyclic) -> Result<Diagnosis, NoMemory>
    requires { IsCyclic text.now cyclic }
    ensures { IfOk result (λ told. IsToldOf text.now (said_by told)) }
{
    let program = cyclic.trees.program();
    let mut notes = cycle_notes(alloc, program, &cyclic.paths, &cyclic.edges)?;
    let calls = Calls {
        program: &cyclic.trees.accepted,
    };
    calls.push(alloc, program, &cyclic.edges, &mut notes)?;
    Ok(Diagnosis::Faulty {
        fault: cyclic.fault,
        notes,
        further: Further::none(alloc),
    })
}

/// The report on an accepted text.
fn told_of_order(alloc: Global, text: &[u8], ordered: &Ordered) -> Result<Diagnosis, NoMemory>
    requires { IsOrdered text.now ordered.now }
    ensures { IfOk result (λ told. IsToldOf text.now (said_by told)) }
{
    let notes = order_notes(
        alloc,
        ordered.trees.program(),
        &ordered.paths,
        &ordered.ranks,
    )?;
    let listed = ListedClasses {
        alloc,
        program: ordered.trees.program(),
        paths: &ordered.paths,
    };
    let warnings = text_warnings(alloc, text, &listed)?;
    Ok(Diagnosis::Accepted { notes, warnings })
}

/// The report on `text`: the fault of the first pass that has any, with notes and further faults; or, for an accepted
/// text, the order of the locks of its program and its warnings.
///
/// # Errors
///
/// `NoMemory`: a growth was refused.
pub fn told_of(alloc: Global, text: &[u8]) -> Result<Diagnosis, NoMemory>
    ensures { IfOk result (λ told. IsToldOf text.now (said_by told)) }
{
    match examine(alloc, text) {
        Ok(Ok(ordered)) => told_of_order(alloc, text, &ordered),
        Ok(Err(cyclic)) => told_of_cycle(alloc, text, cyclic),
        Err(Refusal::Fault(fault)) => told_of_fault(alloc, text, fault),
        Err(Refusal::NoMemory) => Err(NoMemory),
    }
}
