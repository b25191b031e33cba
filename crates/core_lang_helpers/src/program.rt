//! Programs with their helpers expanded.

ghost use Rattle.std.specs.Prelude.{◌≡◌, [], map, IfOk};
ghost use Rattle.std.specs.List.{AllZip};
ghost use Rattle.core_lang.specs.WellFormed.{IsChecked, IsWellFormed};
ghost use Rattle.core_lang.specs.Expansion.{HasSamePlaces, IsWrittenOut};
ghost use Rattle.core_lang.specs.WrittenLocals.{AreWrittenLocals};
ghost use Rattle.core_lang_helpers.specs.Data.{head_data, IsExpanded};

use crate::body::BodyWriter;
use crate::idle::Idle;
use crate::not_written_out::NotWrittenOut;
use core_lang::laws;
use core_lang::shape::Shape;
use core_lang::tree::Section;
use core_lang::typed::Typed;
use source::limits;
use source::memory::NoMemory;
use std::alloc::Global;

// The greatest depth of a section's calls.
const DEPTH_LIMIT: u32 = limits::DEPTH_LIMIT as u32;

// A section with the helpers that it calls expanded.
pub(crate) fn written_out(
    alloc: Global,
    shape: &Shape,
    idle: &Idle,
    section: &Section,
) -> Result<Section, NotWrittenOut>
    requires { idle.now.helpers.now ≡ shape.now.helpers.items }
    ensures written { IfOk result (IsWrittenOut shape.now section.now) }
    ensures locals { IfOk result (AreWrittenLocals shape.now section.now) }
    ensures head { IfOk result (λ made. head_data made ≡ head_data section.now) }
{
    let body = BodyWriter {
        alloc,
        shape,
        idle,
        section,
        depth: DEPTH_LIMIT,
    };
    let mut locals = Vec::new(alloc);
    body.keep_parameters(&mut locals)?;
    let mut written = Vec::new(alloc);
    let result = body.body(0, &mut locals, &mut written)?;
    Ok(Section {
        name: section.name.clone()?,
        parameters: section.parameters,
        locals,
        result_type: section.result_type,
        listed: section.listed.clone()?,
        body: written,
        result,
    })
}

// All sections, expanded one after another.
fn all_written_out(
    alloc: Global,
    shape: &Shape,
    sections: &[Section],
) -> Result<Vec<Section>, NotWrittenOut>
    ensures written { IfOk result (λ made. AllZip (IsWrittenOut shape.now) sections.now made.items) }
    ensures locals { IfOk result (λ made. AllZip (AreWrittenLocals shape.now) sections.now made.items) }
    ensures heads { IfOk result (λ made. map head_data made.items ≡ map head_data sections.now) }
{
    let idle = Idle::new(alloc, &shape.helpers)?;
    let mut made = Vec::new(alloc);
    for section in sections {
        made.push(written_out(alloc, shape, &idle, section)?)?;
    }
    Ok(made)
}

// The same layout, without helpers.
fn places(alloc: Global, shape: &Shape) -> Result<Shape, NoMemory>
    ensures same { IfOk result (HasSamePlaces shape.now) }
    ensures helpers { IfOk result (λ made. made.helpers.items ≡ []) }
{
    let arrays = shape.arrays.clone()?;
    let pools = shape.pools.clone()?;
    let objects = shape.objects.clone()?;
    let finals = shape.finals.clone()?;
    Ok(Shape {
        arrays,
        pools,
        objects,
        finals,
        helpers: Vec::new(alloc),
    })
}

/// The program with the helpers of all its sections expanded. The only error is a failed allocation. (A section with a
/// call of an unknown helper, or with calls that go too deep, would give that error too. A checked program has none.)
pub fn expand(alloc: Global, program: &Typed) -> Result<Typed, NoMemory>
    requires { IsChecked program.now }
    // Each section is expanded, over the same layout and cells, no helpers are left, and the rest is the same.
    ensures expanded { IfOk result (IsExpanded program.now) }
    // The result is well formed.
    ensures well_formed { IfOk result IsWellFormed }
{
    laws::writing_out_changes_nothing();
    let Ok(sections) = all_written_out(alloc, &program.shape, &program.sections) else {
        return Err(NoMemory);
    };
    let shape = places(alloc, &program.shape)?;
    let classes = program.classes.clone()?;
    let structs = program.structs.clone()?;
    let globals = program.globals.clone()?;
    let cells = program.cells.clone()?;
    let threads = program.threads.clone()?;
    Ok(Typed {
        classes,
        structs,
        globals,
        shape,
        cells,
        sections,
        threads,
    })
}
