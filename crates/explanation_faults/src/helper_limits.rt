//! The limit on what helpers call that is exceeded.

ghost use Rattle.std.specs.Prelude.{◌≡◌, Decides, IfOk};
ghost use Rattle.core_lang_helpers.specs.Graphs.{bodies_of};
ghost use Rattle.resolution.specs.CallGraphs.{helper_bodies};
ghost use Rattle.types_symbols.specs.{decls_of};
ghost use Rattle.explanation_faults.specs.Working.HelpersFound.{IsDeepThere, IsFirstThere, all_helpers};
ghost use Rattle.explanation_faults.specs.Working.Values.{IsHelperIfTold};

use core_lang_helpers::callers::Callers;
use core_lang_helpers::extents::is_too_deep;
use core_lang_helpers::graph::CallerBody;
use core_lang_helpers::settling::Extents;
use resolution::body_limits::HELPER_LIMITS;
use source::fault::Code;
use source::memory::NoMemory;
use source::mistake::Mistake;
use std::alloc::Global;
use syntax::tree::Decl;
use types::call_walk::Reader;
use types::calls::check_calls;
use types_symbols::table::SymbolTable;

/// The bodies of the helpers, with what counts for the limits.
fn helper_bodies(reader: &Reader) -> Result<Vec<CallerBody>, NoMemory>
    ensures { IfOk result (λ bodies. bodies_of bodies.items ≡ all_helpers (decls_of reader.now.symbols.now)) }
{
    let mut bodies = Vec::new(reader.alloc);
    for decl in reader.symbols.items() {
        if let Decl::Helper(helper) = decl {
            bodies.push(reader.body(helper, HELPER_LIMITS)?)?;
        }
    }
    Ok(bodies)
}

/// Whether one of the helpers is declared at byte `at`, and its calls are too deep.
fn is_deep_there(alloc: Global, helpers: &[CallerBody], at: usize) -> Result<bool, NoMemory>
    ensures { IfOk result (λ is. Decides is (IsDeepThere (bodies_of helpers.now) at)) }
{
    let callers = Callers::new(alloc, helpers)?;
    let extents = Extents::new(alloc, &callers)?;
    for (number, helper) in helpers.iter().enumerate() {
        if helper.start == at && is_too_deep(&extents.table, number) {
            return Ok(true);
        }
    }
    Ok(false)
}

/// Whether the first fault of what sections and helpers call is an exceeded limit at byte `at`. Later faults are not
/// searched for.
fn is_first_there(alloc: Global, symbols: &SymbolTable, at: usize) -> Result<bool, NoMemory>
    ensures { IfOk result (λ is. Decides is (IsFirstThere (decls_of symbols.now) at)) }
{
    let mut least = Some(Mistake {
        code: Code::RecursiveHelper,
        start: at,
    });
    check_calls(alloc, symbols, &mut least)?;
    match least {
        Some(found) => Ok(found.code == Code::LimitExceeded && found.start == at),
        None => Ok(false),
    }
}

/// The limit on what helpers call that is exceeded at byte `at`.
pub fn helper_limit(
    alloc: Global,
    symbols: &SymbolTable,
    at: usize,
) -> Result<Option<&'static str>, NoMemory>
    ensures { IfOk result (IsHelperIfTold (decls_of symbols.now) at) }
{
    core_lang_helpers::call_laws::listed_faults();
    let helpers = helper_bodies(&Reader { alloc, symbols })?;
    if is_deep_there(alloc, &helpers, at)? {
        return Ok(Some("calls of helpers go at most 8 deep"));
    }
    if is_first_there(alloc, symbols, at)? {
        return Ok(Some(
            "with what its calls bring, a section has at most 64 locals, and at most 65536 points of helpers",
        ));
    }
    Ok(None)
}
