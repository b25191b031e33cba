//! Programs.

ghost use Rattle.std.specs.Prelude.{◌≡◌, [], None, OnOk, option_map, option_to_list};
ghost use Rattle.resolution.specs.Working.Findings.{found_in, plain};
ghost use Rattle.source.specs.Mistakes as mistakes;
ghost use Rattle.core_lang_helpers.specs.Graphs.{graph_of};
ghost use Rattle.core_lang_helpers.specs.Working.FaultLists.{graph_faults};
ghost use Rattle.resolution.specs.CallGraphs.{tree_graph};
ghost use Rattle.types_symbols.specs.{decls_of};
ghost use Rattle.types.specs.Working.Bodies.{all_sections, all_helpers};

use crate::call_walk::Reader;
use core_lang_helpers::graph::CallGraph;
use resolution::body_limits::{BodyLimits, HELPER_LIMITS, SECTION_LIMITS};
use resolution::finding::{Firsts, report};
use source::mistake::Mistake;
use std::alloc::{AllocError, Global};
use syntax::tree::Decl;
use types_symbols::table::SymbolTable;

impl Reader<'_> {
    // Adds the helpers.
    fn add_helpers(&self, graph: &mut CallGraph) -> Result<(), AllocError>
        requires { (graph_of graph.old).helpers ≡ [] }
        ensures { OnOk result (graph_of graph.new ≡ record (graph_of graph.old)
            { helpers = all_helpers (decls_of self.now.symbols.now) }) }
    {
        for d in self.symbols.items() {
            if let Decl::Helper(s) = d {
                let helper = self.body(s, HELPER_LIMITS)?;
                graph.add_helper(helper)?;
            }
        }
        Ok(())
    }

    // Adds the sections.
    fn add_sections(&self, graph: &mut CallGraph) -> Result<(), AllocError>
        requires { (graph_of graph.old).sections ≡ [] }
        ensures { OnOk result (graph_of graph.new ≡ record (graph_of graph.old)
            { sections = all_sections (decls_of self.now.symbols.now) }) }
    {
        for d in self.symbols.items() {
            if let Decl::Atomic(s) = d {
                let section = self.body(s, SECTION_LIMITS)?;
                graph.add_section(section)?;
            }
        }
        Ok(())
    }
}

/// Notes the faults of the calls of sections and helpers in `least`: `E20` at a call that closes a recursion, and `E15`
/// for a helper that is too deep and for a call that first brings too many locals or points to a section. The least
/// fault is kept, also of those noted before; no fault after it is looked for. The only error is a failed allocation.
pub fn check_calls(
    alloc: Global,
    symbols: &SymbolTable,
    least: &mut Option<Mistake>,
) -> Result<(), AllocError>
    ensures { OnOk result (least.new ≡ mistakes.least_of least.old (graph_faults (tree_graph (decls_of symbols.now)))) }
{
    let reader = Reader { alloc, symbols };
    let mut graph = CallGraph::new(alloc);
    reader.add_helpers(&mut graph)?;
    reader.add_sections(&mut graph)?;
    graph.check(alloc, least)
}

/// Notes the least fault of the calls of sections and helpers, if there is one. The only error is a failed allocation.
pub fn report_calls(
    alloc: Global,
    symbols: &SymbolTable,
    firsts: &mut Firsts,
) -> Result<(), AllocError>
    ensures { OnOk result (firsts.new ≡ found_in firsts.old (option_to_list
        (option_map plain (mistakes.least_of None (graph_faults (tree_graph (decls_of symbols.now))))))) }
{
    let mut found = None;
    check_calls(alloc, symbols, &mut found)?;
    if let Some(mistake) = found {
        report(mistake.code, mistake.start, firsts);
    }
    Ok(())
}
