//! The call graph of helpers and sections.

ghost use Rattle.std.specs.Prelude.{◌≡◌, OnOk, OnErr};

use std::alloc::{AllocError, Global};

/// A call of a helper.
#[derive(Clone, Copy, Debug, PartialEq, Eq)]
pub struct CallSite {
    /// The helper's number, from 0 in the order of declaration. A call with a number that no helper has counts nothing.
    pub helper: usize,
    /// The first byte of the called name in the text, from 0.
    pub start: usize,
    /// Whether a `let` binds the result.
    pub is_bound: bool,
}

/// A helper or a section, as its calls and counts.
#[derive(Drop)]
pub struct CallerBody {
    /// The first byte of the declared name in the text, from 0.
    pub start: usize,
    /// The number of parameters.
    pub parameters: usize,
    /// The number of its own locals: parameters, `let`s and `var`s.
    pub locals: usize,
    /// The number of its statements that are points by themselves: all but calls and the `return`.
    pub points: usize,
    /// Whether it has a result, and so a `return`.
    pub has_result: bool,
    /// Its calls, in the order of the text.
    pub calls: Vec<CallSite>,
}

/// The call graph of a program.
#[derive(Drop)]
pub struct CallGraph {
    /// The helpers, by number.
    pub helpers: Vec<CallerBody>,
    /// The sections, in the order of the text.
    pub sections: Vec<CallerBody>,
}

impl CallGraph {
    ghost use Rattle.core_lang_helpers.specs.Graphs.{body_of, graph_of, no_bodies, with_helper, with_section};

    /// An empty graph.
    pub fn new(alloc: Global) -> CallGraph
        ensures { graph_of result ≡ no_bodies }
    {
        CallGraph {
            helpers: Vec::new(alloc),
            sections: Vec::new(alloc),
        }
    }

    /// Adds the next helper. The only error is a failed allocation, which leaves the graph as it was.
    pub fn add_helper(&mut self, helper: CallerBody) -> Result<(), AllocError>
        ensures ok { OnOk result (graph_of self.new ≡ with_helper (graph_of self.old) (body_of helper)) }
        ensures err { OnErr result (graph_of self.new ≡ graph_of self.old) }
    {
        self.helpers.push(helper)?;
        Ok(())
    }

    /// Adds the next section. The only error is a failed allocation, which leaves the graph as it was.
    pub fn add_section(&mut self, section: CallerBody) -> Result<(), AllocError>
        ensures ok { OnOk result (graph_of self.new ≡ with_section (graph_of self.old) (body_of section)) }
        ensures err { OnErr result (graph_of self.new ≡ graph_of self.old) }
    {
        self.sections.push(section)?;
        Ok(())
    }
}
