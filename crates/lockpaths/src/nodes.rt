//! Stable paths, each with an index.

ghost use Rattle.std.specs.Prelude.{◌≡◌, ◌<◌, [], length, get_or, IfOk};
ghost use Rattle.lockpaths.specs.Working.Forms.{stable_path_of};
ghost use Rattle.lockpaths.specs.Working.Nodes.{IsAfter, IsGrown, IsNodeOf, local_path, longer, nowhere, path_by, same_stable};

use crate::form::Form;
use indexmap::IndexSet;
use source::memory::NoMemory;
use std::alloc::Global;
use std::marker::Model;

/// The last step of a path.
#[derive(Clone, Copy, Debug, PartialEq, Eq, Hash)]
pub enum PathEdge {
    /// A local by itself.
    Local(usize),
    /// A final reference that leads on from a node.
    Final {
        /// The node.
        node: usize,
        /// The final reference, by its number among those of the struct reached.
        number: u32,
    },
}

/// Stable paths, in the order in which they were requested. Equal paths have one index.
#[derive(Drop)]
pub struct Nodes {
    alloc: Global,
    /// The last step of each path, so that a path is stored once as a prefix of many others.
    steps: IndexSet<PathEdge>,
}

impl Model for Nodes {
    ghost use Rattle.std.specs.Prelude.{List};
    ghost use Rattle.locks.specs.LockPaths.{StablePath};
    ghost use Rattle.lockpaths.specs.Working.Nodes.{paths_of, AreSteps};

    ghost Value = { List StablePath };

    ghost view = { λ n. paths_of n.steps.keys };

    ghost invariant = { λ n. AreSteps n.steps.keys };
}

impl Nodes {
    /// An empty table.
    pub fn new(alloc: Global) -> Nodes
        ensures { result ≡ [] }
    {
        Nodes {
            alloc,
            steps: IndexSet::new(alloc),
        }
    }

    // The node to which a step leads, which is added if it is new.
    fn insert(&mut self, step: PathEdge) -> Result<usize, NoMemory>
        requires { IsAfter (length self.old) step }
        ensures grown { IsGrown self.old self.new }
        ensures node { IfOk result (IsNodeOf self.new (path_by self.old step)) }
    {
        let (node, _) = self.steps.insert_full(step)?;
        Ok(node)
    }

    /// The node of the local by itself.
    pub fn local(&mut self, local: usize) -> Result<usize, NoMemory>
        ensures grown { IsGrown self.old self.new }
        ensures node { IfOk result (IsNodeOf self.new (local_path local)) }
    {
        self.insert(PathEdge::Local(local))
    }

    /// The node after a final reference from `node`.
    pub fn step(&mut self, node: usize, number: u32) -> Result<usize, NoMemory>
        requires { node < length self.old }
        ensures grown { IsGrown self.old self.new }
        ensures node { IfOk result (IsNodeOf self.new (longer (get_or self.old node nowhere) number)) }
    {
        self.insert(PathEdge::Final { node, number })
    }

    /// Whether two nodes have equal paths.
    pub fn is_same(&self, a: usize, b: usize) -> bool
        requires a { a < length self.now }
        requires b { b < length self.now }
        ensures { result ≡ same_stable (get_or self.now a nowhere) (get_or self.now b nowhere) }
    {
        let _shown = &self.steps;
        a == b
    }

    // The last step of a node's path.
    fn step_to(&self, node: usize) -> PathEdge
        requires { node < length self.now }
        ensures path { path_by self.now result ≡ get_or self.now node nowhere }
        ensures after { IsAfter node result }
    {
        match self.steps.get_index(node) {
            Some(step) => *step,
            None => unreachable!(),
        }
    }

    /// The path of a node.
    pub fn path(&self, node: usize) -> Result<Form, NoMemory>
        requires { node < length self.now }
        ensures { IfOk result (λ form. stable_path_of form ≡ get_or self.now node nowhere) }
    {
        let mut finals = Vec::new(self.alloc);
        let mut step = self.step_to(node);
        'steps: loop {
            match step {
                PathEdge::Local(root) => {
                    finals.reverse();
                    return Ok(Form { root, finals });
                }
                PathEdge::Final { node, number } => {
                    finals.push(number)?;
                    step = self.step_to(node);
                }
            }
        }
    }
}
