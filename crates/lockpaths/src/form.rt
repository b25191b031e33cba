//! Stable paths, and the states of a walk along one.

/// A stable path: a parameter or a `let`, and the final references that lead on from it.
#[derive(Drop)]
pub struct Form {
    /// The local, an index into [`core_lang::tree::Section::locals`].
    pub root: usize,
    /// The final references, each by its number among those of the struct reached.
    pub finals: Vec<u32>,
}

/// A final reference of a local, and the local that it equals by a `where`.
#[derive(Clone, Copy)]
pub struct OwnerBranch {
    /// The final reference, by its number among those of the struct.
    pub number: u32,
    /// The local, an index into [`core_lang::tree::Section::locals`].
    pub local: usize,
}

/// The state of a walk along a stable path.
#[derive(Clone, Copy)]
pub enum WalkState {
    /// A normal form, as the index of a node.
    Node(usize),
    /// A local with a `where`, as the index of its binding.
    Where(usize),
}

/// How walks go on from a local that is bound with a `where`.
#[derive(Clone, Copy)]
pub struct Branch {
    /// The final reference, by its number among those of the struct.
    pub number: u32,
    /// The state after this final reference.
    pub past: WalkState,
    /// The state from which any other final reference leads on.
    pub other: WalkState,
    /// The normal form of the local's value, as the index of a node.
    pub node: usize,
}
