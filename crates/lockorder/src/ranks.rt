//! Ranks of lock classes, and cycles.

use source::memory::NoMemory;
use thiserror::Error;

/// For each lock class, by number, its rank: its place in the order in which sections acquire locks.
pub type Ranks = Vec<u32>;

/// An edge of the order of classes: from a class to another, with the use and binding that make it. In a cycle it leads
/// to the class of the next edge, or from the last to the first.
#[derive(Clone, Copy, Debug)]
pub struct Edge {
    /// The class, an index into [`core_lang::typed::Typed::classes`].
    pub class: usize,
    /// The section that makes the edge, an index into [`core_lang::typed::Typed::sections`].
    pub section: usize,
    /// The point at which a lock of the class is used.
    pub used: usize,
    /// The point that binds the root of a path of the class to which it leads.
    pub bound: usize,
}

/// Two classes of which the first must precede the second.
#[derive(Clone, Copy)]
pub struct ClassPair {
    /// The edge, from the first class.
    pub edge: Edge,
    /// The second class, to which it leads.
    pub next: usize,
}

/// Lock classes of which each must precede the next, and the last the first.
#[derive(Debug, Drop)]
pub struct Cycle {
    /// One or more edges, from distinct classes.
    pub edges: Vec<Edge>,
}

/// Why the classes have no ranks.
#[derive(Debug, Drop, Error)]
pub enum OrderRefusal {
    /// The classes have no order.
    #[error("lock order cycle")]
    Cycle(Cycle),
    /// An allocation failed.
    #[error("no memory")]
    NoMemory,
}

impl From<NoMemory> for OrderRefusal {
    ghost use Rattle.std.specs.Prelude.{◌≡◌};
    ghost use Rattle.lockorder.specs.declared.ranks.OrderRefusal.TheVariants.{NoMemory};

    ghost from_gives = { λ _ e. e ≡ NoMemory };

    fn from(_e: NoMemory) -> OrderRefusal {
        OrderRefusal::NoMemory
    }
}
