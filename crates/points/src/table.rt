//! The points of a section.

ghost use Rattle.std.specs.Prelude.{◌≡◌, ◌≤◌, vec_len};
ghost use Rattle.flow.specs.Skeletons.{count};
ghost use Rattle.flow.specs.Working.Parts.{skeleton_of};

use flow::skeleton::Part;
use locks::path_set::PathSet;

/// The points of a section, numbered from 0 in the order of the text, and the sets of lock paths at each of them.
#[derive(Drop)]
pub struct Points {
    /// The section reduced to its control flow: its points, and the blocks that hold them.
    pub parts: Vec<Part>,
    /// The class of each lock path, an index into [`core_lang::typed::Typed::classes`].
    pub classes: Vec<usize>,
    /// For each point, the paths whose root it binds.
    pub bound: Vec<PathSet>,
    /// For each point, the paths that it uses.
    pub used: Vec<PathSet>,
    /// For each point, the paths in scope before it.
    pub in_scope: Vec<PathSet>,
    /// For each point, the paths used at some earlier point.
    pub used_before: Vec<PathSet>,
    /// For each point, the paths used at some later point (live paths).
    pub used_later: Vec<PathSet>,
    /// All lock paths fit into a set.
    pub ghost few: { vec_len classes ≤ 64 },
    pub ghost of_bound: { vec_len bound ≡ count (skeleton_of parts.items) },
    pub ghost of_used: { vec_len used ≡ count (skeleton_of parts.items) },
    pub ghost of_in_scope: { vec_len in_scope ≡ count (skeleton_of parts.items) },
    pub ghost of_used_before: { vec_len used_before ≡ count (skeleton_of parts.items) },
    pub ghost of_used_later: { vec_len used_later ≡ count (skeleton_of parts.items) },
}
