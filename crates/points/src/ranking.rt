//! The ranks of a section's lock paths.

ghost use Rattle.std.specs.Prelude.{◌≤◌, ◌↔◌, ◌⊎◌, ℕ, length};
ghost use Rattle.points.specs.Working.Ranks.{IsWithin, IsGreatest, AreUpTo, IsWantedSet};

use locks::path_set::PathSet;

/// The ranks of a section's lock paths.
#[derive(Drop)]
pub struct Ranking<'a> {
    /// The rank of each path.
    pub ranks: &'a [u32],
    /// All paths fit into a set.
    pub ghost few: { length ranks.now ≤ 64 },
}

impl<'a> Ranking<'a> {
    /// The paths that are wanted at a point that uses `used`, comes before points that use `later`, and has `in_scope`
    /// in scope.
    pub fn wanted(&self, used: PathSet, later: PathSet, in_scope: PathSet) -> PathSet
        ensures { IsWantedSet self.now.ranks.now used later in_scope result }
    {
        match self.greatest(used) {
            Some(greatest) => self.up_to(greatest).meet(in_scope).meet(used.union(later)),
            None => PathSet::new(),
        }
    }

    // The greatest rank of these paths, if there are any.
    fn greatest(&self, used: PathSet) -> Option<u32>
        ensures { IsGreatest self.now.ranks.now used (length self.now.ranks.now) result }
    {
        let mut greatest = None;
        for i in 0..self.ranks.len() {
            if used.contains(i) {
                greatest = Some(Ranking::greater(greatest, self.ranks[i]));
            }
        }
        greatest
    }

    fn greater(first: Option<u32>, second: u32) -> u32
        ensures { (rank : ℕ) → (rank ≤ result) ↔ (IsWithin rank first ⊎ (rank ≤ second)) }
    {
        match first {
            Some(first) if second < first => first,
            _ => second,
        }
    }

    // The paths of at most this rank.
    fn up_to(&self, greatest: u32) -> PathSet
        ensures { AreUpTo self.now.ranks.now greatest result }
    {
        let mut set = PathSet::new();
        for i in 0..self.ranks.len() {
            if self.ranks[i] <= greatest {
                set = set.with(i);
            }
        }
        set
    }
}
