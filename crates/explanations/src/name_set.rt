//! Sets of names.

ghost use Rattle.std.specs.Prelude.{◌≡◌, ◌||◌, ℕ, List, IfOk, OnOk, false};
ghost use Rattle.std.specs.Rc.{rc_str_bytes};
ghost use Rattle.std.specs.Str.{bytes_eq};
ghost use Rattle.std.specs.List.{list_any};
ghost use Rattle.explanations.specs.Working.Found.{is_named};
ghost use Rattle.explanations.specs.Working.Values.{IsSetOf, has, ident_at, idents};

use indexmap::IndexSet;
use source::keyed::KeyedState;
use source::memory::NoMemory;
use std::alloc::{AllocError, Global};
use syntax::tree::Name;

/// The parameters of sets of names.
#[derive(Clone, Copy)]
pub struct SetMaker {
    /// The allocator of the sets.
    pub alloc: Global,
    /// How the sets hash names.
    pub hashing: KeyedState,
}

/// A set of names.
#[derive(Drop)]
pub struct NameSet {
    /// The names.
    pub texts: IndexSet<String, KeyedState>,
}

impl NameSet {
    fn new(maker: SetMaker) -> NameSet
        ensures { (q : List ℕ) → has result q ≡ false }
    {
        NameSet {
            texts: IndexSet::with_hasher(maker.alloc, maker.hashing),
        }
    }

    /// Whether the set has `name`.
    pub fn contains(&self, name: &Name) -> bool
        ensures { result ≡ has self.now (rc_str_bytes name.now.text) }
    {
        self.texts.contains(name.text.as_str())
    }

    // Inserts `name`. The one error is a refused growth.
    fn add(&mut self, alloc: Global, name: &Name) -> Result<(), AllocError>
        ensures { OnOk result
            ((q : List ℕ) → has self.new q ≡ (has self.old q || bytes_eq q (rc_str_bytes name.now.text))) }
    {
        if self.contains(name) {
            return Ok(());
        }
        let text = String::from_str(alloc, name.text.as_str())?;
        self.texts.insert(text)?;
        Ok(())
    }

    /// The set of `names`. The one error is a refused growth.
    pub fn of(maker: SetMaker, names: &[&Name]) -> Result<NameSet, NoMemory>
        ensures { IfOk result (IsSetOf (idents names.now)) }
    {
        let mut set = NameSet::new(maker);
        for name in names {
            set.add(maker.alloc, name)?;
        }
        Ok(set)
    }

    /// Whether the set has one of `names`.
    pub fn has_some(&self, names: &[&Name]) -> bool
        ensures { result ≡ list_any (λ x. has self.now (ident_at x).text) names.now }
    {
        for name in names {
            if self.contains(name) {
                return true;
            }
        }
        false
    }
}
