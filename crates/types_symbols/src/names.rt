//! Names and their places.

ghost use Rattle.std.specs.Prelude.{◌≡◌, ℕ, List, IfOk, OnOk, None, is_some};
ghost use Rattle.std.specs.Rc.{rc_str_bytes};
ghost use Rattle.types_symbols.specs.Working.Found.{found, IsTableWithName};

use indexmap::IndexMap;
use source::keyed::KeyedState;
use std::alloc::{AllocError, Global};
use std::rc::RcStr;

/// A maker of tables of names.
#[derive(Clone, Copy)]
pub struct TableMaker {
    /// The allocator.
    pub alloc: Global,
    /// The hash builder.
    pub hashing: KeyedState,
}

/// A table of names, in the order of their declarations: for each name the place of the first item of the list that has
/// it.
#[derive(Drop)]
pub struct Names {
    /// The place of each name, from 0.
    pub places: IndexMap<String, usize, KeyedState>,
}

impl Names {
    /// An empty table.
    pub(crate) fn new(maker: TableMaker) -> Names
        ensures { (q : List ℕ) → found result q ≡ None }
    {
        Names {
            places: IndexMap::with_hasher(maker.alloc, maker.hashing),
        }
    }

    /// The hash builder of the table.
    pub(crate) fn hashing(&self) -> KeyedState {
        *self.places.hasher()
    }

    /// The place of the first item with this name, from 0.
    pub fn find(&self, name: &str) -> Option<usize>
        ensures { result ≡ found self.now name.now }
    {
        match self.places.get(name) {
            Some(place) => Some(*place),
            None => None,
        }
    }

    /// Adds a name with its place, unless the table has it. The only error is a failed allocation.
    pub(crate) fn add(
        &mut self,
        alloc: Global,
        name: &RcStr,
        place: usize,
    ) -> Result<(), AllocError>
        ensures { OnOk result (IsTableWithName (rc_str_bytes name.now) place self.old self.new) }
    {
        if self.find(name.as_str()).is_some() {
            return Ok(());
        }
        let key = String::from_str(alloc, name.as_str())?;
        self.places.insert(key, place)?;
        Ok(())
    }
}
