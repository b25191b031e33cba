//! A closed history.

ghost use Rattle.std.specs.Prelude.{◌≡◌, ◌<◌, length, slice_get, Some};
ghost use Rattle.lock_manager.specs.Manager.{IsQuiet};

use core_lang::value::Value;
use history::entries::History;
use lock_manager::manager::Manager;
use std::marker::Model;
use thiserror::Error;

/// A closed history, with the values that it leaves. Its value is a manager with no open section.
#[derive(Drop)]
pub struct Closed<'p> {
    pub(crate) manager: Manager<'p>,
}

impl<'p> Model for Closed<'p> {
    ghost use Rattle.lock_manager.specs.Manager.{Managed, IsQuiet};

    ghost Value = { Managed };

    ghost view = { λ c. c.manager };

    ghost invariant = { λ c. IsQuiet c.manager };
}

impl<'p> Closed<'p> {
    /// The entries in order.
    pub fn history(&self) -> &History
        ensures { result.now.commits ≡ self.now.history }
    {
        self.manager.history()
    }

    /// The value that the entries leave in `cell`.
    pub fn cell(&self, cell: usize) -> Value
        requires { cell < length self.now.values }
        ensures { slice_get self.now.values cell ≡ Some result }
    {
        self.manager.committed(cell)
    }

    /// A law: no thread has an open section.
    pub fn keeps_its_rules(&self)
        ensures { IsQuiet self.now }
    {
        let _shown = &self.manager;
    }
}

/// The error of closing: the seats' answers are not exactly the entries of the history, the row has other entries, or a
/// section is open.
#[derive(Clone, Copy, PartialEq, Eq, Debug, Error)]
#[error("strange")]
pub struct Strange;
