//! Names that were found, until an allocation fails.

ghost use Rattle.std.specs.Option.{option_map};
ghost use Rattle.std.specs.Prelude.{◌≡◌, ◌∷◌, [], IfOk, false};
ghost use Rattle.syntax.specs.Views.{ident};
ghost use Rattle.explanation_names.specs.Working.Values.{Adds, ident_at, option_list};

use source::memory::NoMemory;
use std::alloc::Global;
use syntax::tree::Name;

/// Names, and whether an allocation has failed. After a failure nothing is added and `finish` returns the error, so
/// that callers need not check after each name.
#[derive(Drop)]
pub struct FoundNames<'t> {
    /// The names.
    pub names: Vec<&'t Name>,
    /// Whether an allocation has failed.
    pub is_refused: bool,
}

impl<'t> FoundNames<'t> {
    pub fn new(alloc: Global) -> FoundNames<'t>
        ensures { result.names.items ≡ [] }
    {
        FoundNames {
            names: Vec::new(alloc),
            is_refused: false,
        }
    }

    pub fn push(&mut self, name: &'t Name)
        ensures { Adds self.old self.new (ident name.now ∷ []) }
    {
        if self.is_refused {
            return;
        }
        self.is_refused = self.names.push(name).is_err();
    }

    /// Adds a name, if there is one.
    pub fn push_some(&mut self, name: Option<&'t Name>)
        ensures { Adds self.old self.new (option_list (option_map ident_at name.entry)) }
    {
        if let Some(name) = name {
            self.push(name);
        }
    }

    /// The names, or the error if an allocation has failed.
    pub fn finish(self) -> Result<Vec<&'t Name>, NoMemory>
        ensures { IfOk result (λ names. self.entry.is_refused ≡ false × (names ≡ self.entry.names)) }
    {
        if self.is_refused {
            return Err(NoMemory);
        }
        Ok(self.names)
    }
}
