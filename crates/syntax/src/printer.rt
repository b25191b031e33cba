//! A text that grows until an allocation fails.

ghost use Rattle.std.specs.Prelude.{◌≡◌, ◌++◌, [], IfOk, OnOk, false, string_bytes};
ghost use Rattle.std.specs.Fmt.{decimal};
ghost use Rattle.syntax.specs.Views.{ident};
ghost use Rattle.syntax.specs.Working.Adding.{Adds};

use crate::tree::Name;
use source::memory::NoMemory;
use std::alloc::{AllocError, Global};

/// A text, and whether an allocation for it has failed. After a failure nothing is appended and `finish` returns the
/// error, so that callers need not check after each piece.
#[derive(Drop)]
pub struct Printer {
    pub text: String,
    pub is_refused: bool,
}

impl Printer {
    pub fn new(alloc: Global) -> Printer
        ensures { string_bytes result.text ≡ [] }
    {
        Printer {
            text: String::new(alloc),
            is_refused: false,
        }
    }

    pub fn push_str(&mut self, piece: &str)
        ensures { Adds self.old self.new piece.now }
    {
        if self.is_refused {
            return;
        }
        self.is_refused = self.text.push_str(piece).is_err();
    }

    pub fn push_name(&mut self, name: &Name)
        ensures { Adds self.old self.new (ident name.now).text }
    {
        self.push_str(name.text.as_str());
    }

    /// Appends `before` and then the name.
    pub fn push_named(&mut self, before: &str, name: &Name)
        ensures { Adds self.old self.new (before.now ++ (ident name.now).text) }
    {
        self.push_str(before);
        self.push_name(name);
    }

    pub fn push_number(&mut self, n: u64)
        ensures { Adds self.old self.new (decimal n) }
    {
        if self.is_refused {
            return;
        }
        self.is_refused = append_number(&mut self.text, n).is_err();
    }

    /// The text, or the error if an allocation for it has failed.
    pub fn finish(self) -> Result<String, NoMemory>
        ensures { IfOk result (λ text. self.is_refused ≡ false × (text ≡ self.text)) }
    {
        if self.is_refused {
            return Err(NoMemory);
        }
        Ok(self.text)
    }
}

fn append_number(text: &mut String, n: u64) -> Result<(), AllocError>
    ensures { OnOk result (string_bytes text.new ≡ string_bytes text.old ++ decimal n) }
{
    write!(text, "{n}")
}
