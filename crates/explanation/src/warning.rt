//! Warnings about an accepted program that may not be as meant.

ghost use Rattle.std.specs.Prelude.{◌≡◌, ◌++◌, IfOk, string_bytes};

use std::alloc::{AllocError, Global};

// The text NAME WORDS.
fn said_of(alloc: Global, name: &str, words: &str) -> Result<String, AllocError>
    ensures { IfOk result (λ said. string_bytes said ≡ name.now ++ words.now) }
{
    let mut said = String::from_str(alloc, name)?;
    said.push_str(words)?;
    Ok(said)
}

/// What a warning says, with the name that it is about.
#[derive(Debug, Drop)]
pub enum Warned {
    /// No annotation ends at the lock of this name.
    UselessLock(String),
    /// Nothing reads the `let` or `var` of this name.
    UnusedLocal(String),
    /// The program has no call of the helper of this name.
    UncalledHelper(String),
    /// No thread calls the section of this name, and the program has threads.
    UncalledSection(String),
    /// No access of the section needs the class of this name, which its head lists.
    UnneededClass(String),
    /// The loop does not change what its condition reads.
    UnchangedCondition,
}

/// A warning of a place of a source text.
#[derive(Debug, Drop)]
pub struct Warning {
    /// The byte of the text, from 0.
    pub start: usize,
    /// What it says.
    pub what: Warned,
}

impl Warned {
    ghost use Rattle.explanation.specs.Warnings.{words_of};

    /// The words of the warning.
    ///
    /// # Errors
    ///
    /// A failed allocation.
    pub fn words(&self, alloc: Global) -> Result<String, AllocError>
        ensures { IfOk result (λ words. string_bytes words ≡ words_of self.now) }
    {
        match self {
            Warned::UselessLock(name) => said_of(alloc, name.as_str(), " protects nothing"),
            Warned::UnusedLocal(name) => said_of(alloc, name.as_str(), " is never used"),
            Warned::UncalledHelper(name) => said_of(alloc, name.as_str(), " is never called"),
            Warned::UncalledSection(name) => {
                said_of(alloc, name.as_str(), " is called by no thread")
            }
            Warned::UnneededClass(name) => said_of(
                alloc,
                name.as_str(),
                " is listed here, and no access of the section needs it",
            ),
            Warned::UnchangedCondition => String::from_str(
                alloc,
                "nothing in this loop changes its condition: once entered, it ends only by a trap",
            ),
        }
    }
}
