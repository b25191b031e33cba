//! The lock paths of a section as texts. The one error is a refused growth.

ghost use Rattle.std.specs.Option.{option_copied, option_map_or};
ghost use Rattle.std.specs.Prelude.{◌≡◌, [], map, string_bytes};
ghost use Rattle.locks.specs.LockPaths.{lock_paths};
ghost use Rattle.locks.specs.Texts.{path_text};

use core_lang::tree::Section;
use core_lang::typed::Typed;
use std::alloc::AllocError;

/// The text, or the empty one where there is none.
fn or_nothing(text: Option<&String>) -> &str
    ensures { result.now ≡ option_map_or string_bytes (option_copied text.entry) [] }
{
    match text {
        Some(text) => text.as_str(),
        None => "",
    }
}

/// A section with the texts of its lock paths.
#[derive(Drop)]
pub struct NamedSection<'a> {
    /// The program.
    pub program: &'a Typed,
    /// The section.
    pub section: &'a Section,
    /// The texts of the section's lock paths.
    pub paths: &'a [String],
    pub ghost named: { map string_bytes paths.now
        ≡ map (path_text program.now section.now) (lock_paths program.now section.now) },
}

impl NamedSection<'_> {
    ghost use Rattle.std.specs.Prelude.{◌≡◌, OnOk};
    ghost use Rattle.locks.specs.Texts.{AddsText};
    ghost use Rattle.language_server.specs.Working.Sets.{path_text_of, listed_text};

    // The lock path with the number `number`; empty, where there is none.
    fn path(&self, number: usize) -> &str
        ensures { result.now ≡ path_text_of self.now number }
    {
        or_nothing(self.paths.get(number))
    }

    /// Appends the lock paths of a list, each after a space.
    pub fn push_paths(&self, out: &mut String, list: &[u8]) -> Result<(), AllocError>
        ensures { OnOk result (AddsText (listed_text self.now list.now) out.old out.new) }
    {
        for number in list {
            out.push_str(" ")?;
            out.push_str(self.path(*number as usize))?;
        }
        Ok(())
    }
}
