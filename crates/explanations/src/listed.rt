//! The warnings on lock classes that sections list and don't need.

ghost use Rattle.std.specs.List.{list_any};
ghost use Rattle.std.specs.Prelude.{◌≡◌, ◌++◌, IfOk, OnOk, map, slice_get, string_bytes, Some};
ghost use Rattle.explanation.specs.Warnings.{warning_of};
ghost use Rattle.explanations.specs.ListedClasses.{is_of, is_needed, class_words, class_warning, class_warnings, section_warnings, listed_from, listed_warning};
ghost use Rattle.explanations.specs.Working.Judged.{Adds};
ghost use Rattle.locks.specs.LockPaths.{lock_path_of};
ghost use Rattle.lockpaths.specs.Paths.{ArePaths, AreSectionPaths};
ghost use Rattle.syntax.specs.Views.{class_name_of, decl_of, section_of};

use core_lang::tree::Section as TypedSection;
use core_lang::typed::Typed;
use explanation::{Warned, Warning};
use lockpaths::table::{Paths, SectionPaths};
use locks::path::LockPath;
use source::memory::NoMemory;
use std::alloc::{AllocError, Global};
use syntax::tree::{ClassName, Decl, Section};

// Whether one of the lock paths is of the class.
fn has_class(paths: &[LockPath], class: usize) -> bool
    ensures { result ≡ list_any (is_of class) (map lock_path_of paths.now) }
{
    for path in paths {
        if path.class == class {
            return true;
        }
    }
    false
}

// The class as it stands in the text, S.l.
fn class_text(alloc: Global, class: &ClassName) -> Result<String, AllocError>
    ensures { IfOk result (λ text. string_bytes text ≡ class_words (class_name_of class.now)) }
{
    let mut text = String::from_str(alloc, class.structure.text.as_str())?;
    text.push_str(".")?;
    text.push_str(class.lock.text.as_str())?;
    Ok(text)
}

// The warning on a listed class.
fn unneeded(alloc: Global, class: &ClassName) -> Result<Warning, AllocError>
    ensures { IfOk result (λ warning. warning_of warning ≡ listed_warning (class_name_of class.now)) }
{
    Ok(Warning {
        start: class.structure.start as usize,
        what: Warned::UnneededClass(class_text(alloc, class)?),
    })
}

// A section of a program, with its lock paths.
#[derive(Drop)]
struct Lister<'a> {
    alloc: Global,
    program: &'a Typed,
    section: &'a TypedSection,
    found: &'a SectionPaths,
}

impl Lister<'_> {
    // Whether one of the section's lock paths is of the class.
    fn needs(&self, class: usize) -> bool
        requires { AreSectionPaths self.now.program.now self.now.section.now self.now.found.now }
        ensures { result ≡ is_needed self.now.program.now self.now.section.now class }
    {
        has_class(&self.found.paths, class)
    }

    // Appends the warning on the class with this place in the section's list, if it is warned of.
    fn push_class(
        &self,
        place: usize,
        name: &ClassName,
        warnings: &mut Vec<Warning>,
    ) -> Result<(), NoMemory>
        requires { AreSectionPaths self.now.program.now self.now.section.now self.now.found.now }
        ensures { OnOk result (Adds
            (class_warning self.now.program.now self.now.section.now place (class_name_of name.now)) warnings.old
            warnings.new) }
    {
        let Some(class) = self.section.listed.get(place) else {
            return Ok(());
        };
        if self.needs(*class) {
            return Ok(());
        }
        warnings.push(unneeded(self.alloc, name)?)?;
        Ok(())
    }

    // Appends the warnings on the classes that the section lists.
    fn push_classes(&self, names: &[ClassName], warnings: &mut Vec<Warning>) -> Result<(), NoMemory>
        requires { AreSectionPaths self.now.program.now self.now.section.now self.now.found.now }
        ensures { OnOk result (Adds
            (class_warnings self.now.program.now self.now.section.now 0 (map class_name_of names.now)) warnings.old
            warnings.new) }
    {
        for (place, name) in names.iter().enumerate() {
            self.push_class(place, name, warnings)?;
        }
        Ok(())
    }
}

/// The warnings on listed classes of a program with helpers expanded, and its lock paths.
#[derive(Drop)]
pub struct ListedClasses<'a> {
    /// Where warnings are allocated.
    pub alloc: Global,
    /// The program.
    pub program: &'a Typed,
    /// Its lock paths.
    pub paths: &'a Paths,
}

impl ListedClasses<'_> {
    // Appends the warnings on the classes that a section lists, by its number in the program.
    fn push_section(
        &self,
        number: usize,
        section: &Section,
        warnings: &mut Vec<Warning>,
    ) -> Result<(), NoMemory>
        requires { ArePaths self.now.program.now self.now.paths.now }
        ensures { OnOk result
            (Adds (section_warnings self.now.program.now number (section_of section.now)) warnings.old warnings.new) }
    {
        let Some(typed) = self.program.sections.get(number) else {
            return Ok(());
        };
        let lister = Lister {
            alloc: self.alloc,
            program: self.program,
            section: typed,
            found: &self.paths.sections[number],
        };
        lister.push_classes(&section.listed, warnings)
    }

    /// Appends the warnings on the listed classes of all sections among `decls`.
    ///
    /// # Errors
    ///
    /// `NoMemory`: a growth was refused.
    pub fn push(&self, decls: &[Decl], warnings: &mut Vec<Warning>) -> Result<(), NoMemory>
        requires { ArePaths self.now.program.now self.now.paths.now }
        ensures { OnOk result
            (Adds (listed_from self.now.program.now 0 (map decl_of decls.now)) warnings.old warnings.new) }
    {
        let mut number = 0;
        for decl in decls {
            if let Decl::Atomic(section) = decl {
                self.push_section(number, section, warnings)?;
                number += 1;
            }
        }
        Ok(())
    }
}
