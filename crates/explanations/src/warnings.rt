//! The warnings of a program.

ghost use Rattle.std.specs.Prelude.{◌≡◌, ◌∷◌, [], IfOk, OnOk, Some, map, slice_get};
ghost use Rattle.std.specs.List.{list_any};
ghost use Rattle.explanation.specs.Warnings.{warning_of};
ghost use Rattle.resolution.specs.Annotations.{class_number};
ghost use Rattle.syntax.specs.Views.{decl_of, ident, tree_of};
ghost use Rattle.explanations.specs.Warnings.{AreWarnings, a_helper, a_lock, a_section, subjects_from, subjects_of};
ghost use Rattle.explanations.specs.Working.Judged.{AddsWarnings, decls_in, own_locks_of};

use crate::body::push_body;
use crate::program::Program;
use explanation::{Warned, Warning};
use source::memory::NoMemory;
use std::alloc::Global;
use syntax::tree::{Decl, Member, Name, Tree};

impl Program<'_> {
    // Appends the warning on a lock of the class `class`, if it is warned of.
    fn push_lock(
        &self,
        class: usize,
        name: &Name,
        warnings: &mut Vec<Warning>,
    ) -> Result<(), NoMemory>
        ensures { OnOk result (AddsWarnings self.now (a_lock class (ident name.now) ∷ []) warnings.old warnings.new) }
    {
        if self.classes.contains(&class) {
            return Ok(());
        }
        let text = String::from_str(self.maker.alloc, name.text.as_str())?;
        warnings.push(Warning {
            start: name.start as usize,
            what: Warned::UselessLock(text),
        })?;
        Ok(())
    }

    // Appends the warnings on the locks among the members of the struct at `place`; the first lock has the number 0 in
    // the struct.
    fn push_own_locks(
        &self,
        place: usize,
        members: &[Member],
        warnings: &mut Vec<Warning>,
    ) -> Result<(), NoMemory>
        ensures { OnOk result
            (AddsWarnings self.now (own_locks_of self.now place members.now) warnings.old warnings.new) }
    {
        let mut number = 0;
        for member in members {
            if let Member::Lock(name) = member {
                self.push_lock(self.symbols.class(place, number), name, warnings)?;
                number += 1;
            }
        }
        Ok(())
    }

    fn push_helper(&self, name: &Name, warnings: &mut Vec<Warning>) -> Result<(), NoMemory>
        ensures { OnOk result (AddsWarnings self.now (a_helper (ident name.now) ∷ []) warnings.old warnings.new) }
    {
        if self.helpers.contains(name) {
            return Ok(());
        }
        let text = String::from_str(self.maker.alloc, name.text.as_str())?;
        warnings.push(Warning {
            start: name.start as usize,
            what: Warned::UncalledHelper(text),
        })?;
        Ok(())
    }

    fn push_section(&self, name: &Name, warnings: &mut Vec<Warning>) -> Result<(), NoMemory>
        ensures { OnOk result (AddsWarnings self.now (a_section (ident name.now) ∷ []) warnings.old warnings.new) }
    {
        if !self.has_thread || self.sections.contains(name) {
            return Ok(());
        }
        let text = String::from_str(self.maker.alloc, name.text.as_str())?;
        warnings.push(Warning {
            start: name.start as usize,
            what: Warned::UncalledSection(text),
        })?;
        Ok(())
    }

    // Appends the warnings on the declaration at `place` and on what is in it.
    fn push_of(
        &self,
        place: usize,
        decl: &Decl,
        warnings: &mut Vec<Warning>,
    ) -> Result<(), NoMemory>
        ensures { OnOk result (AddsWarnings self.now
            (subjects_of (decls_in self.now) place (decl_of decl.now)) warnings.old warnings.new) }
    {
        match decl {
            Decl::Lock(name) => self.push_lock(self.symbols.class(place, 0), name, warnings),
            Decl::Struct(structure) => self.push_own_locks(place, &structure.members, warnings),
            Decl::Atomic(section) => {
                self.push_section(&section.name, warnings)?;
                push_body(self, section, warnings)
            }
            Decl::Helper(section) => {
                self.push_helper(&section.name, warnings)?;
                push_body(self, section, warnings)
            }
            Decl::Global(_) | Decl::Array(_) | Decl::Pool(_) | Decl::Init(_) | Decl::Thread(_) =>
                Ok(()),
        }
    }
}

impl Program<'_> {
    // Appends the warnings on the declarations, from the first on, and on what is in them.
    fn push_all(&self, decls: &[Decl], warnings: &mut Vec<Warning>) -> Result<(), NoMemory>
        ensures { OnOk result (AddsWarnings self.now
            (subjects_from (decls_in self.now) 0 (map decl_of decls.now)) warnings.old warnings.new) }
    {
        for (place, decl) in decls.iter().enumerate() {
            self.push_of(place, decl, warnings)?;
        }
        Ok(())
    }
}

/// The warnings on a program, in the order of the text.
///
/// # Errors
///
/// `NoMemory`: a growth was refused.
#[tactic(auto, using(crate::proofs::Sifted::are_warnings))]
pub fn program_warnings(alloc: Global, tree: &Tree) -> Result<Vec<Warning>, NoMemory>
    ensures { IfOk result (λ warnings. AreWarnings (tree_of tree.now) (map warning_of warnings.items)) }
{
    let program = Program::of(alloc, tree)?;
    let mut warnings = Vec::new(alloc);
    program.push_all(&tree.decls, &mut warnings)?;
    Ok(warnings)
}
