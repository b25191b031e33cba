//! The notes on a fault, given the tree.

ghost use Rattle.std.specs.Prelude.{◌≡◌, Decides, IfOk, None, Some, map};
ghost use Rattle.std.specs.Option.{option_map};
ghost use Rattle.explanation.specs.Notes.{note_of};
ghost use Rattle.source.specs.declared.fault.Code.TheVariants.{FinalWithoutOpeningValue, LimitExceeded, UnknownName};
ghost use Rattle.source.specs.Tokens.{seen};
ghost use Rattle.syntax.specs.Views.{decl_of, section_of};
ghost use Rattle.types_symbols.specs.{decls_of as decls_in};
ghost use Rattle.resolution.specs.Scopes.{has_body};
ghost use Rattle.explanation_faults.specs.FaultNotes.{AreNotes, HasNearName, IsDeclaredNote, IsGivenNote, IsLockNote, IsPassedNote, IsReturnNote};
ghost use Rattle.explanation_names.specs.NameSpaces.{IsDeclaredAs, IsDeclaredIn};
ghost use Rattle.explanation_names.specs.TokensThere.{name_there};
ghost use Rattle.explanation_faults.specs.Working.VarsFound.{note_of_var, var_noted};
ghost use Rattle.explanation_faults.specs.Working.Values.{AreNotesOn, AreReturnNotes, IsKnownOf, LacksNone, FoundNote, FoundReason, FoundWhy, IsReasonIfTold, IsLimitIfTold, IsNoteIfTold, decls_of, tokens_of};
ghost use Rattle.explanation_names.specs.Working.Viewed.{FoundName, stmt_at};
ghost use Rattle.explanation_names.specs.Working.Values.{idents};

use crate::amounts_passed::amount_passed;
use crate::first_inits::first_given;
use crate::helper_limits::helper_limit;
use crate::limits_passed::limit_passed;
use crate::lock_paths::are_paths_past;
use crate::locks_at_hand::lock_at_hand;
use crate::missing_inits::{gap_at, null_given};
use crate::noted::{gap_note, init_note, lock_note, name_note};
use crate::reasons::reason_note;
use explanation::Note;
use explanation_names::missing_returns::lacking;
use explanation_names::name_spaces::{classes_in, inner_names_of, member_name, top_names_of};
use explanation_names::near_name;
use explanation_names::null_meant::is_null_meant;
use explanation_names::passed_members::{Sought, passed_member};
use explanation_names::same_names::{first_of_classes, first_of_others, first_of_same};
use explanation_names::tokens_there::{has_two_fields, name_of, name_there, token_at, token_of};
use explanation_names::vars::{all_of, section_there, some_assigns, var_named};
use resolution::why::Why;
use source::fault::{Code, Fault};
use source::memory::NoMemory;
use source::token::Token;
use std::alloc::Global;
use syntax::tree::{Decl, Name, Section, Stmt};
use types_symbols::table::SymbolTable;

/// Whether a declaration is a section or a helper.
fn is_body(decl: &Decl) -> bool
    ensures { result ≡ has_body (decl_of decl.now) }
{
    matches!(decl, Decl::Atomic(_) | Decl::Helper(_))
}

/// The note `NAME is a var` for the `var` of this name among statements, which says whether a `let` would do in its
/// place.
fn note_of_var(
    alloc: Global,
    is_long: bool,
    text: &str,
    all: &[&Stmt],
) -> Result<Option<Note>, NoMemory>
    ensures { IfOk result (λ note. option_map note_of note ≡ note_of_var is_long text.now (map stmt_at all.now)) }
{
    let Some(name) = var_named(text, all) else {
        return Ok(None);
    };
    let words = if is_long || some_assigns(text, all) {
        " is a var, declared here"
    } else {
        " is a var, declared here, and never assigned: a let would do"
    };
    let note = name_note(alloc, name, words)?;
    Ok(Some(note))
}

/// Whether a section or a helper is without a result type.
fn is_typeless(section: &Section) -> bool
    ensures { Decides result ((section_of section.now).result ≡ None) }
{
    section.result.is_none()
}

/// The note that the section or helper at `at` is without a result type, or that the `return` is misplaced, where none
/// is missing.
fn note_of_misplaced(alloc: Global, decls: &[Decl], at: usize) -> Result<Note, NoMemory>
    requires { LacksNone (map decl_of decls.now) at }
    ensures { IfOk result (λ note. IsReturnNote (map decl_of decls.now) at (note_of note)) }
{
    if let Some(section) = section_there(decls, at) {
        if is_typeless(section) {
            let words = " has no result type: write one after its parameters, as : int";
            return name_note(alloc, &section.name, words);
        }
    }
    let words = "this return is not the last statement of a body with a result";
    Ok(Note {
        start: None,
        words: String::from_str(alloc, words)?,
    })
}

/// The note on the missing `return`, or on what else is wrong with the one at `at`.
fn note_of_return(alloc: Global, decls: &[Decl], at: usize) -> Result<Note, NoMemory>
    ensures { IfOk result (λ note. IsReturnNote (map decl_of decls.now) at (note_of note)) }
{
    let Some(name) = lacking(decls, at) else {
        return note_of_misplaced(alloc, decls, at);
    };
    name_note(
        alloc,
        name,
        " has a result, and its body does not end in a return",
    )
}

/// The notes on a misplaced or missing `return`, given the declarations of a tree.
pub fn return_notes(alloc: Global, decls: &[Decl], at: usize) -> Result<Vec<Note>, NoMemory>
    ensures { IfOk result (λ notes. AreReturnNotes (map decl_of decls.now) at (map note_of notes.items)) }
{
    let mut notes = Vec::new(alloc);
    let note = note_of_return(alloc, decls, at)?;
    notes.push(note)?;
    Ok(notes)
}

/// The tokens and the declarations of a tree, with the place of its fault and its reason.
#[derive(Drop)]
pub struct Faulty<'a> {
    /// The tokens.
    pub tokens: &'a [Token],
    /// The declarations.
    pub symbols: &'a SymbolTable<'a>,
    /// The byte at which the fault starts.
    pub at: usize,
    /// The reason of the fault, if its code doesn't say all and it is the first of its tree.
    pub why: Option<Why>,
}

impl<'a> Faulty<'a> {
    // The first declaration of the name that starts at `at`, if the name is an inner one of `decl`.
    fn declared_in(
        &self,
        alloc: Global,
        top: &[&'a Name],
        decl: &'a Decl,
    ) -> Result<Option<&'a Name>, NoMemory>
        ensures { IfOk result (FoundName (IsDeclaredIn (idents top.now) (decl_of decl.now) self.now.at)) }
    {
        let inner = inner_names_of(alloc, decl)?;
        if let Some(first) = first_of_same(&inner, self.at) {
            return Ok(Some(first));
        }
        if let Some(first) = first_of_classes(classes_in(decl), self.at) {
            return Ok(Some(&first.structure));
        }
        if is_body(decl) {
            return Ok(first_of_others(top, &inner, self.at));
        }
        Ok(None)
    }

    // The first declaration of the name that starts at `at`.
    fn declared_first(&self, alloc: Global) -> Result<Option<&'a Name>, NoMemory>
        ensures { IfOk result (FoundName (IsDeclaredAs (decls_of self.now) self.now.at)) }
    {
        let decls = self.symbols.items();
        let top = top_names_of(alloc, decls)?;
        if let Some(first) = first_of_same(&top, self.at) {
            return Ok(Some(first));
        }
        for decl in decls {
            if let Some(first) = self.declared_in(alloc, &top, decl)? {
                return Ok(Some(first));
            }
        }
        Ok(None)
    }

    // The note `NAME is declared here`.
    fn declared_note(&self, alloc: Global) -> Result<Option<Note>, NoMemory>
        ensures { IfOk result (FoundNote (IsDeclaredNote (decls_of self.now) self.now.at)) }
    {
        let Some(first) = self.declared_first(alloc)? else {
            return Ok(None);
        };
        let note = name_note(alloc, first, " is declared here")?;
        Ok(Some(note))
    }

    // The note `NAME could be meant, and is declared here`; or that `null` could be meant, where no name could.
    fn near_note(&self, alloc: Global) -> Result<Option<Note>, NoMemory>
        ensures { IfOk result (IsNoteIfTold self.now UnknownName) }
    {
        let Some(text) = name_there(self.at, self.tokens) else {
            return Ok(None);
        };
        let Some(name) = near_name(alloc, self.symbols, text, self.at)? else {
            return self.null_note(alloc, text);
        };
        let note = name_note(alloc, name, " could be meant, and is declared here")?;
        Ok(Some(note))
    }

    // The note that `null` could be meant by a name without a similar one.
    fn null_note(&self, alloc: Global, name: &str) -> Result<Option<Note>, NoMemory>
        requires there { name_there self.now.at (tokens_of self.now) ≡ Some name.now }
        requires none { HasNearName (tokens_of self.now) (decls_of self.now) self.now.at → ⊥ }
        ensures { IfOk result (IsNoteIfTold self.now UnknownName) }
    {
        if !is_null_meant(alloc, self.tokens, self.at, name)? {
            return Ok(None);
        }
        Ok(Some(Note {
            start: None,
            words: String::from_str(alloc, "`null` could be meant")?,
        }))
    }

    // The note `NAME could protect it`.
    fn lock_note(&self, alloc: Global) -> Result<Option<Note>, NoMemory>
        ensures { IfOk result (FoundNote (IsLockNote (decls_of self.now) self.now.at)) }
    {
        let Some(name) = lock_at_hand(self.symbols.items(), self.at) else {
            return Ok(None);
        };
        let note = lock_note(alloc, name)?;
        Ok(Some(note))
    }

    // The note that NAME is declared here, and is not a final reference.
    fn passed_note(&self, alloc: Global) -> Result<Option<Note>, NoMemory>
        ensures { IfOk result (FoundNote (IsPassedNote (decls_of self.now) self.now.at)) }
    {
        let Some(member) = passed_member(self.symbols, Sought::NonFinal(self.at)) else {
            return Ok(None);
        };
        let name = member_name(member);
        let note = name_note(
            alloc,
            name,
            " is declared here, and is not a final reference",
        )?;
        Ok(Some(note))
    }

    // The note with the reason of the fault with this code.
    fn reason_note(&self, alloc: Global, code: Code) -> Result<Option<Note>, NoMemory>
        requires { FoundReason (decls_of self.now) code self.now.at self.now.why }
        ensures { IfOk result (IsReasonIfTold self.now code) }
    {
        let Some(why) = self.why else {
            return Ok(None);
        };
        let note = reason_note(alloc, self.symbols, why)?;
        Ok(Some(note))
    }

    // The note `NAME is a var`, which says whether a `let` would do.
    fn var_note(&self, alloc: Global) -> Result<Option<Note>, NoMemory>
        ensures { IfOk result
            (λ note. option_map note_of note ≡ var_noted (tokens_of self.now) (decls_of self.now) self.now.at) }
    {
        let Some(i) = token_at(self.at, self.tokens) else {
            return Ok(None);
        };
        let Some(text) = name_of(token_of(i, self.tokens)) else {
            return Ok(None);
        };
        let Some(section) = section_there(self.symbols.items(), self.at) else {
            return Ok(None);
        };
        let all = all_of(alloc, &section.body.stmts)?;
        note_of_var(alloc, has_two_fields(i, self.tokens), text, &all)
    }

    // The words on the exceeded limit.
    fn limit(&self, alloc: Global) -> Result<Option<&'static str>, NoMemory>
        ensures { IfOk result (IsLimitIfTold self.now) }
    {
        if let Some(words) = limit_passed(alloc, self.symbols.items(), self.at)? {
            return Ok(Some(words));
        }
        if let Some(words) = amount_passed(self.symbols, self.at)? {
            return Ok(Some(words));
        }
        if let Some(_) = passed_member(self.symbols, Sought::FinalTooMany(self.at)) {
            return Ok(Some("an annotation goes over at most 3 final references"));
        }
        if let Some(words) = helper_limit(alloc, self.symbols, self.at)? {
            return Ok(Some(words));
        }
        if are_paths_past(alloc, self.tokens, self.at)? {
            return Ok(Some("a section has at most 64 lock paths that differ"));
        }
        Ok(None)
    }

    // The note on the exceeded limit.
    fn limit_note(&self, alloc: Global) -> Result<Option<Note>, NoMemory>
        ensures { IfOk result (IsNoteIfTold self.now LimitExceeded) }
    {
        let Some(words) = self.limit(alloc)? else {
            return Ok(None);
        };
        Ok(Some(Note {
            start: None,
            words: String::from_str(alloc, words)?,
        }))
    }

    // The note on the missing `init`, or on the final reference that is set to null.
    fn final_note(&self, alloc: Global) -> Result<Option<Note>, NoMemory>
        ensures { IfOk result (IsNoteIfTold self.now FinalWithoutOpeningValue) }
    {
        if let Some(gap) = gap_at(self.symbols, self.at) {
            let note = gap_note(alloc, &gap)?;
            return Ok(Some(note));
        }
        if let Some(reference) = null_given(self.symbols, self.at) {
            let note = name_note(alloc, &reference.name, " is final, and is never null")?;
            return Ok(Some(note));
        }
        Ok(None)
    }

    // The note `FIELD is given here`.
    fn given_note(&self, alloc: Global) -> Result<Option<Note>, NoMemory>
        ensures { IfOk result (FoundNote (IsGivenNote (decls_of self.now) self.now.at)) }
    {
        let Some(first) = first_given(self.symbols.items(), self.at) else {
            return Ok(None);
        };
        let note = init_note(alloc, first)?;
        Ok(Some(note))
    }

    // The note on the missing `return`, or that none is missing.
    fn return_note(&self, alloc: Global) -> Result<Note, NoMemory>
        ensures { IfOk result (λ note. IsReturnNote (decls_of self.now) self.now.at (note_of note)) }
    {
        let note = note_of_return(alloc, self.symbols.items(), self.at)?;
        Ok(note)
    }

    // The note on the fault, if there is one.
    fn note(&self, alloc: Global, code: Code) -> Result<Option<Note>, NoMemory>
        requires { FoundWhy (decls_of self.now) code self.now.at self.now.why }
        ensures { IfOk result (IsNoteIfTold self.now code) }
    {
        match code {
            Code::DeclaredTwice => self.declared_note(alloc),
            Code::UnknownName => self.near_note(alloc),
            Code::WrongType => self.reason_note(alloc, Code::WrongType),
            Code::WrongArgumentCount => self.reason_note(alloc, Code::WrongArgumentCount),
            Code::NotAssignable => self.reason_note(alloc, Code::NotAssignable),
            Code::NeitherFinalNorProtected => self.lock_note(alloc),
            Code::ProtectedByPassesNonFinal => self.passed_note(alloc),
            Code::UnstableBase => self.var_note(alloc),
            Code::LimitExceeded => self.limit_note(alloc),
            Code::FinalWithoutOpeningValue => self.final_note(alloc),
            Code::InitOutOfRangeOrRepeated => self.given_note(alloc),
            Code::MisplacedReturn => {
                let note = self.return_note(alloc)?;
                Ok(Some(note))
            }
            _ => Ok(None),
        }
    }
}

/// A fault, and its reason, if its code doesn't say all and it is the first of its tree.
#[derive(Clone, Copy)]
pub struct Known<'a> {
    /// The fault.
    pub fault: &'a Fault,
    /// The reason.
    pub why: Option<Why>,
}

/// The notes on a fault, given tokens and the declarations of their tree.
pub fn tree_notes(
    alloc: Global,
    tokens: &[Token],
    symbols: &SymbolTable<'_>,
    known: Known<'_>,
) -> Result<Vec<Note>, NoMemory>
    requires { IsKnownOf (decls_in symbols.now) known }
    ensures { IfOk result
        (λ notes. AreNotesOn (seen tokens.now) (decls_in symbols.now) known.entry (map note_of notes.items)) }
{
    let faulty = Faulty {
        tokens,
        symbols,
        at: known.fault.start,
        why: known.why,
    };
    let mut notes = Vec::new(alloc);
    if let Some(note) = faulty.note(alloc, known.fault.code)? {
        notes.push(note)?;
    }
    Ok(notes)
}
