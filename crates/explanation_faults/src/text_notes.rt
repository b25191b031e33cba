//! The notes on a fault of a text, and the further faults.

ghost use Rattle.std.specs.Prelude.{◌≡◌, [], ◌∷◌, IfOk, IsTrue, map};
ghost use Rattle.explanation.specs.Notes.{note_of};
ghost use Rattle.explanation.specs.Further.{further_of, nothing_further};
ghost use Rattle.resolution.specs.Working.Laws.{the_firsts};
ghost use Rattle.source.specs.Tokens.{seen};
ghost use Rattle.syntax.specs.Views.{tree_of};
ghost use Rattle.explanation_faults.specs.FaultNotes.{AreNotes};
ghost use Rattle.explanation_faults.specs.FurtherFaults.{AreFurther};
ghost use Rattle.explanation_faults.specs.TextNotes.{AreTextNotes, IsMarkFault, has_mark, mark_words};
ghost use Rattle.explanation_faults.specs.Working.Values.{FoundTextLimit, IsItsFault};
ghost use Rattle.explanation_faults.specs.Words.{note_of_all};

use crate::further::others_of;
use crate::lock_paths::is_limit_at;
use crate::reasons::reason_of;
use crate::tree_notes::{Known, return_notes, tree_notes};
use explanation::{Further, Note};
use explanation_tokens::token_notes;
use lexer::lex;
use parser::{find_tree, one_tree};
use resolution::finding::Firsts;
use resolution::laws::{first_faults, least_fault, one_least};
use source::fault::{Code, Fault, Refusal};
use source::limits::SOURCE_LIMIT;
use source::memory::NoMemory;
use source::mistake::Mistake;
use source::token::Token;
use std::alloc::Global;
use syntax::tree::Tree;
use types::program;
use types_symbols::names::TableMaker;
use types_symbols::table::SymbolTable;

/// The note on a byte order mark.
const MARK: &str = "the file begins with a byte order mark: save it as ASCII or UTF-8 without one";

/// The words on the limit of the text itself that `fault` exceeds, if it is the one that was found.
fn text_limit(text: &[u8], found: &Fault, fault: &Fault) -> Option<&'static str>
    requires { IsItsFault text.now found.now }
    ensures { FoundTextLimit text.now fault.now result }
{
    if is_limit_at(found, fault.start) && is_limit_at(fault, found.start) {
        if text.len() > SOURCE_LIMIT {
            return Some("a source has at most 1048576 bytes");
        }
        return Some("a name has at most 64 bytes");
    }
    None
}

/// The notes on `fault` in a text without tokens, whose one fault is `found`.
fn limit_notes(
    alloc: Global,
    text: &[u8],
    found: &Fault,
    fault: &Fault,
) -> Result<Vec<Note>, NoMemory>
    requires its { IsItsFault text.now found.now }
    requires other { IsMarkFault text.now fault.now.code fault.now.start → ⊥ }
    ensures { IfOk result (λ notes. AreTextNotes text.now fault.now.code fault.now.start (map note_of notes.items)) }
{
    let mut notes = Vec::new(alloc);
    let Some(words) = text_limit(text, found, fault) else {
        return Ok(notes);
    };
    notes.push(Note {
        start: None,
        words: String::from_str(alloc, words)?,
    })?;
    Ok(notes)
}

/// Whether the text begins with a byte order mark.
fn has_mark(text: &[u8]) -> bool
    ensures { result ≡ has_mark text.now }
{
    text.starts_with(&[0xEF, 0xBB, 0xBF])
        || text.starts_with(&[0xFE, 0xFF])
        || text.starts_with(&[0xFF, 0xFE])
}

/// Whether the fault is the byte order mark with which the text begins.
fn is_mark(text: &[u8], fault: &Fault) -> bool
    ensures mark { IsTrue result → IsMarkFault text.now fault.now.code fault.now.start }
    ensures no_mark { IsMarkFault text.now fault.now.code fault.now.start → IsTrue result }
{
    match fault.code {
        Code::BadCharacter => { fault.start == 0 && text.len() <= SOURCE_LIMIT && has_mark(text) }
        _ => false,
    }
}

/// The notes on a byte order mark.
fn mark_notes(alloc: Global) -> Result<Vec<Note>, NoMemory>
    ensures { IfOk result (λ notes. map note_of notes.items ≡ note_of_all mark_words ∷ []) }
{
    let mut notes = Vec::new(alloc);
    notes.push(Note {
        start: None,
        words: String::from_str(alloc, MARK)?,
    })?;
    Ok(notes)
}

/// The notes on a fault, and the further faults.
#[derive(Debug, Drop)]
pub struct FaultTold {
    /// The notes.
    pub notes: Vec<Note>,
    /// The further faults.
    pub further: Further,
}

impl FaultTold {
    // The notes without a further fault.
    fn alone(alloc: Global, notes: Vec<Note>) -> FaultTold
        ensures notes { result.notes ≡ notes }
        ensures further { further_of result.further ≡ nothing_further }
    {
        FaultTold {
            notes,
            further: Further::none(alloc),
        }
    }
}

/// The notes on a fault of a tree.
fn notes_on_tree(
    alloc: Global,
    tokens: &[Token],
    tree: &Tree,
    judged: Judged<'_>,
) -> Result<Vec<Note>, NoMemory>
    requires { judged.firsts.now ≡ the_firsts (tree_of tree.now) }
    ensures { IfOk result
        (λ notes. AreNotes (seen tokens.now) (tree_of tree.now) judged.entry.fault.now.code judged.entry.fault.now.start
        (map note_of notes.items)) }
{
    let Judged { fault, firsts } = judged;
    // (this does not need a table of the declarations)
    if let Code::MisplacedReturn = fault.code {
        return return_notes(alloc, &tree.decls, fault.start);
    }
    let why = reason_of(firsts, fault);
    let mut again = Firsts::new();
    let maker = TableMaker {
        alloc,
        hashing: tree.hashing,
    };
    let symbols = SymbolTable::new(maker, &tree.decls, &mut again)?;
    tree_notes(alloc, tokens, &symbols, Known { fault, why })
}

/// A fault, and the first faults of its tree.
#[derive(Clone, Copy)]
struct Judged<'a> {
    fault: &'a Fault,
    firsts: &'a Firsts,
}

/// The notes on a fault that is not a byte order mark, and the further faults.
fn other_told(alloc: Global, text: &[u8], fault: &Fault) -> Result<FaultTold, NoMemory>
    requires { IsMarkFault text.now fault.now.code fault.now.start → ⊥ }
    ensures notes { IfOk result
        (λ told. AreTextNotes text.now fault.now.code fault.now.start (map note_of told.notes.items)) }
    ensures further { IfOk result
        (λ told. AreFurther text.now fault.now.code fault.now.start (further_of told.further)) }
{
    one_tree();
    least_fault();
    one_least();
    first_faults();
    let tokens = match lex(alloc, text) {
        Ok(tokens) => tokens,
        Err(Refusal::Fault(found)) => {
            let notes = limit_notes(alloc, text, &found, fault)?;
            return Ok(FaultTold::alone(alloc, notes));
        }
        Err(Refusal::NoMemory) => return Err(NoMemory),
    };
    let Some(tree) = find_tree(alloc, &tokens)? else {
        let notes = token_notes(alloc, tokens, fault)?;
        return Ok(FaultTold::alone(alloc, notes));
    };
    let firsts = program::first_faults(alloc, &tree)?;
    let asked = Mistake {
        code: fault.code,
        start: fault.start,
    };
    let further = others_of(alloc, &firsts, asked)?;
    let judged = Judged {
        fault,
        firsts: &firsts,
    };
    let notes = notes_on_tree(alloc, &tokens, &tree, judged)?;
    Ok(FaultTold { notes, further })
}

/// The notes on `fault`, and the further faults. Only these faults have notes. An unexpected token has the advice on
/// it, and all tokens that could come in its place. A byte order mark is named. A fault of a name has the place where
/// the name is declared first, or the declared name that could be meant by an unknown one. A wrong type or count, and a
/// name that can't be assigned to, have the reason. A name without an annotation has a lock that could protect it. A
/// fault of an annotation has the member that the annotation passes, and one of a base the `var` that the name is. The
/// others name the limit that is exceeded, the `init` that is missing or the first, or the `return` that is missing. If
/// `fault` is the first fault of names and types, the further faults are those after it, at most nineteen, and whether
/// there are more.
///
/// Each note is true. A fault has at most one note, but an unexpected token can have two: the advice, and then the
/// tokens that could come, each at most once. `E06` has a note if a name is near, or `null` is near and could stand
/// there. `E07` has one if something isn't what is expected or both sides are unlike, `E10` if a lock could protect the
/// name, `E13` if the `var` is found, and `E15` on helpers or lock paths if that is the first fault of its kind.
///
/// # Errors
///
/// `NoMemory`: a growth was refused.
pub fn fault_told(alloc: Global, text: &[u8], fault: &Fault) -> Result<FaultTold, NoMemory>
    ensures notes { IfOk result
        (λ told. AreTextNotes text.now fault.now.code fault.now.start (map note_of told.notes.items)) }
    ensures further { IfOk result
        (λ told. AreFurther text.now fault.now.code fault.now.start (further_of told.further)) }
{
    if is_mark(text, fault) {
        let notes = mark_notes(alloc)?;
        return Ok(FaultTold::alone(alloc, notes));
    }
    other_told(alloc, text, fault)
}
