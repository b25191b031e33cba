//! The reason of a fault of names and types, in words.

ghost use Rattle.std.specs.Prelude.{◌≡◌, ◌++◌, IfOk, OnOk, string_bytes};
ghost use Rattle.std.specs.Fmt.{decimal};
ghost use Rattle.explanation.specs.Notes.{note_of};
ghost use Rattle.syntax.specs.Views.{tree_of};
ghost use Rattle.types_symbols.specs.{decls_of};
ghost use Rattle.resolution.specs.declared.why.Referent.TheVariants.{Local};
ghost use Rattle.explanation_faults.specs.ReasonNotes.{type_words, kind_words, want_words, referent_words, role_words, hint_words, unwanted_words, side_words, no_result_words, misnamed_words, count_words, fixed_words, reason_words, reason_note};
ghost use Rattle.explanation_faults.specs.Working.Values.{FoundWhy, FoundReason, IsReasonBy};

use core_lang::tree::LocalKind;
use core_lang::value::ValueType;
use explanation::Note;
use resolution::finding::Firsts;
use resolution::laws::{first_faults, least_fault, one_least};
use resolution::wanted::{Sort, Want};
use resolution::why::{Kind, Referent, Role, Why};
use source::fault::{Code, Fault};
use source::memory::NoMemory;
use std::alloc::{AllocError, Global};
use syntax::tree::Tree;
use types_symbols::table::SymbolTable;

/// The reason of `fault`, if it is the first of the faults.
fn first_reason(firsts: &Firsts, fault: &Fault) -> Option<Why>
    ensures { IsReasonBy FoundReason firsts.now fault.now result }
{
    least_fault();
    one_least();
    first_faults();
    let found = firsts.first()?;
    if found.code == fault.code && found.start == fault.start {
        return Some(found.why);
    }
    None
}

/// The reason of `fault`, if its code doesn't say all and it is the first of the faults.
pub fn reason_of(firsts: &Firsts, fault: &Fault) -> Option<Why>
    ensures { IsReasonBy FoundWhy firsts.now fault.now result }
{
    match fault.code {
        Code::WrongType => first_reason(firsts, fault),
        Code::WrongArgumentCount => first_reason(firsts, fault),
        Code::NotAssignable => first_reason(firsts, fault),
        _ => None,
    }
}

fn local_words(kind: LocalKind) -> &'static str
    ensures { result.now ≡ referent_words (Local kind) }
{
    match kind {
        LocalKind::Parameter => "a parameter",
        LocalKind::Let => "a let",
        LocalKind::Var => "a var",
    }
}

fn referent_words(referent: Referent) -> &'static str
    ensures { result.now ≡ referent_words referent }
{
    match referent {
        Referent::Nothing => "unknown",
        Referent::Local(kind) => local_words(kind),
        Referent::Lock => "a lock",
        Referent::Struct => "a struct",
        Referent::Global => "a global",
        Referent::Array => "an array",
        Referent::Pool => "a pool",
        Referent::Section => "a section",
        Referent::Helper => "a helper",
        Referent::Thread => "a thread",
    }
}

fn role_words(role: Role) -> &'static str
    ensures { result.now ≡ role_words role }
{
    match role {
        Role::Value => ", and a value is expected",
        Role::Elements => ", and an array or a pool is expected",
        Role::Local => ", and a local is expected",
        Role::Struct => ", and a struct is expected",
        Role::Pool => ", and a pool is expected",
        Role::Section => ", and a section is expected",
        Role::Helper => ", and a helper is expected",
        Role::Target => ", and keeps what it is",
    }
}

fn hint_words(role: Role, referent: Referent) -> &'static str
    ensures { result.now ≡ hint_words role referent }
{
    match (role, referent) {
        (Role::Value, Referent::Array) => ": take an element by its index",
        (Role::Value, Referent::Pool) => ": take a member by its index",
        (Role::Value, Referent::Helper) => {
            ": bind what it gives by let NAME: TYPE = call HELPER(..)"
        }
        (Role::Local, Referent::Global) => ": bind it by a let first, and take fields of that",
        (Role::Local, Referent::Array) => {
            ": bind an element by a let first, and take fields of that"
        }
        (Role::Local, Referent::Pool) => ": bind a member by a let first, and take fields of that",
        (Role::Section, Referent::Helper) => ": threads call what is declared by atomic",
        (Role::Helper, Referent::Section) => {
            ": sections and helpers call what is declared by call in place of atomic"
        }
        (Role::Target, Referent::Local(LocalKind::Parameter)) => {
            ": copy it into a var, and assign to that"
        }
        (Role::Target, Referent::Local(LocalKind::Let)) => ": declare it by var",
        (Role::Target, Referent::Array) => ": assign to its elements",
        (Role::Target, Referent::Pool) => ": bind a member by a let, and assign to its fields",
        _ => "",
    }
}

fn push_type(symbols: &SymbolTable, t: ValueType, words: &mut String) -> Result<(), AllocError>
    ensures { OnOk result (string_bytes words.new ≡ string_bytes words.old ++ type_words (decls_of symbols.now) t) }
{
    match t {
        ValueType::Integer => words.push_str("int"),
        ValueType::Reference(number) => {
            words.push_str("ref ")?;
            match symbols.structure(number) {
                Some(structure) => words.push_str(structure.item().name.text.as_str()),
                None => Ok(()),
            }
        }
    }
}

fn push_kind(symbols: &SymbolTable, kind: Kind, words: &mut String) -> Result<(), AllocError>
    ensures { OnOk result (string_bytes words.new ≡ string_bytes words.old ++ kind_words (decls_of symbols.now) kind) }
{
    match kind {
        Kind::Condition => words.push_str("a condition"),
        Kind::Value(Sort::Null) => words.push_str("null"),
        Kind::Value(Sort::Of(t)) => push_type(symbols, t, words),
    }
}

fn push_want(symbols: &SymbolTable, want: Want, words: &mut String) -> Result<(), AllocError>
    ensures { OnOk result (string_bytes words.new ≡ string_bytes words.old ++ want_words (decls_of symbols.now) want) }
{
    match want {
        Want::Anything => words.push_str("any value"),
        Want::Condition => words.push_str("a condition"),
        Want::Value(t) => push_type(symbols, t, words),
    }
}

/// The words of a reason that does not have parameters.
fn fixed_words(why: Why) -> &'static str
    ensures { result.now ≡ fixed_words why }
{
    match why {
        Why::OwnedInt => "expected a reference, found int",
        Why::OwnerField => "this field can change, and a final reference is expected",
        Why::ListedMember => "this member is not a lock",
        Why::FieldOfInt => "an int has no fields",
        Why::FieldOfLock => "a lock has no fields",
        Why::OperatorOfConditions => "this operator stands between conditions",
        Why::FinalTarget => "this is a final reference, and keeps what it is",
        Why::Plain => "",
        Why::Unwanted(_, _) => "",
        Why::Unlike(_, _) => "",
        Why::NoResult(_) => "",
        Why::Misnamed(_, _) => "",
        Why::Counted(_, _) => "",
    }
}

/// Appends what was expected and what was found.
fn push_unwanted(
    symbols: &SymbolTable,
    want: Want,
    kind: Kind,
    words: &mut String,
) -> Result<(), AllocError>
    ensures { OnOk result
        (string_bytes words.new ≡ string_bytes words.old ++ unwanted_words (decls_of symbols.now) want kind) }
{
    words.push_str("expected ")?;
    push_want(symbols, want, words)?;
    words.push_str(", found ")?;
    push_kind(symbols, kind, words)
}

/// Appends the words `ahead`, and the kind of an expression.
fn push_side(
    symbols: &SymbolTable,
    ahead: &str,
    kind: Kind,
    words: &mut String,
) -> Result<(), AllocError>
    ensures { OnOk result
        (string_bytes words.new ≡ string_bytes words.old ++ (ahead.now ++ kind_words (decls_of symbols.now) kind)) }
{
    words.push_str(ahead)?;
    push_kind(symbols, kind, words)
}

/// Appends the kinds of the sides of a comparison.
fn push_sides(
    symbols: &SymbolTable,
    left: Kind,
    right: Kind,
    words: &mut String,
) -> Result<(), AllocError>
    ensures { OnOk result
        (string_bytes words.new ≡ string_bytes words.old ++ side_words (decls_of symbols.now) left right) }
{
    push_side(symbols, "the left side is ", left, words)?;
    push_side(symbols, ", the right side is ", right, words)
}

fn push_no_result(symbols: &SymbolTable, t: ValueType, words: &mut String) -> Result<(), AllocError>
    ensures { OnOk result
        (string_bytes words.new ≡ string_bytes words.old ++ no_result_words (decls_of symbols.now) t) }
{
    words.push_str("expected ")?;
    push_type(symbols, t, words)?;
    words.push_str(", found no result")
}

fn push_misnamed(role: Role, referent: Referent, words: &mut String) -> Result<(), AllocError>
    ensures { OnOk result (string_bytes words.new ≡ string_bytes words.old ++ misnamed_words role referent) }
{
    words.push_str("this is ")?;
    words.push_str(referent_words(referent))?;
    words.push_str(role_words(role))?;
    words.push_str(hint_words(role, referent))
}

/// Appends the words `ahead`, and a number.
fn push_count(ahead: &str, count: usize, words: &mut String) -> Result<(), AllocError>
    ensures { OnOk result (string_bytes words.new ≡ string_bytes words.old ++ (ahead.now ++ decimal count)) }
{
    words.push_str(ahead)?;
    write!(words, "{count}")
}

fn push_counts(wanted: usize, given: usize, words: &mut String) -> Result<(), AllocError>
    ensures { OnOk result (string_bytes words.new ≡ string_bytes words.old ++ count_words wanted given) }
{
    push_count("arguments expected: ", wanted, words)?;
    push_count(", given: ", given, words)
}

fn push_reason(symbols: &SymbolTable, why: Why, words: &mut String) -> Result<(), AllocError>
    ensures { OnOk result (string_bytes words.new ≡ string_bytes words.old ++ reason_words (decls_of symbols.now) why) }
{
    match why {
        Why::Unwanted(want, kind) => push_unwanted(symbols, want, kind, words),
        Why::Unlike(left, right) => push_sides(symbols, left, right, words),
        Why::NoResult(t) => push_no_result(symbols, t, words),
        Why::Misnamed(role, referent) => push_misnamed(role, referent, words),
        Why::Counted(wanted, given) => push_counts(wanted, given, words),
        Why::Plain => words.push_str(fixed_words(why)),
        Why::OwnedInt => words.push_str(fixed_words(why)),
        Why::OwnerField => words.push_str(fixed_words(why)),
        Why::ListedMember => words.push_str(fixed_words(why)),
        Why::FieldOfInt => words.push_str(fixed_words(why)),
        Why::FieldOfLock => words.push_str(fixed_words(why)),
        Why::OperatorOfConditions => words.push_str(fixed_words(why)),
        Why::FinalTarget => words.push_str(fixed_words(why)),
    }
}

/// The note with the reason of a fault.
pub fn reason_note(alloc: Global, symbols: &SymbolTable, why: Why) -> Result<Note, NoMemory>
    ensures { IfOk result (λ note. note_of note ≡ reason_note (decls_of symbols.now) why) }
{
    let mut words = String::new(alloc);
    push_reason(symbols, why, &mut words)?;
    Ok(Note { start: None, words })
}
