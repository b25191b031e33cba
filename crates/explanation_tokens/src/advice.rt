//! Pieces of advice on unexpected tokens, and their words.

ghost use Rattle.std.specs.Prelude.{◌≡◌, ◌≤◌, IfOk, OnOk, string_bytes};
ghost use Rattle.std.specs.Fmt.{decimal};
ghost use Rattle.std.specs.List.{flat_map};
ghost use Rattle.std.specs.Option.{option_map};
ghost use Rattle.locks.specs.Texts.{AddsText};
ghost use Rattle.source.specs.Tokens.{Tok, seen, seen_token};
ghost use Rattle.explanation.specs.Notes.{note_of};
ghost use Rattle.explanation_tokens.specs.Advice.{advice_words, column_text, filled, told_place, token_text, words};
ghost use Rattle.explanation_tokens.specs.Working.Seen.{noted, token_seen};

use crate::view::View;
use explanation::Note;
use source::memory::NoMemory;
use source::token::{Keyword, Token};
use std::alloc::{AllocError, Global};

/// A piece of advice.
#[derive(Clone, Copy)]
pub enum Advice {
    /// The keyword that may be meant by a name.
    Meant(Keyword),
    Do,
    Switch,
    Void,
    Equality,
    Unopened,
    Whole,
    Decimal,
    PoolSize,
    NoLocking,
    ListedClasses,
    Comment,
    For,
    Leave,
    Skip,
    ElseIf,
    ElseBlock,
    Condition,
    Block,
    NameFirst,
    TypeMissing,
    ValueMissing,
    LocalInt,
    LocalRef,
    Truth,
    TrueValue,
    FalseValue,
    New,
    LocalTyped,
    Update,
    UpdateField,
    UpdatePlace,
    Step,
    Arrow,
    StepField,
    StepPlace,
    NoStep,
    NoStepDown,
    TwiceMinus,
    TwiceNot,
    ArrowValue,
    ShiftLeft,
    ShiftRight,
    Chain,
    ChainOf,
    PrintOne,
    Element,
    ElementOf,
    WhereEquals,
    WhereName,
    WhereLet,
    CallMissing,
    NoReturn,
    ResultBehind,
    ParameterType,
    TopInt,
    TopRef,
    LockArray,
    FieldArray,
    GlobalStruct,
    NameAlone,
    NoSemicolon,
    Semicolon,
    CallBound,
    OpenParen,
    OpenBrace,
}

impl Advice {
    /// The words of the advice, in which `A` to `G` stand for the seven tokens of a shape.
    fn words(self) -> &'static str
        ensures { result.now ≡ words self }
    {
        match self {
            Advice::Meant(_) => " could be meant",
            Advice::Do => "there is no `do`: write the block once ahead of `while (..) { .. }`",
            Advice::Switch =>
                "there is no `switch`: write `if (..) { .. } else { if (..) { .. } }`",
            Advice::Void =>
                "a section is declared by `atomic G(..) { .. }`, a helper by `call G(..) { .. }`",
            Advice::Equality =>
                "two values are compared by `==`, and an `=` stands in a statement of its own",
            Advice::Unopened =>
                "this `}` closes nothing: it is one too many, or a `{` is missing before it",
            Advice::Whole => "numbers are whole: there are no fractions",
            Advice::Decimal => "a number is written with decimal digits alone",
            Advice::PoolSize => "a pool says how many objects it has: `pool D E[1];`",
            Advice::NoLocking => "leave it out: the compiler takes the locks and gives them back",
            Advice::ListedClasses =>
                "`lock(S.l)` stands once, after the result's type, in the head of an `atomic`; a helper's locks are those of what calls it",
            Advice::Comment => "a comment begins with `//`, and goes to the end of the line",
            Advice::For => "there is no `for`: write `while (..) { .. }`",
            Advice::Leave => "there is no `E`: make the condition of the `while` false",
            Advice::Skip => "there is no `E`: put the rest of the turn into an `if`",
            Advice::ElseIf => "write `else { if (..) { .. } }`",
            Advice::ElseBlock => "what follows `else` is put between `{` and `}`",
            Advice::Condition => "a condition stands in parentheses: `E (..) { .. }`",
            Advice::Block => "what an `if` or a `while` guards is put between `{` and `}`",
            Advice::NameFirst => "the name comes first: `E G: int = ..;`",
            Advice::TypeMissing => {
                "a local is declared with its type: `D E: int = ..;`, or `D E: ref S = ..;`"
            }
            Advice::ValueMissing => "a local begins with a value: `B C: int = 0;`",
            Advice::LocalInt => {
                "a local is declared by `let G: int = ..;`, or by `var G: int = ..;` if it is assigned to"
            }
            Advice::LocalRef => "a reference is bound by `let n: ref G = ..;`",
            Advice::Truth => {
                "there is no `bool`: take an `int`, and write `x == 1` for a condition"
            }
            Advice::TrueValue => "there is no `true`: take an `int`, and write 1 for it",
            Advice::FalseValue => "there is no `false`: take an `int`, and write 0 for it",
            Advice::New => {
                "there is no `new`: the objects of F are those of its pools, as `pool F p[1];` declares them"
            }
            Advice::LocalTyped => {
                "a local is declared by `let F: int = ..;`, or `let F: ref E = ..;`"
            }
            Advice::Update => "there is no `FG`: write `E = E F ..;`",
            Advice::UpdateField => "there is no `FG`: write `C.E = C.E F ..;`",
            Advice::UpdatePlace => "there is no `FG`: write the place on both sides of an `=`",
            Advice::Step => "there is no `FG`: write `E = E F 1;`",
            Advice::Arrow => "write `E.` for `E->`",
            Advice::StepField => "there is no `FG`: write `C.E = C.E F 1;`",
            Advice::StepPlace => "there is no `FG`: write the place on both sides of an `=`",
            Advice::NoStep => {
                "there is no `++`: write `x = x + 1;`, and `x` where its value is needed"
            }
            Advice::NoStepDown => {
                "there is no `--`: write `x = x - 1;`, and `x` where its value is needed"
            }
            Advice::TwiceMinus => "write `-(-..)`",
            Advice::TwiceNot => "write `!(!..)`",
            Advice::ArrowValue => "write `D.` for `D->`",
            Advice::ShiftLeft => "there are no shifts: multiply by a power of two",
            Advice::ShiftRight => "there are no shifts: divide by a power of two",
            Advice::Chain => "comparisons are not chained: write `C D E && E F G`",
            Advice::ChainOf => "comparisons are not chained: join two of them by `&&`",
            Advice::PrintOne => {
                "`print` prints one value: write `print E;`, and a `print` of its own for the next"
            }
            Advice::Element => {
                "bind the object first: `let m: ref S = B[D];` with its struct for S, and then `m.G`"
            }
            Advice::ElementOf => {
                "bind the object first: `let m: ref S = ..;` with its struct for S, and then `m.G`"
            }
            Advice::WhereEquals => "a `where` has two names: `where E == ..`",
            Advice::WhereName => "a `where` ends with a name: bind `E.G` by a `let` first",
            Advice::WhereLet => {
                "only a `let` has a `where`, as in `let n: ref S = .. where ..;`"
            }
            Advice::CallMissing => {
                "a helper is called by `call E(..);`, or by `let y: int = call E(..);`"
            }
            Advice::NoReturn => {
                "leave it out: a section without a result ends where its body does"
            }
            Advice::ResultBehind => {
                "the type of a result follows the parameters: `E f(..) : int { .. }`"
            }
            Advice::ParameterType => "a parameter begins with its type: `int F`, or `ref S F`",
            Advice::TopInt => {
                "a section is declared by `atomic G(..) : int { .. }`, data by `global int G protected_by(..);`"
            }
            Advice::TopRef => "data is declared by `global ref G .. protected_by(..);`",
            Advice::LockArray => {
                "there are no arrays of locks: put the lock into a struct, and declare a pool of it"
            }
            Advice::FieldArray => {
                "a struct has no arrays: declare a pool of what they would hold, or a global array"
            }
            Advice::GlobalStruct => "objects are declared by a pool: `pool F G[1];`",
            Advice::NameAlone => "a name alone is not a statement: write `E = ..;`",
            Advice::NoSemicolon => "leave this `;` out",
            Advice::Semicolon => "a `;` may be missing after this",
            Advice::CallBound => "bind the result first: `let y: int = call G(..);`",
            Advice::OpenParen => "this `(` is not closed",
            Advice::OpenBrace => "this `{` is not closed",
        }
    }
}

/// Appends a number.
fn push_number(out: &mut String, number: u64) -> Result<(), AllocError>
    ensures { OnOk result (AddsText (decimal number) out.old out.new) }
{
    write!(out, "{number}")
}

/// Appends a token as it is written, without leading zeros.
fn push_token(out: &mut String, token: &Token) -> Result<(), AllocError>
    ensures { OnOk result (AddsText (token_text (seen_token token.now)) out.old out.new) }
{
    match token {
        Token::Name(_, text) => out.push_str(text.as_str()),
        Token::Int(_, value) => push_number(out, u64::from(*value)),
        Token::Large(number) => push_number(out, number.value),
        Token::Word(_, word) => out.push_str(word.text()),
        Token::Mark(_, sign) => out.push_str(sign.text()),
        Token::End(_) => Ok(()),
    }
}

impl View<'_> {
    /// Appends the token at a column.
    fn push_column(&self, out: &mut String, column: usize) -> Result<(), AllocError>
        requires { column ≤ 6 }
        ensures { OnOk result
            (AddsText (column_text (seen self.now.tokens.now) self.now.number column) out.old out.new) }
    {
        match self.there(column) {
            Some(token) => push_token(out, token),
            None => Ok(()),
        }
    }

    /// Appends a byte of the words, or the token that it stands for.
    fn push_byte(&self, out: &mut String, byte: u8) -> Result<(), AllocError>
        ensures { OnOk result (AddsText (filled (seen self.now.tokens.now) self.now.number byte) out.old out.new) }
    {
        match byte {
            b'A'..=b'G' => self.push_column(out, usize::from(byte - b'A')),
            b' '..=b'~' => out.push(char::from(byte)),
            _ => Ok(()),
        }
    }

    fn push_filled(&self, out: &mut String, words: &str) -> Result<(), AllocError>
        ensures { OnOk result
            (AddsText (flat_map (filled (seen self.now.tokens.now) self.now.number) words.now) out.old out.new) }
    {
        for byte in words.as_bytes() {
            self.push_byte(out, *byte)?;
        }
        Ok(())
    }

    /// The advice in words.
    fn words(&self, alloc: Global, advice: Advice) -> Result<String, AllocError>
        ensures { IfOk result
            (λ text. string_bytes text ≡ advice_words (seen self.now.tokens.now) self.now.number advice) }
    {
        let mut out = String::new(alloc);
        if let Advice::Meant(word) = advice {
            out.push_str("`")?;
            out.push_str(word.text())?;
            out.push_str("`")?;
        }
        self.push_filled(&mut out, advice.words())?;
        Ok(out)
    }

    /// The byte of the text that the advice is about, if it is about one.
    fn start(&self, advice: Advice) -> Option<usize>
        ensures { result ≡ told_place (seen self.now.tokens.now) self.now.number self.now.inner advice }
    {
        match advice {
            Advice::Semicolon => start_of(self.there(4)),
            Advice::OpenParen | Advice::OpenBrace => match self.inner {
                Some(opened) => Some(opened.start as usize),
                None => None,
            },
            _ => None,
        }
    }

    /// The note of the first row that fits.
    pub fn note(&self, alloc: Global) -> Result<Option<Note>, NoMemory>
        ensures { IfOk result (λ note. option_map note_of note ≡ noted self.now) }
    {
        let Some(row) = self.first_row() else {
            return Ok(None);
        };
        let words = self.words(alloc, row.3)?;
        Ok(Some(Note {
            start: self.start(row.3),
            words,
        }))
    }
}

fn start_of(token: Option<&Token>) -> Option<usize>
    ensures { result ≡ option_map (λ (t : Tok). t.span.start) (option_map token_seen token.entry) }
{
    match token {
        Some(token) => Some(token.start() as usize),
        None => None,
    }
}
