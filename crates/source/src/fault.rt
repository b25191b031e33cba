//! Faults of a source text, and why a pass gives no result.

ghost use Rattle.std.specs.Prelude.{◌≡◌, [], string_bytes};
ghost use Rattle.source.specs.declared.fault.Refusal.TheVariants.{NoMemory};
ghost use Rattle.source.specs.Codes.{code_name, code_text};
ghost use Rattle.source.specs.Mistakes.{code_number};

use std::alloc::{AllocError, AllocFailed, Global};
use std::fmt;
use thiserror::Error;

/// The code of a fault, which says what is wrong with a text. It is printed as `E01` to `E20`.
#[derive(Clone, Copy, Debug, PartialEq, Eq)]
pub enum Code {
    /// `E01`: a byte that begins no token.
    BadCharacter,
    /// `E02`: a number above 9223372036854775807.
    NumberTooLarge,
    /// `E03`: an unexpected token: some program begins with the tokens before it, and none with it too.
    UnexpectedToken,
    /// `E04`: an opening sign inside 64 open ones.
    NestedTooDeep,
    /// `E05`: a name that is declared twice.
    DeclaredTwice,
    /// `E06`: a name that is not declared or not in scope, or a field that does not exist.
    UnknownName,
    /// `E07`: an expression, a constant or a name of another type or kind than expected.
    WrongType,
    /// `E08`: a call with too many or too few arguments.
    WrongArgumentCount,
    /// `E09`: the target of an assignment that can't be assigned to.
    NotAssignable,
    /// `E10`: a global or field that no lock protects and that is not final.
    NeitherFinalNorProtected,
    /// `E11`: an annotation whose last name is not a lock.
    ProtectedByNoLock,
    /// `E12`: an annotation that passes through a field that can change.
    ProtectedByPassesNonFinal,
    /// `E13`: an access under an object's lock through a base that can change.
    UnstableBase,
    /// `E14`: a cycle in the order of lock classes.
    LockOrderCycle,
    /// `E15`: more of something than the language allows.
    LimitExceeded,
    /// `E16`: a final reference without an `init`.
    FinalWithoutOpeningValue,
    /// `E17`: an index past the pool's length, or a second `init` of one field.
    InitOutOfRangeOrRepeated,
    /// `E18`: a misplaced or missing `return`.
    MisplacedReturn,
    /// `E19`: a lock where a value is expected.
    LockAsValue,
    /// `E20`: a helper that calls itself, directly or through other helpers.
    RecursiveHelper,
}

impl Code {
    /// The code as it is printed, `E01` to `E20`.
    pub fn name(self) -> &'static str
        ensures { result.now ≡ code_name self }
    {
        match self {
            Code::BadCharacter => "E01",
            Code::NumberTooLarge => "E02",
            Code::UnexpectedToken => "E03",
            Code::NestedTooDeep => "E04",
            Code::DeclaredTwice => "E05",
            Code::UnknownName => "E06",
            Code::WrongType => "E07",
            Code::WrongArgumentCount => "E08",
            Code::NotAssignable => "E09",
            Code::NeitherFinalNorProtected => "E10",
            Code::ProtectedByNoLock => "E11",
            Code::ProtectedByPassesNonFinal => "E12",
            Code::UnstableBase => "E13",
            Code::LockOrderCycle => "E14",
            Code::LimitExceeded => "E15",
            Code::FinalWithoutOpeningValue => "E16",
            Code::InitOutOfRangeOrRepeated => "E17",
            Code::MisplacedReturn => "E18",
            Code::LockAsValue => "E19",
            Code::RecursiveHelper => "E20",
        }
    }

    /// The number in the code's printed name, 1 to 20.
    pub fn number(self) -> u8
        ensures { result ≡ code_number self }
    {
        match self {
            Code::BadCharacter => 1,
            Code::NumberTooLarge => 2,
            Code::UnexpectedToken => 3,
            Code::NestedTooDeep => 4,
            Code::DeclaredTwice => 5,
            Code::UnknownName => 6,
            Code::WrongType => 7,
            Code::WrongArgumentCount => 8,
            Code::NotAssignable => 9,
            Code::NeitherFinalNorProtected => 10,
            Code::ProtectedByNoLock => 11,
            Code::ProtectedByPassesNonFinal => 12,
            Code::UnstableBase => 13,
            Code::LockOrderCycle => 14,
            Code::LimitExceeded => 15,
            Code::FinalWithoutOpeningValue => 16,
            Code::InitOutOfRangeOrRepeated => 17,
            Code::MisplacedReturn => 18,
            Code::LockAsValue => 19,
            Code::RecursiveHelper => 20,
        }
    }

    /// The message of the code.
    pub fn text(self) -> &'static str
        ensures { result.now ≡ code_text self }
    {
        match self {
            Code::BadCharacter => "bad character",
            Code::NumberTooLarge => "number too large",
            Code::UnexpectedToken => "unexpected token",
            Code::NestedTooDeep => "nested too deep",
            Code::DeclaredTwice => "declared twice",
            Code::UnknownName => "unknown name",
            Code::WrongType => "wrong type",
            Code::WrongArgumentCount => "wrong number of arguments",
            Code::NotAssignable => "not assignable",
            Code::NeitherFinalNorProtected => "neither final nor protected",
            Code::ProtectedByNoLock => "protected_by does not end at a lock",
            Code::ProtectedByPassesNonFinal => "protected_by passes a field that is not final",
            Code::UnstableBase => "unstable base",
            Code::LockOrderCycle => "lock order cycle",
            Code::LimitExceeded => "limit exceeded",
            Code::FinalWithoutOpeningValue => "final reference without opening value",
            Code::InitOutOfRangeOrRepeated => "init out of range or repeated",
            Code::MisplacedReturn => "misplaced or missing return",
            Code::LockAsValue => "lock used as a value",
            Code::RecursiveHelper => "recursive helper",
        }
    }
}

impl fmt::Display for Code {
    ghost use Rattle.std.specs.Prelude.{Some};
    ghost use Rattle.source.specs.Faults.{shown_code};

    ghost output = { λ code. Some (shown_code code) };

    fn fmt<W: fmt::Write>(&self, f: &mut fmt::Formatter<W>) -> fmt::Result {
        write!(f, "{} {}", self.name(), self.text())
    }
}

/// A fault: what is wrong, and where.
#[derive(Debug, Drop)]
pub struct Fault {
    /// What is wrong.
    pub code: Code,
    /// The byte of the text at which the fault is, from 0. The text's length means its end.
    pub start: usize,
    /// The lock classes of a cycle, as `A.l -> B.m -> A.l`; empty for every other code.
    pub detail: String,
}

impl Fault {
    /// A fault of this code at this byte, with an empty detail. It allocates nothing.
    pub fn at(alloc: Global, code: Code, start: usize) -> Fault
        ensures code { result.code ≡ code }
        ensures start { result.start ≡ start }
        ensures detail { string_bytes result.detail ≡ [] }
    {
        Fault {
            code,
            start,
            detail: String::new(alloc),
        }
    }
}

impl fmt::Display for Fault {
    ghost use Rattle.std.specs.Prelude.{Some};
    ghost use Rattle.source.specs.Faults.{shown_fault};

    ghost output = { λ fault. Some (shown_fault fault) };

    fn fmt<W: fmt::Write>(&self, f: &mut fmt::Formatter<W>) -> fmt::Result {
        write!(f, "{} at byte {}", self.code, self.start)
    }
}

/// The reason why a pass has no result.
#[derive(Debug, Drop, Error)]
pub enum Refusal {
    /// The text has this fault.
    #[error("{0}")]
    Fault(Fault),
    /// An allocation failed.
    #[error("no memory")]
    NoMemory,
}

impl From<AllocError> for Refusal {
    ghost from_gives = { λ _ e. e ≡ NoMemory };

    fn from(_e: AllocError) -> Refusal {
        Refusal::NoMemory
    }
}

impl<T: Drop> From<AllocFailed<T>> for Refusal {
    ghost from_gives = { λ _ e. e ≡ NoMemory };

    fn from(_e: AllocFailed<T>) -> Refusal {
        Refusal::NoMemory
    }
}
