//! Words that are codes of faults.

ghost use Rattle.std.specs.Prelude.{◌≡◌, find};
ghost use Rattle.driver_words.specs.Codes.{all_codes, code_named, is_code_word, is_named, rest};

use source::fault::Code;

/// All codes, in order.
const ALL: [Code; 20] = [
    Code::BadCharacter,
    Code::NumberTooLarge,
    Code::UnexpectedToken,
    Code::NestedTooDeep,
    Code::DeclaredTwice,
    Code::UnknownName,
    Code::WrongType,
    Code::WrongArgumentCount,
    Code::NotAssignable,
    Code::NeitherFinalNorProtected,
    Code::ProtectedByNoLock,
    Code::ProtectedByPassesNonFinal,
    Code::UnstableBase,
    Code::LockOrderCycle,
    Code::LimitExceeded,
    Code::FinalWithoutOpeningValue,
    Code::InitOutOfRangeOrRepeated,
    Code::MisplacedReturn,
    Code::LockAsValue,
    Code::RecursiveHelper,
];

/// Whether a word is written like a code: `E` or `e`, and two digits.
pub fn is_code_word(word: &str) -> bool
    ensures { result ≡ is_code_word word.now }
{
    match word.as_bytes() {
        [e, tens, ones] => {
            (*e == b'E' || *e == b'e') && tens.is_ascii_digit() && ones.is_ascii_digit()
        }
        _ => false,
    }
}

/// All but the first byte.
fn rest(bytes: &[u8]) -> &[u8]
    ensures { result.now ≡ rest bytes.entry.now }
{
    match bytes {
        [_, rest @ ..] => rest,
        [] => bytes,
    }
}

/// Whether the word is the code's printed name, except for the first byte.
fn is_named(word: &str, code: Code) -> bool
    ensures { result ≡ is_named word.now code }
{
    rest(code.name().as_bytes()) == rest(word.as_bytes())
}

/// The first of these codes that the word names.
fn first_named(word: &str, codes: &[Code]) -> Option<Code>
    ensures { result ≡ find (is_named word.now) codes.now }
{
    for code in codes {
        if is_named(word, *code) {
            return Some(*code);
        }
    }
    None
}

/// The code that the word names, if there is one.
pub fn code_named(word: &str) -> Option<Code>
    ensures { result ≡ code_named word.now }
{
    first_named(word, &ALL)
}
