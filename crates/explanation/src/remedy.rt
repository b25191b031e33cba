//! The remedy of each code.

ghost use Rattle.std.specs.Prelude.{◌≡◌, OnOk};
ghost use Rattle.locks.specs.Texts.{AddsText};
ghost use Rattle.explanation.specs.Remedies.{remedy, remedy_text};

use source::fault::Code;
use std::alloc::AllocError;

/// What can be done about a fault of this code, in fixed words.
pub fn remedy_of(code: Code) -> &'static str
    ensures { result.now ≡ remedy code }
{
    match code {
        Code::BadCharacter => {
            "write && for &, || for |, // for #; names have ASCII letters only, and there are no strings"
        }
        Code::NumberTooLarge => {
            "9223372036854775807 is the greatest number; in a section -9223372036854775807 - 1 is the least"
        }
        Code::UnexpectedToken => {
            "write something else here; or the token before it lacks something: a ;, a type, a parenthesis"
        }
        Code::NestedTooDeep => {
            "bind a part of the expression by a let, or leave out parentheses that change nothing"
        }
        Code::DeclaredTwice => {
            "take another name: those of a section differ from each other and from those of the top level"
        }
        Code::UnknownName => {
            "declare it or fix the spelling; a let or var is in scope until the end of its block"
        }
        Code::WrongType => {
            "use an expression of the expected type or kind; a comparison is a condition, not a value"
        }
        Code::WrongArgumentCount => "give one argument for each parameter",
        Code::NotAssignable => {
            "copy it into a var, and assign to that; of an array assign the elements"
        }
        Code::NeitherFinalNorProtected => "say which lock protects it: protected_by(LOCK)",
        Code::ProtectedByNoLock => {
            "end the annotation at a lock; of a global or an array it is a global lock alone"
        }
        Code::ProtectedByPassesNonFinal => {
            "make the reference final, or take a lock of the own struct or a global lock"
        }
        Code::UnstableBase => {
            "bind the object by a let first: let n: ref S = a.next; in a walk list its class in the head: lock(S.l)"
        }
        Code::LockOrderCycle => {
            "put the lets before all uses; or take a parameter, or list the class in the section's head: lock(S.l)"
        }
        Code::LimitExceeded => "split what is too large; the limits are fixed",
        Code::FinalWithoutOpeningValue => {
            "give an init with an object for each member of each pool of the struct"
        }
        Code::InitOutOfRangeOrRepeated => {
            "count members from 0, and give each field of a member one init"
        }
        Code::MisplacedReturn => {
            "keep the result in a var, and return that in the last statement of the body"
        }
        Code::LockAsValue => "leave it out: locks are taken and given back by the compiler",
        Code::RecursiveHelper => {
            "write a loop; where each turn comes back to what it left, keep a stack in an array"
        }
    }
}

/// Appends the line of the remedy.
pub fn push_remedy(out: &mut String, code: Code) -> Result<(), AllocError>
    ensures { OnOk result (AddsText (remedy_text code) out.old out.new) }
{
    out.push_str("help: ")?;
    out.push_str(remedy_of(code))?;
    out.push_str("\n")
}
