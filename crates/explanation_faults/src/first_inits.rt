//! The first of the `init`s of one field.

ghost use Rattle.std.specs.Prelude.{◌≡◌, map};
ghost use Rattle.syntax.specs.Views.{decl_of, init_of};
ghost use Rattle.explanation_faults.specs.Inits.{IsFirstGiver, IsGivenFirst, same_target};
ghost use Rattle.explanation_faults.specs.Working.Values.{FoundInit};

use syntax::tree::{Decl, Init};

/// Whether both name the same field of the same member of the same pool.
fn is_same_target(a: &Init, b: &Init) -> bool
    ensures { result ≡ same_target (init_of a.now) (init_of b.now) }
{
    a.pool.text.as_str() == b.pool.text.as_str()
        && a.index.value == b.index.value
        && a.field.text.as_str() == b.field.text.as_str()
}

/// The first of `decls` that initializes the same field as `init`.
fn first_giver<'a>(decls: &'a [Decl], init: &Init) -> Option<&'a Init>
    ensures { FoundInit (IsFirstGiver (map decl_of decls.now) (init_of init.now)) result }
{
    for decl in decls {
        if let Decl::Init(other) = decl {
            if is_same_target(init, other) {
                return Some(other);
            }
        }
    }
    None
}

/// The first `init` that initializes the same field as a later one, which starts at byte `at`.
pub fn first_given<'a>(decls: &'a [Decl], at: usize) -> Option<&'a Init>
    ensures { FoundInit (IsGivenFirst (map decl_of decls.now) at) result }
{
    for (i, decl) in decls.iter().enumerate() {
        if let Decl::Init(init) = decl {
            if init.start.start as usize == at {
                if let Some(first) = first_giver(&decls[..i], init) {
                    return Some(first);
                }
            }
        }
    }
    None
}
