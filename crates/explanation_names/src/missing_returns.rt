//! Which section or helper lacks its `return`.

ghost use Rattle.std.specs.Prelude.{map};
ghost use Rattle.std.specs.Bool.{Decides};
ghost use Rattle.syntax.specs.Returns.{EndsInReturn};
ghost use Rattle.syntax.specs.Views.{decl_of, section_of, stmts_of};
ghost use Rattle.explanation_names.specs.MissingReturns.{IsLacking, LacksReturn};
ghost use Rattle.explanation_names.specs.Working.Viewed.{FoundName, IsBodyOf};

use syntax::tree::{Decl, Name, Section, Stmt};

fn ends_in_return(stmts: &[Stmt]) -> bool
    ensures { Decides result (EndsInReturn (stmts_of stmts.now)) }
{
    match stmts {
        [.., last] => matches!(last, Stmt::Return(..)),
        [] => false,
    }
}

/// Whether the section has a result, its body does not end in a `return`, and its closing brace is at this byte.
fn lacks_return(section: &Section, at: usize) -> bool
    ensures { Decides result (LacksReturn (section_of section.now) at) }
{
    if section.result.is_none() || section.body.close.start as usize != at {
        return false;
    }
    !ends_in_return(&section.body.stmts)
}

/// The section or helper that a declaration is.
pub fn body_of(decl: &Decl) -> Option<&Section>
    ensures { IsBodyOf decl.now result }
{
    match decl {
        Decl::Atomic(section) => Some(section),
        Decl::Helper(section) => Some(section),
        Decl::Lock(_)
        | Decl::Struct(_)
        | Decl::Global(_)
        | Decl::Array(_)
        | Decl::Pool(_)
        | Decl::Init(_)
        | Decl::Thread(_) => None,
    }
}

/// The name of the section or helper whose `return` is missing at this byte.
pub fn lacking<'a>(decls: &'a [Decl], at: usize) -> Option<&'a Name>
    ensures { FoundName (IsLacking (map decl_of decls.now) at) result }
{
    for decl in decls {
        if let Some(section) = body_of(decl) {
            if lacks_return(section, at) {
                return Some(&section.name);
            }
        }
    }
    None
}
