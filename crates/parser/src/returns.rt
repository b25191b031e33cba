//! Misplaced and missing returns.

ghost use Rattle.std.specs.Prelude.{◌≡◌, map};
ghost use Rattle.syntax.specs.Views.{stmt_of, stmts_of, else_of, section_of, decl_of};
ghost use Rattle.parser.specs.Working.Returning as returning;

use syntax::tree::{Block, Decl, Section, Stmt};

/// The lesser of two places, if there are any.
fn earlier(a: Option<usize>, b: Option<usize>) -> Option<usize>
    ensures { result ≡ returning.earlier a b }
{
    match (a, b) {
        (Some(first), Some(second)) => Some(first.min(second)),
        (Some(first), None) => Some(first),
        (None, other) => other,
    }
}

/// The first byte of the statement, if it is a `return`.
fn own_return(stmt: &Stmt) -> Option<usize>
    ensures { result ≡ returning.own_return (stmt_of stmt.now) }
{
    match stmt {
        Stmt::Return(at, _) => Some(at.start as usize),
        _ => None,
    }
}

/// The first byte of the first `return` among the statements and in their blocks.
#[cycle(returns)]
fn least_return(stmts: &[Stmt]) -> Option<usize>
    ensures { result ≡ returning.least_return (stmts_of stmts.now) }
{
    let mut least = None;
    for stmt in stmts {
        least = earlier(least, earlier(own_return(stmt), inner_return(stmt)));
    }
    least
}

/// The first byte of the first `return` in the statement's blocks.
#[cycle(returns)]
fn inner_return(stmt: &Stmt) -> Option<usize>
    ensures { result ≡ returning.inner_return (stmt_of stmt.now) }
{
    match stmt {
        Stmt::If(choice) => earlier(
            least_return(&choice.block.stmts),
            else_return(&choice.otherwise),
        ),
        Stmt::While(repetition) => least_return(&repetition.block.stmts),
        Stmt::Let(_)
        | Stmt::LetOwned(_)
        | Stmt::LetCall(_)
        | Stmt::Var(_)
        | Stmt::Assign(_, _)
        | Stmt::Print(_, _)
        | Stmt::Return(_, _)
        | Stmt::Call(_, _) => None,
    }
}

/// The first byte of the first `return` after `else`.
#[cycle(returns)]
fn else_return(other: &Option<Block>) -> Option<usize>
    ensures { result ≡ returning.other_return (else_of other.now) }
{
    match other {
        None => None,
        Some(block) => least_return(&block.stmts),
    }
}

/// The first byte of the first `return` that is not the last statement.
fn least_stray(stmts: &[Stmt]) -> Option<usize>
    ensures { result ≡ returning.least_stray (stmts_of stmts.now) }
{
    match stmts {
        [before @ .., last] => earlier(least_return(before), inner_return(last)),
        [] => None,
    }
}

fn is_return(stmt: &Stmt) -> bool
    ensures { result ≡ returning.is_return (stmt_of stmt.now) }
{
    matches!(stmt, Stmt::Return(..))
}

/// Whether the last statement is a `return`.
fn ends_in_return(stmts: &[Stmt]) -> bool
    ensures { result ≡ returning.does_end (stmts_of stmts.now) }
{
    match stmts {
        [.., last] => is_return(last),
        [] => false,
    }
}

/// The byte of the first fault of the returns of a section or a helper.
fn section_fault(section: &Section) -> Option<usize>
    ensures { result ≡ returning.section_fault (section_of section.now) }
{
    let stmts = section.body.stmts.as_slice();
    if section.result.is_none() {
        return least_return(stmts);
    }
    let missing = if ends_in_return(stmts) {
        None
    } else {
        Some(section.body.close.start as usize)
    };
    earlier(least_stray(stmts), missing)
}

/// The byte of the first fault of a declaration's returns.
fn decl_fault(decl: &Decl) -> Option<usize>
    ensures { result ≡ returning.decl_fault (decl_of decl.now) }
{
    match decl {
        Decl::Atomic(section) => section_fault(section),
        Decl::Helper(helper) => section_fault(helper),
        Decl::Lock(_)
        | Decl::Struct(_)
        | Decl::Global(_)
        | Decl::Array(_)
        | Decl::Pool(_)
        | Decl::Init(_)
        | Decl::Thread(_) => None,
    }
}

/// The byte of the first misplaced or missing `return`.
pub fn return_fault(decls: &[Decl]) -> Option<usize>
    ensures { result ≡ returning.least_fault (map decl_of decls.now) }
{
    let mut least = None;
    for decl in decls {
        least = earlier(least, decl_fault(decl));
    }
    least
}
