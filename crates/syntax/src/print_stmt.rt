//! Writes statements.

ghost use Rattle.std.specs.Prelude.{◌≡◌, ◌++◌, codes, map};
ghost use Rattle.syntax.specs.Working.Adding.{Adds};
ghost use Rattle.syntax.specs.Views.{place_of, expr_of, local_of, owner_of, owned_local_of, helper_call_of, called_local_of, stmt_of, if_of, stmts_of, else_of};
ghost use Rattle.syntax.specs.Theory.Rows.{while_of};
ghost use Rattle.syntax.specs.Working.Printing.{many_text, after_comma, listed_text, place_text, expr_text, indent, deeper, local_text, owner_text, helper_call_text, called_text, stmt_text, stmts_text, braced, else_text};

use crate::print::{push_expr, push_place, push_type};
use crate::printer::Printer;
use crate::tree::{
    Block, CalledLocal, Expr, HelperCall, If, Local, OwnedLocal, OwnerClause, Place, Stmt, While,
};

pub fn push_indent(out: &mut Printer, depth: usize)
    ensures { Adds out.old out.new (indent depth) }
{
    if depth == 0 {
        return;
    }
    out.push_str("    ");
    push_indent(out, depth - 1);
}

pub fn deeper(depth: usize) -> usize
    ensures { result ≡ deeper depth }
{
    if depth < 64 { depth + 1 } else { depth }
}

/// Appends a local, after this word, up to the end of its value.
fn push_local(out: &mut Printer, word: &str, local: &Local)
    ensures { Adds out.old out.new (word.now ++ local_text (local_of local.now)) }
{
    out.push_str(word);
    out.push_name(&local.name);
    out.push_str(": ");
    push_type(out, &local.value_type);
    out.push_str(" = ");
    push_expr(out, &local.value);
}

/// Appends the statement of a local without an owner.
fn push_plain(out: &mut Printer, word: &str, local: &Local)
    ensures { Adds out.old out.new (word.now ++ local_text (local_of local.now) ++ codes ";") }
{
    push_local(out, word, local);
    out.push_str(";");
}

fn push_owner(out: &mut Printer, owner: &OwnerClause)
    ensures { Adds out.old out.new (owner_text (owner_of owner.now)) }
{
    out.push_named(" where ", &owner.field);
    out.push_named(" == ", &owner.local);
}

fn push_owned(out: &mut Printer, owned: &OwnedLocal, depth: usize)
    ensures { Adds out.old out.new (stmt_text depth (owned_local_of owned.now)) }
{
    push_local(out, "let ", &owned.local);
    push_owner(out, &owned.owner);
    out.push_str(";");
}

/// Appends expressions, with a comma before each.
fn push_more_arguments(out: &mut Printer, arguments: &[Expr])
    ensures { Adds out.old out.new (many_text (after_comma expr_text) (map expr_of arguments.now)) }
{
    'arguments: for argument in arguments {
        out.push_str(", ");
        push_expr(out, argument);
    }
}

/// Appends expressions, with commas between them.
fn push_arguments(out: &mut Printer, arguments: &[Expr])
    ensures { Adds out.old out.new (listed_text expr_text (map expr_of arguments.now)) }
{
    match arguments {
        [] => {}
        [first, more @ ..] => {
            push_expr(out, first);
            push_more_arguments(out, more);
        }
    }
}

fn push_helper_call(out: &mut Printer, call: &HelperCall)
    ensures { Adds out.old out.new (helper_call_text (helper_call_of call.now)) }
{
    out.push_name(&call.helper);
    out.push_str("(");
    push_arguments(out, &call.arguments);
    out.push_str(")");
}

/// Appends a local with the result of a helper, after the word `let`.
fn push_called_rest(out: &mut Printer, called: &CalledLocal)
    ensures { Adds out.old out.new (called_text (called_local_of called.now)) }
{
    out.push_name(&called.name);
    out.push_str(": ");
    push_type(out, &called.value_type);
    out.push_str(" = call ");
    push_helper_call(out, &called.call);
}

fn push_called(out: &mut Printer, called: &CalledLocal)
    ensures { Adds out.old out.new (codes "let " ++ called_text (called_local_of called.now) ++ codes ";") }
{
    out.push_str("let ");
    push_called_rest(out, called);
    out.push_str(";");
}

/// Appends the statement of a call whose result is dropped.
fn push_call(out: &mut Printer, call: &HelperCall)
    ensures { Adds out.old out.new (codes "call " ++ helper_call_text (helper_call_of call.now) ++ codes ";") }
{
    out.push_str("call ");
    push_helper_call(out, call);
    out.push_str(";");
}

fn push_assignment(out: &mut Printer, place: &Place, e: &Expr)
    ensures { Adds out.old out.new
        (place_text (place_of place.now) ++ codes " = " ++ expr_text (expr_of e.now) ++ codes ";") }
{
    push_place(out, place);
    out.push_str(" = ");
    push_expr(out, e);
    out.push_str(";");
}

/// Appends a statement of a word and an expression.
fn push_worded(out: &mut Printer, word: &str, e: &Expr)
    ensures { Adds out.old out.new (word.now ++ expr_text (expr_of e.now) ++ codes ";") }
{
    out.push_str(word);
    push_expr(out, e);
    out.push_str(";");
}

/// Appends a statement, whose lines are at this depth.
#[cycle(print_stmt)]
fn push_stmt(out: &mut Printer, s: &Stmt, depth: usize)
    ensures { Adds out.old out.new (stmt_text depth (stmt_of s.now)) }
{
    match s {
        Stmt::Let(local) => push_plain(out, "let ", local),
        Stmt::LetOwned(owned) => push_owned(out, owned, depth),
        Stmt::LetCall(called) => push_called(out, called),
        Stmt::Var(local) => push_plain(out, "var ", local),
        Stmt::Assign(place, e) => push_assignment(out, place, e),
        Stmt::If(choice) => push_if(out, choice, depth),
        Stmt::While(repetition) => push_while(out, repetition, depth),
        Stmt::Print(_, e) => push_worded(out, "print ", e),
        Stmt::Return(_, e) => push_worded(out, "return ", e),
        Stmt::Call(_, call) => push_call(out, call),
    }
}

#[cycle(print_stmt)]
fn push_if(out: &mut Printer, choice: &If, depth: usize)
    ensures { Adds out.old out.new (stmt_text depth (if_of choice.now)) }
{
    out.push_str("if (");
    push_expr(out, &choice.condition);
    out.push_str(")");
    push_braced(out, &choice.block, depth);
    push_else(out, &choice.otherwise, depth);
}

#[cycle(print_stmt)]
fn push_while(out: &mut Printer, repetition: &While, depth: usize)
    ensures { Adds out.old out.new (stmt_text depth (while_of repetition.now)) }
{
    out.push_str("while (");
    push_expr(out, &repetition.condition);
    out.push_str(")");
    push_braced(out, &repetition.block, depth);
}

/// Appends what follows `else`, with the word, or nothing.
#[cycle(print_stmt)]
fn push_else(out: &mut Printer, other: &Option<Block>, depth: usize)
    ensures { Adds out.old out.new (else_text depth (else_of other.now)) }
{
    match other {
        None => {}
        Some(body) => {
            out.push_str(" else");
            push_braced(out, body, depth);
        }
    }
}

/// Appends a block in braces after the begin of its line. Its own lines are one level deeper than that line.
#[cycle(print_stmt)]
fn push_braced(out: &mut Printer, body: &Block, depth: usize)
    ensures { Adds out.old out.new (braced depth (stmts_text (deeper depth) (stmts_of body.now.stmts.items))) }
{
    out.push_str(" {");
    push_stmts(out, &body.stmts, deeper(depth));
    out.push_str("\n");
    push_indent(out, depth);
    out.push_str("}");
}

/// Appends statements, each on a line of its own.
#[cycle(print_stmt)]
pub fn push_stmts(out: &mut Printer, stmts: &[Stmt], depth: usize)
    ensures { Adds out.old out.new (stmts_text depth (stmts_of stmts.now)) }
{
    'stmts: for s in stmts {
        out.push_str("\n");
        push_indent(out, depth);
        push_stmt(out, s, depth);
    }
}
