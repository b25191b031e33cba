//! Writes expressions and places.

ghost use Rattle.std.specs.Prelude.{◌≡◌, ◌++◌, map};
ghost use Rattle.syntax.specs.Working.Adding.{Adds};
ghost use Rattle.syntax.specs.Views.{ident, type_of, const_of, element_of, path_of, place_of, expr_of, joined_of, links_of};
ghost use Rattle.syntax.specs.Working.Printing.{many_text, index_text, type_text, const_text, field_text, op_text, comparison_text, prefix_text, place_text, expr_text, links_text};

use crate::printer::Printer;
use crate::tree::{
    Comparison, Const, Element, Expr, Joined, Link, Name, Operator, Path, Place, Prefix, ValueType,
};
use source::token::Number;

/// Appends a number in brackets.
pub fn push_index(out: &mut Printer, index: &Number)
    ensures { Adds out.old out.new (index_text index.now) }
{
    out.push_str("[");
    out.push_number(index.value);
    out.push_str("]");
}

pub fn push_type(out: &mut Printer, value_type: &ValueType)
    ensures { Adds out.old out.new (type_text (type_of value_type.now)) }
{
    match value_type {
        ValueType::Int => out.push_str("int"),
        ValueType::Ref(target) => out.push_named("ref ", target),
    }
}

pub fn push_const(out: &mut Printer, value: &Const)
    ensures { Adds out.old out.new (const_text (const_of value.now)) }
{
    match value {
        Const::Int(n) => out.push_number(n.value),
        Const::Negative(_, n) => {
            out.push_str("-");
            out.push_number(n.value);
        }
        Const::Null(_) => out.push_str("null"),
        Const::Member(pool, index) => {
            out.push_name(pool);
            push_index(out, index);
        }
    }
}

/// Appends names, each after a dot.
pub fn push_fields(out: &mut Printer, fields: &[Name])
    ensures { Adds out.old out.new (many_text field_text (map ident fields.now)) }
{
    for field in fields {
        out.push_named(".", field);
    }
}

fn push_path(out: &mut Printer, path: &Path)
    ensures { Adds out.old out.new (place_text (path_of path.now)) }
{
    out.push_name(&path.first);
    push_fields(out, &path.fields);
}

fn op_words(op: Operator) -> &'static str
    ensures { result.now ≡ op_text op }
{
    match op {
        Operator::Add => " + ",
        Operator::Sub => " - ",
        Operator::Mul => " * ",
        Operator::Div => " / ",
        Operator::Rem => " % ",
        Operator::And => " && ",
        Operator::Or => " || ",
    }
}

fn comparison_words(comparison: Comparison) -> &'static str
    ensures { result.now ≡ comparison_text comparison }
{
    match comparison {
        Comparison::Equal => " == ",
        Comparison::NotEqual => " != ",
        Comparison::Less => " < ",
        Comparison::LessOrEqual => " <= ",
        Comparison::Greater => " > ",
        Comparison::GreaterOrEqual => " >= ",
    }
}

fn prefix_words(op: Prefix) -> &'static str
    ensures { result.now ≡ prefix_text op }
{
    match op {
        Prefix::Negate => "-",
        Prefix::Not => "!",
    }
}

#[cycle(print_expr)]
pub fn push_expr(out: &mut Printer, e: &Expr)
    ensures { Adds out.old out.new (expr_text (expr_of e.now)) }
{
    match e {
        Expr::Int(n) => out.push_number(n.value),
        Expr::Null(_) => out.push_str("null"),
        Expr::Name(name) => out.push_name(name),
        Expr::Element(element) => push_element(out, element),
        Expr::Path(path) => push_path(out, path),
        Expr::Paren(_, inner) => {
            out.push_str("(");
            push_expr(out, inner);
            out.push_str(")");
        }
        Expr::Prefix(op, _, inner) => {
            out.push_str(prefix_words(*op));
            push_expr(out, inner);
        }
        Expr::Joined(joined) => push_joined(out, joined),
    }
}

#[cycle(print_expr)]
fn push_joined(out: &mut Printer, joined: &Joined)
    ensures { Adds out.old out.new (expr_text (joined_of joined.now)) }
{
    match joined {
        Joined::Pair(op, left, right) => {
            push_expr(out, left);
            push_link(out, *op, right);
        }
        Joined::Chain(_, first, links) => {
            push_expr(out, first);
            push_links(out, links);
        }
        Joined::Compare(comparison, left, right) => {
            push_expr(out, left);
            out.push_str(comparison_words(*comparison));
            push_expr(out, right);
        }
    }
}

#[cycle(print_expr)]
fn push_element(out: &mut Printer, element: &Element)
    ensures { Adds out.old out.new (place_text (element_of element.now)) }
{
    out.push_name(&element.name);
    out.push_str("[");
    push_expr(out, &element.index);
    out.push_str("]");
}

#[cycle(print_expr)]
fn push_links(out: &mut Printer, links: &[Link])
    ensures { Adds out.old out.new (links_text (links_of links.now)) }
{
    'links: for link in links {
        push_link(out, link.op, &link.operand);
    }
}

/// Appends an operator of a chain and the operand after it.
#[cycle(print_expr)]
fn push_link(out: &mut Printer, op: Operator, operand: &Expr)
    ensures { Adds out.old out.new (op_text op ++ expr_text (expr_of operand.now)) }
{
    out.push_str(op_words(op));
    push_expr(out, operand);
}

/// Appends what precedes `=` in an assignment.
pub fn push_place(out: &mut Printer, place: &Place)
    ensures { Adds out.old out.new (place_text (place_of place.now)) }
{
    match place {
        Place::Name(name) => out.push_name(name),
        Place::Element(element) => push_element(out, element),
        Place::Path(path) => push_path(out, path),
    }
}
