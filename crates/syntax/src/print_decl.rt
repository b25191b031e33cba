//! Writes declarations.

ghost use Rattle.std.specs.Prelude.{map};
ghost use Rattle.syntax.specs.Working.Adding.{Adds};
ghost use Rattle.syntax.specs.Views.{protection_of, const_of, type_of, option_of, member_of, struct_of, variable_of, array_of, pool_of, init_of, param_of, class_name_of, section_of, decl_of};
ghost use Rattle.syntax.specs.Working.Printing.{many_text, after_comma, listed_text, optional_text, protection_text, value_text, result_text, member_text, struct_text, variable_text, array_text, pool_text, init_text, param_text, class_name_text, whole_text, section_text, decl_text, tree_text};

use crate::print::{push_const, push_fields, push_index, push_type};
use crate::print_stmt::push_stmts;
use crate::print_thread::push_thread;
use crate::printer::Printer;
use crate::tree::{
    Array, ClassName, Const, Decl, Init, Member, Param, Pool, Protection, Section, Struct,
    ValueType, Variable,
};

fn push_annotation(out: &mut Printer, protection: &Protection)
    ensures { Adds out.old out.new (protection_text (protection_of protection.now)) }
{
    out.push_named(" protected_by(", &protection.first);
    push_fields(out, &protection.rest);
    out.push_str(")");
}

fn push_protection(out: &mut Printer, protection: &Option<Protection>)
    ensures { Adds out.old out.new (optional_text protection_text (option_of protection_of protection.now)) }
{
    match protection {
        None => {}
        Some(protection) => push_annotation(out, protection),
    }
}

fn push_value(out: &mut Printer, value: &Option<Const>)
    ensures { Adds out.old out.new (optional_text value_text (option_of const_of value.now)) }
{
    match value {
        None => {}
        Some(value) => {
            out.push_str(" = ");
            push_const(out, value);
        }
    }
}

fn push_result(out: &mut Printer, value_type: &Option<ValueType>)
    ensures { Adds out.old out.new (optional_text result_text (option_of type_of value_type.now)) }
{
    match value_type {
        None => {}
        Some(value_type) => {
            out.push_str(": ");
            push_type(out, value_type);
        }
    }
}

/// Appends a member, on a line of its own.
fn push_member(out: &mut Printer, member: &Member)
    ensures { Adds out.old out.new (member_text (member_of member.now)) }
{
    match member {
        Member::Lock(name) => {
            out.push_named("\n    lock ", name);
            out.push_str(";");
        }
        Member::Final(reference) => {
            out.push_named("\n    final ref ", &reference.target);
            out.push_named(" ", &reference.name);
            out.push_str(";");
        }
        Member::Field(field) => {
            out.push_str("\n    ");
            push_type(out, &field.value_type);
            out.push_named(" ", &field.name);
            push_protection(out, &field.protection);
            out.push_str(";");
        }
    }
}

fn push_members(out: &mut Printer, members: &[Member])
    ensures { Adds out.old out.new (many_text member_text (map member_of members.now)) }
{
    'members: for member in members {
        push_member(out, member);
    }
}

fn push_struct(out: &mut Printer, declared: &Struct)
    ensures { Adds out.old out.new (struct_text (struct_of declared.now)) }
{
    out.push_named("struct ", &declared.name);
    out.push_str(" {");
    push_members(out, &declared.members);
    out.push_str("\n}\n");
}

fn push_variable(out: &mut Printer, variable: &Variable)
    ensures { Adds out.old out.new (variable_text (variable_of variable.now)) }
{
    out.push_str("global ");
    push_type(out, &variable.value_type);
    out.push_named(" ", &variable.name);
    push_protection(out, &variable.protection);
    push_value(out, &variable.value);
    out.push_str(";\n");
}

fn push_array(out: &mut Printer, array: &Array)
    ensures { Adds out.old out.new (array_text (array_of array.now)) }
{
    out.push_str("global ");
    push_type(out, &array.value_type);
    out.push_named(" ", &array.name);
    push_index(out, &array.length);
    push_protection(out, &array.protection);
    out.push_str(";\n");
}

fn push_pool(out: &mut Printer, pool: &Pool)
    ensures { Adds out.old out.new (pool_text (pool_of pool.now)) }
{
    out.push_named("pool ", &pool.target);
    out.push_named(" ", &pool.name);
    push_index(out, &pool.length);
    out.push_str(";\n");
}

fn push_init(out: &mut Printer, init: &Init)
    ensures { Adds out.old out.new (init_text (init_of init.now)) }
{
    out.push_named("init ", &init.pool);
    push_index(out, &init.index);
    out.push_named(".", &init.field);
    out.push_str(" = ");
    push_const(out, &init.value);
    out.push_str(";\n");
}

fn push_param(out: &mut Printer, param: &Param)
    ensures { Adds out.old out.new (param_text (param_of param.now)) }
{
    push_type(out, &param.value_type);
    out.push_named(" ", &param.name);
}

/// Appends parameters, with a comma before each.
fn push_more_params(out: &mut Printer, params: &[Param])
    ensures { Adds out.old out.new (many_text (after_comma param_text) (map param_of params.now)) }
{
    'params: for param in params {
        out.push_str(", ");
        push_param(out, param);
    }
}

/// Appends parameters, with commas between them.
fn push_params(out: &mut Printer, params: &[Param])
    ensures { Adds out.old out.new (listed_text param_text (map param_of params.now)) }
{
    match params {
        [] => {}
        [first, more @ ..] => {
            push_param(out, first);
            push_more_params(out, more);
        }
    }
}

fn push_class(out: &mut Printer, class: &ClassName)
    ensures { Adds out.old out.new (class_name_text (class_name_of class.now)) }
{
    out.push_name(&class.structure);
    out.push_named(".", &class.lock);
}

/// Appends lock classes, with a comma before each.
fn push_more_classes(out: &mut Printer, classes: &[ClassName])
    ensures { Adds out.old out.new (many_text (after_comma class_name_text) (map class_name_of classes.now)) }
{
    'classes: for class in classes {
        out.push_str(", ");
        push_class(out, class);
    }
}

/// Appends the lock classes that a section takes whole, if there are any.
fn push_listed(out: &mut Printer, classes: &[ClassName])
    ensures { Adds out.old out.new (whole_text (map class_name_of classes.now)) }
{
    match classes {
        [] => {}
        [first, more @ ..] => {
            out.push_str(" lock(");
            push_class(out, first);
            push_more_classes(out, more);
            out.push_str(")");
        }
    }
}

/// Appends a section or a helper, with this word before its name.
fn push_section(out: &mut Printer, word: &str, section: &Section)
    ensures { Adds out.old out.new (section_text word.now (section_of section.now)) }
{
    out.push_named(word, &section.name);
    out.push_str("(");
    push_params(out, &section.params);
    out.push_str(")");
    push_result(out, &section.result);
    push_listed(out, &section.listed);
    out.push_str(" {");
    push_stmts(out, &section.body.stmts, 1);
    out.push_str("\n}\n");
}

fn push_decl(out: &mut Printer, decl: &Decl)
    ensures { Adds out.old out.new (decl_text (decl_of decl.now)) }
{
    match decl {
        Decl::Lock(name) => {
            out.push_named("lock ", name);
            out.push_str(";\n");
        }
        Decl::Struct(declared) => push_struct(out, declared),
        Decl::Global(variable) => push_variable(out, variable),
        Decl::Array(array) => push_array(out, array),
        Decl::Pool(pool) => push_pool(out, pool),
        Decl::Init(init) => push_init(out, init),
        Decl::Atomic(section) => push_section(out, "atomic ", section),
        Decl::Helper(section) => push_section(out, "call ", section),
        Decl::Thread(thread) => push_thread(out, thread),
    }
}

/// Appends declarations, one after another.
pub fn push_decls(out: &mut Printer, decls: &[Decl])
    ensures { Adds out.old out.new (tree_text (map decl_of decls.now)) }
{
    'decls: for decl in decls {
        push_decl(out, decl);
    }
}
