//! Writes threads.

ghost use Rattle.std.specs.Prelude.{map};
ghost use Rattle.syntax.specs.Working.Adding.{Adds};
ghost use Rattle.syntax.specs.Views.{const_of, call_of, item_of, items_of, thread_of};
ghost use Rattle.syntax.specs.Working.Printing.{many_text, after_comma, listed_text, const_text, call_text, item_text, items_text, thread_text};

use crate::print::push_const;
use crate::print_stmt::{deeper, push_indent};
use crate::printer::Printer;
use crate::tree::{Call, Const, Item, Thread};

/// Appends constants, with a comma before each.
fn push_more_consts(out: &mut Printer, consts: &[Const])
    ensures { Adds out.old out.new (many_text (after_comma const_text) (map const_of consts.now)) }
{
    'consts: for value in consts {
        out.push_str(", ");
        push_const(out, value);
    }
}

/// Appends constants, with commas between them.
fn push_consts(out: &mut Printer, consts: &[Const])
    ensures { Adds out.old out.new (listed_text const_text (map const_of consts.now)) }
{
    match consts {
        [] => {}
        [first, more @ ..] => {
            push_const(out, first);
            push_more_consts(out, more);
        }
    }
}

fn push_call(out: &mut Printer, call: &Call)
    ensures { Adds out.old out.new (call_text (call_of call.now)) }
{
    out.push_name(&call.section);
    out.push_str("(");
    push_consts(out, &call.arguments);
    out.push_str(");");
}

/// Appends an item, whose lines are at this depth.
#[cycle(print_item)]
fn push_item(out: &mut Printer, item: &Item, depth: usize)
    ensures { Adds out.old out.new (item_text depth (item_of item.now)) }
{
    match item {
        Item::Call(call) => push_call(out, call),
        Item::Repeat(count, items) => {
            out.push_str("repeat ");
            out.push_number(count.value);
            out.push_str(" {");
            push_items(out, items, deeper(depth));
            out.push_str("\n");
            push_indent(out, depth);
            out.push_str("}");
        }
    }
}

/// Appends items, each on a line of its own.
#[cycle(print_item)]
fn push_items(out: &mut Printer, items: &[Item], depth: usize)
    ensures { Adds out.old out.new (items_text depth (items_of items.now)) }
{
    'items: for item in items {
        out.push_str("\n");
        push_indent(out, depth);
        push_item(out, item, depth);
    }
}

pub fn push_thread(out: &mut Printer, thread: &Thread)
    ensures { Adds out.old out.new (thread_text (thread_of thread.now)) }
{
    out.push_named("thread ", &thread.name);
    out.push_str(" {");
    push_items(out, &thread.items, 1);
    out.push_str("\n}\n");
}
