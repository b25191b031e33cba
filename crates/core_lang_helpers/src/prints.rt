//! The most numbers that one run of a section prints, by its tree.

ghost use Rattle.std.specs.Prelude.{◌≡◌, min};
ghost use Rattle.core_lang_helpers.specs.Prints.{prints_in, prints_in_all, most_prints};

use core_lang::tree::{Action, Section, Stmt};
use source::limits::PRINT_LIMIT;

#[cycle(statement)]
fn of_statement(action: &Action) -> usize
    ensures { result ≡ min 256 (prints_in action.now) }
{
    match action {
        Action::Print(_) => 1,
        Action::Call { .. } => PRINT_LIMIT,
        Action::If { block, .. } => of_block(block),
        Action::IfElse {
            block,
            otherwise,
            ..
        } => (of_block(block) + of_block(otherwise)).min(PRINT_LIMIT),
        Action::While { body, .. } => {
            let once = of_block(body);
            if once == 0 { 0 } else { PRINT_LIMIT }
        }
        _ => 0,
    }
}

#[cycle(statement)]
fn of_block(statements: &[Stmt]) -> usize
    ensures { result ≡ min 256 (prints_in_all statements.now) }
{
    let mut prints = 0;
    for statement in statements {
        prints = (prints + of_statement(&statement.action)).min(PRINT_LIMIT);
    }
    prints
}

/// The most numbers that one run of `section` prints.
#[tactic(auto, unfolding(crate::specs::Prints::most_prints))]
pub fn of_section(section: &Section) -> usize
    ensures { result ≡ most_prints section.now }
{
    of_block(&section.body)
}
