//! The names of a program and of a row.

use std::marker::Brand;

/// The names of a program and of the row for its calls, for contracts. The maker of a row chooses them; they do not
/// exist at run time.
pub trait Naming {
    ghost use Rattle.lowering.specs.Plans.{Plan};
    ghost use Rattle.logbook.specs.Pages.{Book};

    ghost plan: { Plan };

    ghost book: { Book };
}

impl Naming for Brand {
    ghost use Rattle.workers.specs.Working.Nothing.{no_plan, no_book};

    ghost plan = { no_plan };

    ghost book = { no_book };
}
