//! The rule of a row's word.

ghost use Rattle.history.specs.Commits.{Commit};

use history::kept::EntryRef;
use logbook::{Gain, Plain, Play, Rule, Word};
use std::marker::{Model, PhantomData};

/// An entry as a row's tokens have it. No value of this type is ever made: tokens have no bytes.
pub struct Entered {
    marker: PhantomData<()>,
    ghost commit: { Commit },
}

impl Model for Entered {
    ghost use base.Fml.{ftrue};
    ghost use Rattle.history.specs.Commits.{Commit};

    ghost Value = { Commit };

    ghost view = { λ e. e.commit };

    ghost also_owns = { λ _. ftrue };
}

/// The word of a row.
pub type Count = Word<Entered, u64, Law>;

/// The word is the length of the row.
pub struct Law;

impl Rule<Entered, u64> for Law {
    ghost use Rattle.std.specs.Prelude.{[]};
    ghost use base.Fml.{ftrue};
    ghost use Rattle.workers.specs.Working.Rules.{IsKept};

    ghost holds = { λ cells log. IsKept cells log };

    ghost first = { [] };

    ghost hinted = { λ n log. Unit {0} };

    ghost shows = { λ log. [] };

    ghost keeps = { λ names log. ftrue };

    ghost moves = { λ ask before after answer. Unit {0} };
}

/// Threads exchange nothing.
pub struct Nothing;

impl Gain<Entered, u64> for Nothing {
    ghost use base.Fml.{ftrue};

    ghost after = { λ names about answer. ftrue };
}

/// A step that adds an entry.
pub struct Add;

impl Play<Entered, u64> for Add {
    ghost use Rattle.workers.specs.Working.Rules.{Adds};

    ghost then = { Adds };
}

/// A step that returns the number of entries, and adds none.
pub struct Look;

impl Play<Entered, u64> for Look {
    ghost use Rattle.workers.specs.Working.Rules.{Looks};

    ghost then = { Looks };
}

/// The step asks for nothing.
impl Plain<(), Entered, u64> for Look {
    ghost use Rattle.std.specs.Prelude.{None};
    ghost use Rattle.workers.specs.Working.Nothing.{no_entry};

    ghost ask = { λ nothing. no_entry };

    ghost state = { λ nothing. None };
}

/// The step adds the entry that is lent.
impl<'e> Plain<EntryRef<'e>, Entered, u64> for Add {
    ghost use Rattle.std.specs.Prelude.{None};

    ghost ask = { λ entry. entry };

    ghost state = { λ entry. None };
}
