//! The room for an answer.

ghost use Rattle.std.specs.Prelude.{◌≡◌, ◌≤◌, ◌+◌, ◌++◌, [], length, IfOk, vec_len, vec_capacity};
ghost use Rattle.workers.specs.Working.Within.{IsNotedOf};

use crate::seat::Done;
use history::kept::EntryRef;
use source::memory::NoMemory;
use std::alloc::Global;
use std::marker::Model;

/// Room for an answer, made before a call begins, so that its answer is never refused. Its value is the number of
/// prints for which there is room.
#[derive(Drop)]
pub(crate) struct AnswerRoom {
    told: Vec<i64>,
}

impl Model for AnswerRoom {
    ghost use Rattle.std.specs.Prelude.{◌≡◌, [], ℕ, vec_len, vec_capacity};

    ghost Value = { ℕ };

    ghost view = { λ r. vec_capacity r.told };

    ghost invariant = { λ r. (r.told.items ≡ []) × (vec_len r.told ≡ 0) };
}

impl AnswerRoom {
    /// Room for a call that prints at most `prints` numbers.
    ///
    /// # Errors
    ///
    /// `NoMemory`: a growth was refused.
    pub fn new(alloc: Global, prints: usize) -> Result<AnswerRoom, NoMemory>
        ensures { IfOk result (λ room. prints ≤ room) }
    {
        let told = Vec::with_capacity(alloc, prints)?;
        Ok(AnswerRoom { told })
    }

    /// The answer of an entry, if there is room for its prints. Its position is set later.
    pub fn of(self, entry: &EntryRef<'_>) -> Done
        ensures { length entry.now.prints ≤ self → IsNotedOf entry.now result }
    {
        let AnswerRoom { mut told } = self;
        if entry.prints().len() <= told.capacity() {
            fill(&mut told, entry.prints());
        }
        Done {
            position: 0,
            outcome: entry.outcome(),
            prints: told,
        }
    }
}

// Fills an empty list, whose room suffices.
fn fill(into: &mut Vec<i64>, from: &[i64])
    requires { vec_len into.old + length from.now ≤ vec_capacity into.old }
    ensures { into.new.items ≡ into.old.items ++ from.now }
{
    match into.extend_from_slice(from) {
        Ok(()) => {}
        Err(_) => unreachable!(),
    }
}
