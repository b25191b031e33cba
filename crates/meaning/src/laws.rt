//! A law of every answer: a function that does nothing, and whose contract is the law.

ghost use Rattle.meaning.specs.Working.Laws.{AnswersStayTyped};

use core_lang::laws;

/// A law: a call of an accepted program on a heap of the program leaves a heap of the program, and it has no answer
/// only if its turns were too few.
pub fn answers_stay_typed()
    ensures { AnswersStayTyped }
{
    laws::never_astray();
}
