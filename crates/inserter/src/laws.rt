//! Laws of the locks of every run: functions that do nothing, and whose contracts are the laws.

ghost use Rattle.inserter.specs.Working.Laws.{PlacementsAreOrdered, InRuns, AsksRise, AsksForSome, UsedAreHeld, HeldAreNamed, FewAreHeld, WholeClassesAreHeld};

/// A law: the lists of a placement satisfy what the law of runs requires.
pub fn placements_are_ordered()
    ensures { PlacementsAreOrdered }
{}

/// A law about a section whose lists have all that is due before each point, and nothing that is not wanted there. It
/// holds along every walk and for all objects that the roots refer to. If a listed lock is not held, a run asks for
/// one. Each lock that it asks for comes after all that it holds. Each access finds the locks of its path held, and each
/// held lock is named by a lock path. A run holds at most as many locks as the lock paths of the section can name. From
/// the first point that wants a class which the section takes whole to its end, it holds every lock of the class.
pub fn asks_rise()
    ensures rise { InRuns AsksRise }
    ensures some { InRuns AsksForSome }
    ensures held { InRuns UsedAreHeld }
    ensures named { InRuns HeldAreNamed }
    ensures few { InRuns FewAreHeld }
    ensures whole { WholeClassesAreHeld }
{
    locks::laws::used_are_in_scope();
    locks::laws::paths_have_classes();
    locks::laws::each_path_once();
    locks::laws::precedes_is_strict();
}
