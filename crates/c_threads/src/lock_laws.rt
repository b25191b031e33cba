//! Laws of locks in C: functions that do nothing, and whose contracts are the laws.

ghost use Rattle.c_threads.specs.LockClaims.{AcquireTextsAreOfStatements, EndTextsAreOfStatements, AcquiresTakeWhatIsAsked};
ghost use Rattle.c_threads.specs.LockClaims.{CallsRise, ListedRootsStay, EndsGiveBackWhatIsHeld};
ghost use Rattle.c_threads.specs.Working.Noted.{NotesStay};

/// A law: the text of an acquire is that of its statements, one after another; and the releases at the end of a section
/// are the text of the unlock statements.
pub fn acquire_texts_are_of_statements()
    ensures acquires { AcquireTextsAreOfStatements }
    ensures ends { EndTextsAreOfStatements }
{}

/// A law about an acquire of a compiled program, where each noted lock is held and is the one that its path names now.
/// C defines the acquire. Its calls of AL_LOCK are for exactly the locks to ask for, in their order. Afterwards these
/// are noted too, each by a path that names it.
pub fn acquires_take_what_is_asked()
    ensures { AcquiresTakeWhatIsAsked }
{
    locks::laws::paths_have_classes();
    locks::laws::each_path_once();
}

/// A law: each lock that a section of a compiled program asks for before a point comes after all that it holds by then.
pub fn calls_rise()
    ensures { CallsRise }
{
    worlds::laws::sections_stay_in_order();
}

/// A law: if a path is listed before a point of a compiled program, control does not come from there to a point that
/// binds the path's root. Hence the path still names the lock that was noted for it.
pub fn listed_roots_stay()
    ensures { ListedRootsStay }
{
    locks::laws::paths_have_classes();
    locks::laws::each_path_once();
}

/// A law: the notes of an open section of a compiled program are of the locks that it holds and of those that it is
/// still to be granted, along its own steps: from its begin, where it has none, by each instruction, and by each lock
/// that it is granted. Before a point, C defines the acquire, which calls AL_LOCK with the locks that the section is to
/// be granted then; each of these comes after all that it holds by then.
pub fn notes_stay()
    ensures { NotesStay }
{
    flow::laws::points_are_counted();
    flow::laws::points_stay_typed();
    locks::laws::paths_name_the_locks();
    locks::laws::lets_keep_agreeing();
    locks::laws::names_stay();
    locks::laws::paths_have_classes();
    locks::laws::each_path_once();
    code::laws::written_values_stand();
    code::point_laws::points_go_on::<u8>();
    code::point_laws::points_have_places::<u8>();
    inserter::laws::placements_are_ordered();
    inserter::laws::asks_rise();
    worlds::laws::locks_are_asked_in_turn();
}

/// A law: the end of a section releases what is noted: each lock that is held, once, and nothing else.
pub fn ends_give_back_what_is_held()
    ensures { EndsGiveBackWhatIsHeld }
{}
