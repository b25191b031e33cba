//! Laws of histories: functions that do nothing, whose contracts are the laws.

ghost use Rattle.history.specs.Working.Laws.{WritesSpareOthers, Commuting, LegalIsSerial, CommittedOfOneMore, LegalOfOneMore, TrueOfOneMore, CommittedKeepsSize};

/// Further entries that don't write a cell leave its value unchanged.
pub fn commuting()
    ensures commits { Commuting }
    ensures writes { WritesSpareOthers }
{}

/// The calls of a legal list of true entries, run whole one after another, end and print as the entries say, and
/// leave the heap after them.
pub fn legal_is_serial()
    ensures { LegalIsSerial }
{}

/// Appending a true entry that read what the heap held keeps the list legal and its entries true. The heap is then the
/// one before with the entry's writes made.
pub fn one_entry_more()
    ensures heap { CommittedOfOneMore }
    ensures legal { LegalOfOneMore }
    ensures all_true { TrueOfOneMore }
    ensures size { CommittedKeepsSize }
{}
