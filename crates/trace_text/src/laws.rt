//! What follows from the lines of notes alone. The function does nothing: its contract is the law.
ghost use Rattle.trace_text.specs.Laws.{OneJournal};

/// Different journals have different texts: two lists of notes in range with the same text are the same
/// list.
pub fn one_journal()
    ensures { OneJournal }
{}
