ghost use Rattle.std.specs.Prelude.{◌≤◌};
ghost use Rattle.trace_text.specs.Ahead.{place};
ghost use Rattle.am32wave.specs.Next.{lines_if_on};

use crate::next::{NextEvent, NextNote};
use crate::reader::Journal;
use trace_text::Lines;

/// A journal that is read one note ahead.
#[derive(Drop)]
pub struct NotesAhead {
    pub journal: Journal,
    pub next: NextNote,
}

/// A trace that is read one event ahead.
#[derive(Drop)]
pub struct EventsAhead {
    pub lines: Lines,
    pub next: NextEvent,
    ghost room: { lines_if_on next (place lines).line ≤ 16777216 },
}

/// A journal and its trace, read moment by moment in the order of their times.
#[derive(Drop)]
pub struct Merge {
    pub notes: NotesAhead,
    pub events: EventsAhead,
}
