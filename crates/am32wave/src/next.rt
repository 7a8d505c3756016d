use esc_base::{Event, Note};

/// What comes next in a journal.
#[derive(Clone, Copy, Drop)]
pub enum NextNote {
    /// It wasn't read yet.
    Unread,
    Is(Note),
    /// The journal has no note more.
    End,
}

/// What comes next in a trace.
#[derive(Clone, Copy, Drop)]
pub enum NextEvent {
    /// It wasn't read yet.
    Unread,
    Is(Event),
    /// The trace has no event more.
    End,
}
