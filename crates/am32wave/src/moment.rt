//! A journal and its trace in one order.
ghost use Rattle.std.specs.Prelude.{◌≡◌};
ghost use Rattle.esc_base.specs.Trace.{tick_of};
ghost use Rattle.am32wave.specs.Moments.{time};

use crate::journal::time_of;
use esc_base::{Event, Note, Tick};

/// What stands at a tick: a note of the journal, or an event of its trace.
#[derive(Clone, Copy, Drop)]
pub enum Moment {
    Note(Note),
    Event(Event),
}

impl Moment {
    pub fn time(&self) -> Tick
        ensures { result.0 ≡ time self.now }
    {
        match self {
            Moment::Note(note) => time_of(note),
            Moment::Event(event) => tick_of(event),
        }
    }
}

/// When an event comes.
pub fn tick_of(event: &Event) -> Tick
    ensures { result.0 ≡ tick_of event.now }
{
    match *event {
        Event::Edge { t, .. }
        | Event::Comp { t, .. }
        | Event::Serial { t, .. }
        | Event::Stall { t, .. } => t,
    }
}
