//! The levels outside the controller.
ghost use Rattle.std.specs.Prelude.{◌≡◌, []};
ghost use Rattle.am32wave.specs.Levels.{with_event, levels};

use esc_base::Event;

/// The levels that the trace gives.
#[derive(Clone, Copy, Drop)]
pub struct Levels {
    /// The signal line's.
    pub line: bool,
    /// The comparator's.
    pub comparator: bool,
}

impl Levels {
    /// Before the first event.
    pub fn new() -> Levels
        ensures { result ≡ levels [] }
    {
        Levels {
            line: false,
            comparator: false,
        }
    }

    /// With an event more.
    pub fn after(self, event: &Event) -> Levels
        ensures { result ≡ with_event self event.now }
    {
        match *event {
            Event::Edge { level, .. } => Levels {
                line: level,
                ..self
            },
            Event::Comp { level, .. } => Levels {
                comparator: level,
                ..self
            },
            Event::Serial { .. } | Event::Stall { .. } => self,
        }
    }
}
