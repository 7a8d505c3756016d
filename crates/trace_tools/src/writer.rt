ghost use Rattle.std.specs.Prelude.{◌≤◌};

use trace_text::Place;

/// Why an event or an end isn't written.
#[derive(Clone, Copy, Debug, PartialEq, Eq, Drop)]
pub enum Unwritten {
    /// The sink failed.
    Sink,
    /// Its time is below that of the event before.
    TimeBack,
    /// Its time is above 1073741824 ticks.
    TooLate,
    /// A serial byte less than 20000 ticks after the one before.
    TooClose,
    /// A stall that isn't of 1 to 16777216 ticks.
    BadStall,
    /// The trace has as many events as one can have.
    TooMany,
}

/// Writes the lines of a trace. It knows the line before, and writes none that the reader would refuse there.
#[derive(Debug, Drop)]
pub struct Writer {
    pub place: Place,
    ghost few: { place.line ≤ 16777215 },
}
