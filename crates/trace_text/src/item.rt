use esc_base::{Event, Tick};

/// Why a trace isn't read. The numbers are those of this list.
#[derive(Clone, Copy, Debug, PartialEq, Eq, Drop)]
pub enum Refusal {
    /// A 41st byte comes without a line feed before it.
    TooLong = 1,
    /// The line doesn't begin with a time and a space.
    BadTime,
    /// The time is below that of the line before.
    TimeBack,
    /// The time is above 1073741824.
    TooLate,
    /// The kind isn't E, C, S, J or END.
    BadKind,
    /// The value is missing or isn't one of the kind's.
    BadValue,
    /// Something follows the value, or follows END.
    Trailing,
    /// A serial byte comes less than 20000 ticks after the one before.
    TooClose,
    /// The source ends inside a line, or before the END line.
    NoEnd,
    /// A byte follows the END line.
    AfterEnd,
    /// There is a line 16777217, or the beginning of one.
    TooMany,
}

/// What one call of the reader gives.
#[derive(Clone, Copy, Debug, PartialEq, Eq, Drop)]
pub enum Item {
    /// The event of the next line.
    Event(Event),
    /// The END line's tick; the source ends after that line.
    End(Tick),
    /// The source failed.
    Fault,
    /// What is wrong with the first faulty line.
    Refused(Refusal),
}

/// What is remembered of the lines so far.
#[derive(Clone, Copy, Debug, Drop)]
pub struct Place {
    /// How many lines were looked at.
    pub line: u64,
    /// The time of the line before, 0 before the first.
    pub time: Tick,
    /// The time of the serial byte before, if there was one.
    pub serial: Option<Tick>,
}
