use crate::Tick;

/// What the outside does to the controller at a tick.
#[derive(Clone, Copy, Debug, PartialEq, Eq, Drop)]
pub enum Event {
    /// The signal line has this level.
    Edge { t: Tick, level: bool },
    /// The comparator has this level.
    Comp { t: Tick, level: bool },
    /// A serial byte arrives.
    Serial { t: Tick, byte: u8 },
    /// The core makes no step for `n` ticks, 1 to 16777216.
    Stall { t: Tick, n: u32 },
}

/// A serial byte, and when it arrived.
#[derive(Clone, Copy, Debug, PartialEq, Eq, Drop)]
pub struct Received {
    pub t: Tick,
    pub byte: u8,
}

/// Whether a serial byte was kept.
#[derive(Clone, Copy, Debug, PartialEq, Eq, Drop)]
pub enum Arrived {
    Kept,
    Lost,
}
