ghost use Rattle.std.specs.Prelude.{◌≡◌};
ghost use Rattle.esc_base.specs.Numbers.{mode_number, why_number};

use crate::Tick;

/// A change of the signal line: from `t` on it has this level.
#[derive(Clone, Copy, Debug, PartialEq, Eq, Drop)]
pub struct Edge {
    pub t: Tick,
    pub level: bool,
}

impl Default for Edge {
    fn default() -> Self {
        Edge {
            t: Tick(0),
            level: false,
        }
    }
}

/// What the signal line carries.
#[derive(Clone, Copy, Debug, PartialEq, Eq, Drop)]
pub enum Mode {
    /// Not detected yet.
    Unknown,
    /// DShot at 300,000 bits a second, active high.
    D300,
    /// DShot at 600,000 bits a second, active high.
    D600,
    /// DShot300 active low, whose frames ask for a reply on the same line.
    D300Inv,
    /// DShot600 active low, whose frames ask for a reply on the same line.
    D600Inv,
    /// Servo pulses, high for 800 to 2200 microseconds.
    Servo,
}

impl Mode {
    /// The number that a journal's line shows, 0 to 5.
    pub fn number(self) -> u8
        ensures { result ≡ mode_number self }
    {
        match self {
            Mode::Unknown => 0,
            Mode::D300 => 1,
            Mode::D600 => 2,
            Mode::D300Inv => 3,
            Mode::D600Inv => 4,
            Mode::Servo => 5,
        }
    }
}

/// A DShot frame without its checksum.
#[derive(Clone, Copy, Debug, PartialEq, Eq, Drop)]
pub struct Frame {
    /// 0 stops, 1 to 47 are commands, 48 to 2047 are throttle.
    pub value: u16,
    /// Whether the sender asks for a telemetry frame.
    pub telemetry: bool,
}

/// The first thing that is wrong with the edges of a window.
#[derive(Clone, Copy, Debug, PartialEq, Eq, Drop)]
pub enum Why {
    /// The number of edges.
    Count,
    /// The first edge goes the wrong way.
    Polarity,
    /// The frame is too short or too long.
    Span,
    /// An active part or the distance of two bit starts is out of tolerance.
    Width,
    /// The checksum.
    Check,
}

impl Why {
    /// The number that a journal's line shows, 1 to 5.
    pub fn number(self) -> u8
        ensures { result ≡ why_number self }
    {
        match self {
            Why::Count => 1,
            Why::Polarity => 2,
            Why::Span => 3,
            Why::Width => 4,
            Why::Check => 5,
        }
    }
}

/// What the edges of a window are.
#[derive(Clone, Copy, Debug, PartialEq, Eq, Drop)]
pub enum Verdict {
    Good(Frame),
    Bad(Why),
}
