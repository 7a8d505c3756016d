ghost use Rattle.std.specs.Prelude.{◌≤◌};

/// How the rows of a capture are read.
#[derive(Clone, Copy, Debug, PartialEq, Eq, Drop)]
pub struct Layout {
    pub clock: Clock,
    /// The column of the times, from 1; 0 where the rows are numbered from 0 on.
    pub time: u32,
    /// The column of the levels, from 1.
    pub level: u32,
    /// Whether the controller's own replies are left out.
    pub drops_replies: bool,
}

/// What a capture's times are.
#[derive(Clone, Copy, Debug, PartialEq, Eq, Drop)]
pub enum Clock {
    /// Seconds.
    Seconds,
    /// The numbers of samples.
    Samples(Rate),
}

/// Samples a second, at least one.
#[derive(Clone, Copy, Debug, PartialEq, Eq, Drop)]
pub struct Rate {
    pub hertz: u32,
    ghost some: { 1 ≤ hertz },
}
