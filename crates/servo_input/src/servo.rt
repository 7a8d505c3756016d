ghost use Rattle.std.specs.Prelude.{◌<◌};

/// Which inputs the settings allow.
#[derive(Clone, Copy, Debug, PartialEq, Eq, Drop)]
pub enum InputKind {
    /// DShot frames and servo pulses.
    Any,
    /// DShot frames alone.
    DShot,
    /// Servo pulses alone.
    Servo,
}

/// The range of servo pulses, in microseconds: the width of no throttle, and that of full throttle, which is longer.
#[derive(Clone, Copy, Drop)]
pub struct Servo {
    pub low_us: u16,
    pub high_us: u16,
    ghost in_order: { low_us < high_us },
}
