/// What a script's line should have had.
#[derive(Clone, Copy, Debug, PartialEq, Eq, Drop)]
pub enum Expected {
    Directive,
    Action,
    SignalKind,
    Every,
    Duration,
    Rate,
    SignalAbove,
    Throttle,
    Command,
    Frames,
    Pulses,
    Width,
    Value,
    FrameWord,
    Bit,
    Edges,
    Sender,
    FreeLine,
    QuietLine,
    Level,
    Motion,
    Bounces,
    Bytes,
    QuietSerial,
    Packet,
    Stall,
    LineEnd,
    LaterTime,
    EarlierTime,
    FewerEvents,
    ShorterLine,
    NoLine,
    End,
}

impl Expected {
    /// The words behind `expected`.
    pub fn text(self) -> &'static str {
        match self {
            Expected::Directive => "`signal`, or a time, as 250us, 1.5ms, 2s or 96t (ticks)",
            Expected::Action => {
                "throttle, command, pulse, off, frame, flip, wide, cut, noise, line, comparator, serial, packet, stall or end"
            }
            Expected::SignalKind => "dshot300, dshot600 or servo",
            Expected::Every => "`every` and a time, behind `inverted` where frames are inverted",
            Expected::Duration => "a time, as 250us, 1.5ms, 2s or 96t (ticks)",
            Expected::Rate => {
                "a time of at least 31.25us for dshot600, 62.5us for dshot300 and 2.5ms for servo pulses"
            }
            Expected::SignalAbove => "`signal` once, above all lines with a time",
            Expected::Throttle => "0, or 48 to 2047",
            Expected::Command => "1 to 47",
            Expected::Frames => "`signal dshot300 ..` or `signal dshot600 ..` above",
            Expected::Pulses => "`signal servo ..` above",
            Expected::Width => "a width of 1us to 2.4ms",
            Expected::Value => "0 to 2047",
            Expected::FrameWord => "telemetry, flip, wide, cut or the end of the line",
            Expected::Bit => "a bit, 0 to 15, where 0 is sent first",
            Expected::Edges => "1 to 31 edges",
            Expected::Sender => "frames that are sent: `throttle` or `command` above",
            Expected::FreeLine => "a free line: `off` above, and the frame before over",
            Expected::QuietLine => "a time at which nothing is on the line",
            Expected::Level => "high or low",
            Expected::Motion => "high, low, or `every` and a time",
            Expected::Bounces => {
                "`bounce`, how often, and how far apart; all bounces within one change's time"
            }
            Expected::Bytes => "1 to 263 bytes of two hexadecimal digits",
            Expected::QuietSerial => "a time behind the bytes above, which come every 520.8us",
            Expected::Packet => {
                "a command of two and an address of four hexadecimal digits, and 1 to 256 parameters of two"
            }
            Expected::Stall => "1t to 16777216t, about 349.5ms",
            Expected::LineEnd => "the end of the line",
            Expected::LaterTime => "a time not below that of the line above",
            Expected::EarlierTime => "a time of at most 22.369s",
            Expected::FewerEvents => "at most 16777215 events",
            Expected::ShorterLine => "at most 1200 bytes",
            Expected::NoLine => "nothing behind `end`",
            Expected::End => "a time and `end`",
        }
    }
}
