//! What the lines of a script ask for.

use crate::comparator::Beat;
use crate::frame_out::{Payload, Spoil};
use arrayvec::ArrayVec;
use esc_base::{Mode, Tick};

/// A line of a script.
#[derive(Debug, Drop)]
pub enum Directive {
    /// The kind of the signal, and the ticks from one message to the next.
    Signal { mode: Mode, period: u64 },
    /// What happens at a time.
    At { t: Tick, action: Action },
    /// The trace ends at a time.
    End { t: Tick },
}

/// What happens at a time.
#[derive(Debug, Drop)]
pub enum Action {
    /// From here on frames are sent.
    Send(Payload),
    /// From here on pulses of so many ticks are sent.
    Pulse(u64),
    /// No message begins any more.
    Off,
    /// One frame is sent, as it should be or not.
    Frame {
        payload: Payload,
        spoil: Option<Spoil>,
    },
    /// Something is wrong with the next frame.
    Spoil(Spoil),
    /// Noise for so many ticks.
    Noise(u64),
    /// The line has this level.
    Line(bool),
    /// The comparator has this level from here on.
    Hold(bool),
    /// The comparator changes from here on.
    Change(Beat),
    /// These bytes are sent.
    Serial(ArrayVec<u8, 263>),
    /// The core makes no step for so many ticks.
    Stall(u32),
}
