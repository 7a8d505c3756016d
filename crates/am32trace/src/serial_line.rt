//! The serial bytes that a configurator sends.

use arrayvec::ArrayVec;
use esc_base::Tick;

/// From one byte to the next: ten bits at 19200 a second, in ticks.
const BYTE_TICKS: u64 = 25000;

/// The most bytes of one line of a script: those of the longest packet.
pub const MOST_BYTES: usize = 263;

/// Some bytes, and how far they were sent.
#[derive(Debug, Drop)]
pub struct SerialLine {
    bytes: ArrayVec<u8, 263>,
    sent: usize,
    next: Tick,
}

impl SerialLine {
    /// No bytes.
    pub fn new() -> SerialLine {
        SerialLine {
            bytes: ArrayVec::new(),
            sent: 0,
            next: Tick(0),
        }
    }

    /// Sends these bytes, the first one at `t`.
    pub fn send(&mut self, t: Tick, bytes: ArrayVec<u8, 263>) {
        self.bytes = bytes;
        self.sent = 0;
        self.next = t;
    }

    /// The tick and the value of the next byte, if there is one.
    pub fn next(&self) -> Option<(Tick, u8)> {
        match self.bytes.as_slice().get(self.sent) {
            Some(byte) => Some((self.next, *byte)),
            None => None,
        }
    }

    /// Goes on once the next byte was sent.
    pub fn advance(&mut self) {
        self.sent = self.sent.saturating_add(1);
        self.next = Tick(self.next.0.saturating_add(BYTE_TICKS));
    }
}
