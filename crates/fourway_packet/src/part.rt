//! The bytes of a packet that isn't complete yet.
ghost use Rattle.std.specs.Prelude.{◌≡◌, ◌<◌, if◌then◌else◌, [], ◌∷◌, ◌++◌, length};
ghost use Rattle.fourway_packet.specs.Cut.{is_complete};
ghost use Rattle.fourway_packet.specs.Part.{kept_of, grown_of, packet_or_none};

use crate::packet::packet_in;
use crate::{Packet, Received};
use arrayvec::ArrayVec;
use esc_base::Tick;

/// The longest pause within a packet, in ticks of 48 MHz: 50 milliseconds.
const PAUSE: u64 = 2_400_000;

/// The byte that a packet begins with.
const REQUEST: u8 = 0x2F;

/// The bytes from a 0x2F on, fewer than their packet has, and when the newest serial byte arrived.
#[derive(Drop)]
pub struct Part {
    bytes: ArrayVec<u8, 263>,
    newest: Tick,
    ghost short: { length bytes.items < 263 },
}

impl Part {
    /// No bytes.
    pub(crate) fn new() -> Part
        ensures none { result.bytes.items ≡ [] }
        ensures newest { result.newest ≡ record { 0 = 0 } }
    {
        Part {
            bytes: ArrayVec::new(),
            newest: Tick(0),
        }
    }

    /// Goes on with a byte, and answers the packet that it completes.
    pub(crate) fn take(&mut self, received: Received) -> Option<Packet>
        ensures packet { result ≡ packet_or_none (grown_of self.old.bytes.items self.old.newest received) }
        ensures bytes { self.new.bytes.items ≡ (if is_complete (grown_of self.old.bytes.items self.old.newest received)
            then [] else grown_of self.old.bytes.items self.old.newest received) }
        ensures newest { self.new.newest ≡ received.t }
    {
        self.drop_before(received.t);
        self.newest = received.t;
        if self.bytes.is_empty() && received.byte != REQUEST {
            return None;
        }
        self.add(received.byte)
    }

    /// Drops the bytes where the next one arrives too late.
    fn drop_before(&mut self, t: Tick)
        ensures { self.new.bytes.items ≡ kept_of self.old.bytes.items self.old.newest t }
    {
        if t.0.saturating_sub(self.newest.0) > PAUSE {
            self.bytes.clear();
        }
    }

    fn add(&mut self, byte: u8) -> Option<Packet>
        ensures packet { result ≡ packet_or_none (self.old.bytes.items ++ byte ∷ []) }
        ensures bytes { self.new.bytes.items ≡ (if is_complete (self.old.bytes.items ++ byte ∷ []) then [] else self.old.bytes.items ++ byte ∷ []) }
        ensures newest { self.new.newest ≡ self.old.newest }
    {
        self.bytes.push(byte);
        let packet = packet_in(self.bytes.as_slice())?;
        self.bytes.clear();
        Some(packet)
    }
}
