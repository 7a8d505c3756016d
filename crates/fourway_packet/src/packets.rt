ghost use Rattle.std.specs.Prelude.{◌≡◌, ◌<◌, ◌≤◌, ◌++◌, [], ◌∷◌, ◌↔◌, List, length, take, drop, option_to_list, IfOk};
ghost use Rattle.esc_base.specs.declared.event.Arrived.TheVariants as arrived;
ghost use Rattle.fourway_packet.specs.declared.packets.Received.{Received};
ghost use Rattle.fourway_packet.specs.Cut.{cut};
ghost use Rattle.fourway_packet.specs.Queue.{HasTaken, IsFull, no_bytes, queued, packet_taken, queue_left};

use crate::Packet;
use crate::part::Part;
use circular_buffer::HeapCircularBuffer;
use esc_base::{Arrived, NoMemory, Tick};
use std::alloc::Global;
use std::marker::Model;

/// A serial byte, and when it arrived.
#[derive(Clone, Copy, Drop)]
pub struct Received {
    pub t: Tick,
    pub byte: u8,
}

/// How many bytes may wait.
const ROOM: usize = 512;

/// The serial bytes that wait, at most 512, and the packet that those taken before have begun.
#[derive(Drop)]
pub struct Packets {
    waiting: HeapCircularBuffer<Received>,
    part: Part,
}

impl Model for Packets {
    ghost use Rattle.std.specs.Prelude.{◌≡◌, ◌≤◌, ◌<◌, length};
    ghost use Rattle.fourway_packet.specs.Queue.{Queue};

    ghost Value = { Queue };

    ghost view = { λ p. record { waiting = p.waiting.items; part = p.part.bytes.items; newest = p.part.newest } };

    ghost invariant = { λ p. (p.waiting.capacity ≡ 512) × (length p.waiting.items ≤ 512) };
}

impl Packets {
    /// No bytes wait, and none were taken.
    pub fn new(alloc: Global) -> Result<Packets, NoMemory>
        ensures none { IfOk result (λ packets. packets ≡ no_bytes) }
        ensures taken { IfOk result (λ packets. HasTaken packets []) }
    {
        match HeapCircularBuffer::with_capacity(alloc, ROOM) {
            Ok(waiting) => Ok(Packets {
                waiting,
                part: Part::new(),
            }),
            Err(_refused) => Err(NoMemory),
        }
    }

    /// Keeps a byte that arrived at `t`, in ticks of 48 MHz, unless 512 bytes wait already.
    pub fn push(&mut self, t: Tick, b: u8) -> Arrived
        ensures lost { (result ≡ Arrived.Lost) ↔ IsFull self.old }
        ensures kept { result ≡ Arrived.Kept → self.new.waiting ≡ self.old.waiting ++ record { t = t; byte = b } ∷ [] }
        ensures queued { result ≡ Arrived.Kept → self.new ≡ queued self.old (record { t = t; byte = b }) }
        ensures unchanged { result ≡ Arrived.Lost → self.new ≡ self.old }
        ensures taken { (taken : List Received) → HasTaken self.old taken → HasTaken self.new taken }
    {
        match self.waiting.try_push_back(Received { t, byte: b }) {
            Ok(()) => Arrived::Kept,
            Err(_lost) => Arrived::Lost,
        }
    }

    /// How many bytes wait, at most 512.
    pub fn waiting(&self) -> usize
        ensures waiting { result ≡ length self.now.waiting }
        ensures most { result ≤ 512 }
    {
        self.waiting.len()
    }

    /// Takes the oldest byte that waits, and answers the packet that it completes. Bytes before a 0x2F are skipped. A
    /// byte that arrived more than 50 milliseconds (2,400,000 ticks) after the one before it drops a packet that has
    /// begun.
    pub fn take(&mut self) -> Option<Packet>
        requires { 0 < length self.old.waiting }
        ensures packet { result ≡ packet_taken self.old }
        ensures queue { self.new ≡ queue_left self.old }
        ensures waiting { self.new.waiting ≡ drop 1 self.old.waiting }
        ensures cut { (taken : List Received) → HasTaken self.old taken →
            cut (taken ++ take 1 self.old.waiting) ≡ cut taken ++ option_to_list result }
        ensures taken { (taken : List Received) → HasTaken self.old taken → HasTaken self.new (taken ++ take 1 self.old.waiting) }
    {
        match self.waiting.pop_front() {
            Some(received) => self.part.take(received),
            None => unreachable!(),
        }
    }
}
