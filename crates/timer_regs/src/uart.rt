//! The serial receiver, of one byte, and the transmitter.
ghost use Rattle.std.specs.Prelude.{◌≡◌, ◌≤◌, ◌<◌, ◌+◌, ◌^◌, if◌then◌else◌, true, false, None, Some};
ghost use Rattle.esc_base.specs.declared.event.Arrived.TheVariants as arrived;
ghost use Rattle.timer_regs.specs.Uart.{IsBy, is_full, received_at, received_byte, uart_state, asks_uart, after_arrival};

use esc_base::{Arrived, Received, Tick};

/// How long the transmitter is busy with a byte, in ticks: ten bits at 19200 baud.
pub(crate) const BYTE_TIME: u64 = 25_000;

/// The serial receiver, of one byte, and the transmitter.
#[derive(Drop)]
pub(crate) struct Uart {
    /// The byte that waits.
    pub(crate) receive: Option<Received>,
    /// The transmitter is idle from this tick on.
    pub(crate) idle_from: Tick,
    /// Bytes are to be sent.
    pub(crate) sends: bool,
}

impl Uart {
    /// No byte waits, and none is to be sent.
    pub(crate) fn new() -> Uart
        ensures { result ≡ record { receive = None; idle_from = record { 0 = 0 }; sends = false } }
    {
        Uart {
            receive: None,
            idle_from: Tick(0),
            sends: false,
        }
    }

    /// Bit 0: a byte waits. Bit 1: the transmitter is idle.
    pub(crate) fn state(&self, now: Tick) -> u32
        ensures state { result ≡ uart_state self.now.receive self.now.idle_from.0 now.0 }
        ensures small { result ≤ 3 }
    {
        let full = self.receive.is_some();
        let idle = self.idle_from.0 <= now.0;
        full as u32 + 2 * idle as u32
    }

    /// When the waiting byte arrived, 0 where none waits.
    pub(crate) fn arrived_at(&self) -> u32
        requires { received_at self.now.receive < 2 ^ 31 }
        ensures at { result ≡ received_at self.now.receive }
    {
        match self.receive {
            Some(received) => received.t.0 as u32,
            None => 0,
        }
    }

    /// Takes the waiting byte, 0 where none waits.
    pub(crate) fn take(&mut self) -> u32
        ensures byte { result ≡ received_byte self.old.receive }
        ensures small { result < 2 ^ 8 }
        ensures empty { self.new ≡ record self.old { receive = None } }
    {
        let byte = match self.receive {
            Some(received) => received.byte as u32,
            None => 0,
        };
        self.receive = None;
        byte
    }

    /// Whether UART is due.
    pub(crate) fn due(&self, now: Tick) -> bool
        ensures { result ≡ asks_uart self.now.receive self.now.sends self.now.idle_from.0 now.0 }
    {
        self.receive.is_some() || (self.sends && self.idle_from.0 <= now.0)
    }

    /// A byte arrives. It is lost where one waits.
    pub(crate) fn arrive(&mut self, now: Tick, byte: u8) -> Arrived
        ensures lost { result ≡ (if is_full self.old.receive then Arrived.Lost else Arrived.Kept) }
        ensures receive { self.new ≡ record self.old { receive = after_arrival self.old.receive now.0 byte } }
    {
        match self.receive {
            Some(_) => Arrived::Lost,
            None => {
                self.receive = Some(Received { t: now, byte });
                Arrived::Kept
            }
        }
    }
}
