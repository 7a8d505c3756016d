//! What MAIN and UART share of the serial line.
ghost use Rattle.std.specs.Prelude.{◌≡◌, ◌<◌, ◌^◌, ◌↔◌, ◌++◌, [], ◌∷◌, length, IfSome};
ghost use Rattle.esc_base.specs.declared.note.Note.TheVariants.{Packet as packet_of};
ghost use Rattle.esc_base.specs.declared.event.Arrived.TheVariants as arrived;
ghost use Rattle.esc_base.specs.Range.{InRange};
ghost use Rattle.fourway_packet.specs.Queue.{IsFull, queued};
ghost use Rattle.esc_core.specs.Line.{first_line, line_waits, TakesByte};

use arrayvec::ArrayVec;
use esc_base::{Arrived, FlashDev, Note, Tick};
use fourway_packet::{Packets, Session, answer, reply_bytes};
use std::marker::Model;

/// The bytes that wait, the session, and the newest reply, of which so many bytes were sent.
#[derive(Drop)]
pub struct Serial {
    packets: Packets,
    session: Session,
    reply: ArrayVec<u8, 264>,
    sent: usize,
}

impl Model for Serial {
    ghost use Rattle.std.specs.Prelude.{drop};
    ghost use Rattle.esc_core.specs.Line.{Line};

    ghost Value = { Line };

    ghost view = { λ s. record { packets = s.packets; active = s.session.active; left = drop s.sent s.reply.items } };
}

impl Serial {
    /// No session is active, and no reply was made.
    pub(crate) fn new(packets: Packets) -> Serial
        ensures { result ≡ first_line packets }
    {
        Serial {
            packets,
            session: Session { active: false },
            reply: ArrayVec::new(),
            sent: 0,
        }
    }

    /// Whether a session is active.
    pub(crate) fn is_active(&self) -> bool
        ensures { result ≡ self.now.active }
    {
        self.session.active
    }

    /// Whether MAIN is to take a byte: one waits, and no byte of a reply is to be sent.
    pub(crate) fn waits(&self) -> bool
        ensures { result ≡ line_waits self.now }
    {
        self.packets.waiting() > 0 && self.left() == 0
    }

    /// How many bytes of the reply are still to be sent.
    fn left(&self) -> usize
        ensures { result ≡ length self.now.left }
    {
        self.reply.len().saturating_sub(self.sent)
    }

    /// Keeps a byte that arrived at `t`, in ticks of 48 MHz, unless 512 bytes wait already.
    pub(crate) fn push(&mut self, t: Tick, byte: u8) -> Arrived
        ensures lost { (result ≡ Arrived.Lost) ↔ IsFull self.old.packets }
        ensures kept { result ≡ Arrived.Kept → self.new ≡ record self.old { packets = queued self.old.packets (record { t = t; byte = byte }) } }
        ensures unchanged { result ≡ Arrived.Lost → self.new ≡ self.old }
    {
        self.packets.push(t, byte)
    }

    /// Takes the oldest byte that waits, if one does, and answers the packet that it completes.
    pub(crate) fn take<D: FlashDev>(&mut self, armed: bool, t: Tick, dev: &mut D) -> Option<Note>
        requires { t.0 < 2 ^ 32 }
        ensures takes { TakesByte armed t.0 self.old (D.told dev.old) result self.new (D.told dev.new) }
        ensures in_range { IfSome result InRange }
    {
        if self.packets.waiting() == 0 {
            return None;
        }
        match self.packets.take() {
            Some(packet) => {
                let reply = answer(&packet, &mut self.session, armed, dev);
                self.reply = reply_bytes(&reply);
                self.sent = 0;
                Some(packet_note(t, reply.cmd, reply.ack))
            }
            None => None,
        }
    }
}

fn packet_note(t: Tick, cmd: u8, ack: u8) -> Note
    requires { t.0 < 2 ^ 32 }
    ensures note { result ≡ packet_of t cmd ack }
    ensures in_range { InRange result }
{
    Note::Packet {
        t,
        cc: cmd,
        kk: ack,
    }
}
