//! What another program makes of parts of this controller: a tester of flight controllers, which sends frames, reads replies and
//! checks packets.
#![tactic(auto)]

ghost use Rattle.std.specs.Prelude.{◌≡◌, ◌≤◌, ◌↔◌, ℕ, true, false};
ghost use Rattle.esc_base.specs.declared.signal.Mode.{Mode};
ghost use Rattle.esc_base.specs.declared.signal.Verdict.TheVariants.{Good};
ghost use Rattle.edge_capture.specs.Modes.{numbers};
ghost use Rattle.dshot_frame.specs.Verdict.{verdict_of};
ghost use Rattle.dshot_frame.specs.Sent.{HasFrames, sent};
ghost use Rattle.gcr_reply.specs.Reply.{ReplyBits};
ghost use Rattle.fourway_packet.specs.Crc.{crc_of};

#[cfg(test)]
mod tests;

use arming::on_ticks;
use dshot_frame::encode;
use esc_base::Frame;
use fourway_packet::crc16;
use gcr_reply::reply_bits;

/// The word of a frame with this value, 0 to 2047, that asks for no telemetry. Its exact edges, sent at any tick, are heard as this
/// frame.
pub fn frame_word(value: u16, inverted: bool) -> u16
    requires { value ≤ 2047 }
    ensures { (m : Mode) (s : ℕ) → HasFrames m → (numbers m).inverted ≡ inverted →
        verdict_of m (sent m s result) ≡ Good (record { value = value; telemetry = false }) }
{
    encode(
        Frame {
            value,
            telemetry: false,
        },
        inverted,
    )
}

/// Whether 21 levels of the line, the first one as the most significant bit, are the reply that tells this period in microseconds,
/// or that there is none.
pub fn tells_period(levels: u32, period_us: Option<u32>) -> bool
    ensures { (result ≡ true) ↔ ReplyBits levels period_us }
{
    levels == reply_bits(period_us)
}

/// Whether this is the CRC of a four-way packet's bytes before it.
pub fn has_crc(bytes: &[u8], crc: u16) -> bool
    ensures { (result ≡ true) ↔ (crc ≡ crc_of bytes.now) }
{
    crc == crc16(bytes)
}

/// The demand of a throttle value, 48 to 2047, in percent of a period: 5 to 95, rounded down.
pub fn percent(value: u16) -> u16
    requires is_throttle { 48 ≤ value }
    requires is_value { value ≤ 2047 }
    ensures least { 5 ≤ result }
    ensures most { result ≤ 95 }
{
    on_ticks(value) / 20
}
