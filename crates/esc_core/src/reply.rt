//! When a reply to an inverted frame starts and ends, and the period that it tells.
ghost use Rattle.std.specs.Prelude.{◌≡◌, ◌+◌, ◌<◌, ◌≤◌, ◌^◌};
ghost use Rattle.esc_base.specs.Times.{reply_delay};
ghost use Rattle.esc_core.specs.Reply.{starts_from, ends_from, period_of};

use edge_capture::Burst;
use esc_base::{Mode, Tick};

/// A reply starts so many ticks, 30 microseconds, after the last edge that it answers.
const DELAY: u64 = 1440;

/// The bits of a reply.
const BITS: u32 = 21;

const TICKS_PER_US: u32 = 48;

/// The electrical period in whole microseconds, from the sum of six gaps of sectors in ticks. There is none where the sum is 0.
pub(crate) fn period_us(sum: u32) -> Option<u32>
    ensures { result ≡ period_of sum }
{
    if sum == 0 {
        None
    } else {
        Some(sum / TICKS_PER_US)
    }
}

/// The tick at which a reply to these edges starts that is loaded at `now`: not before the next one.
pub(crate) fn reply_start(edges: &Burst, now: Tick) -> Tick
    requires { now.0 < 2 ^ 31 }
    ensures start { result.0 ≡ starts_from edges.now now.0 }
    ensures soon { result.0 < 2 ^ 31 + reply_delay }
{
    let next = now.0 + 1;
    match edges.len() {
        0 => Tick(next),
        n => Tick(next.max(edges.at(n - 1).t.0 + DELAY)),
    }
}

/// The tick at which a reply ends that starts at `start`. Its bits last 5/4 of a frame's rate: 64 ticks or 128.
pub(crate) fn reply_end(mode: Mode, start: Tick) -> u32
    requires { start.0 < 2 ^ 31 + reply_delay }
    ensures { result ≡ ends_from mode start.0 }
{
    let bit = match mode {
        Mode::D600Inv => 64,
        _ => 128,
    };
    start.0 as u32 + BITS * bit
}
