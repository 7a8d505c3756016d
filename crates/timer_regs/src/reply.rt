//! When a reply stands on the line.
ghost use Rattle.std.specs.Prelude.{◌≡◌, ◌+◌, ◌<◌, ◌≤◌, ◌^◌};
ghost use Rattle.edge_capture.specs.Edges.{last_at};
ghost use Rattle.timer_regs.specs.Reply.{answers_from, end_of_reply as end_of, longest};

use crate::timers::later;
use edge_capture::{Burst, Capture};
use esc_base::{Mode, Tick};

/// A reply starts so many ticks, 30 microseconds, after the last edge that it answers.
const REPLY_DELAY: u64 = 1440;

const REPLY_BITS: u32 = 21;

/// The end of a reply that is loaded at `now`.
pub(crate) fn end_of_reply(window: &Capture, now: Tick) -> u32
    requires small { now.0 < 2 ^ 31 }
    requires heard { last_at window.now.edges ≤ now.0 }
    ensures end { result ≡ end_of window.now now.0 }
    ensures soon { result ≤ now.0 + longest }
{
    let bit = match window.mode() {
        Mode::D600Inv => 64,
        _ => 128,
    };
    let start = later(Tick(now.0 + 1), answered_from(window.burst()));
    start.0 as u32 + REPLY_BITS * bit
}

/// The tick from which on a reply to these edges may start.
fn answered_from(burst: &Burst) -> Tick
    requires small { last_at burst.now < 2 ^ 31 }
    ensures { result.0 ≡ answers_from burst.now }
{
    match burst.len() {
        0 => Tick(0),
        n => Tick(burst.at(n - 1).t.0 + REPLY_DELAY),
    }
}
