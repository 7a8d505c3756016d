ghost use Rattle.std.specs.Prelude.{◌≡◌, ◌≤◌, ◌<◌, ◌∷◌, ◌++◌, [], length, decimal};
ghost use Rattle.esc_base.specs.Range.{IsWord};
ghost use Rattle.trace_text.specs.Text.{event_bytes, line_of, spaced, hex, level_number, IsHeldByTrace};

use crate::Line;
use esc_base::{Event, Tick};

/// A time and a kind.
fn head(t: Tick, kind: u8) -> Line
    requires { IsWord t.0 }
    ensures bytes { result.bytes ≡ decimal t.0 ++ spaced ((kind ∷ []) ∷ []) }
    ensures len { length result.bytes ≤ 12 }
{
    let mut line = Line::new();
    line.push_number(t.0 as u32);
    line.push_byte(b' ');
    line.push_byte(kind);
    line
}

fn with_number(t: Tick, kind: u8, n: u32) -> Line
    requires { IsWord t.0 }
    ensures { result.bytes ≡ line_of (decimal t.0) ((kind ∷ []) ∷ decimal n ∷ []) }
{
    let mut line = head(t, kind);
    line.push_field(n);
    line.push_byte(b'\n');
    line
}

fn with_byte(t: Tick, kind: u8, byte: u8) -> Line
    requires { IsWord t.0 }
    ensures { result.bytes ≡ line_of (decimal t.0) ((kind ∷ []) ∷ hex byte ∷ []) }
{
    let mut line = head(t, kind);
    line.push_hex(byte);
    line.push_byte(b'\n');
    line
}

fn number_of(level: bool) -> u32
    ensures { result ≡ level_number level }
{
    if level { 1 } else { 0 }
}

/// An event's line in a trace.
pub fn event_text(e: &Event) -> Line
    requires { IsHeldByTrace e.now }
    ensures { result.bytes ≡ event_bytes e.now }
{
    match *e {
        Event::Edge { t, level } => with_number(t, b'E', number_of(level)),
        Event::Comp { t, level } => with_number(t, b'C', number_of(level)),
        Event::Serial { t, byte } => with_byte(t, b'S', byte),
        Event::Stall { t, n } => with_number(t, b'J', n),
    }
}
