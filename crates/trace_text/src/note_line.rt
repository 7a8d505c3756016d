ghost use Rattle.std.specs.Prelude.{◌≡◌, ◌≤◌, ◌<◌, ◌+◌, ◌∷◌, ◌++◌, [], length, decimal};
ghost use Rattle.esc_base.specs.Range.{InRange, IsWord};
ghost use Rattle.trace_text.specs.Text.{note_bytes, letter, note_fields, spaced, hex, bits};

use crate::Line;
use esc_base::{Note, Tick};

/// Begins a line anew, with a letter and a time.
fn begin(line: &mut Line, letter: u8, t: Tick)
    requires { IsWord t.0 }
    ensures bytes { line.new.bytes ≡ (letter ∷ []) ++ spaced (decimal t.0 ∷ []) }
    ensures len { length line.new.bytes ≤ 12 }
{
    line.clear();
    line.push_byte(letter);
    line.push_field(t.0 as u32);
}

fn one_number(line: &mut Line, letter: u8, t: Tick, a: u32)
    requires { IsWord t.0 }
    ensures bytes { line.new.bytes ≡ (letter ∷ []) ++ spaced (decimal t.0 ∷ decimal a ∷ []) }
    ensures len { length line.new.bytes ≤ 23 }
{
    begin(line, letter, t);
    line.push_field(a);
}

fn two_numbers(line: &mut Line, letter: u8, t: Tick, a: u32, b: u32)
    requires { IsWord t.0 }
    ensures bytes { line.new.bytes ≡ (letter ∷ []) ++ spaced (decimal t.0 ∷ decimal a ∷ decimal b ∷ []) }
    ensures len { length line.new.bytes ≤ 34 }
{
    one_number(line, letter, t, a);
    line.push_field(b);
}

fn three_numbers(line: &mut Line, letter: u8, t: Tick, a: u32, b: u32, c: u32)
    requires { IsWord t.0 }
    ensures bytes { line.new.bytes ≡ (letter ∷ []) ++ spaced (decimal t.0 ∷ decimal a ∷ decimal b ∷ decimal c ∷ []) }
    ensures len { length line.new.bytes ≤ 45 }
{
    two_numbers(line, letter, t, a, b);
    line.push_field(c);
}

/// Begins a line anew, with the verdict on a window.
fn judged(line: &mut Line, t: Tick, verdict: u8)
    requires { IsWord t.0 }
    ensures bytes { line.new.bytes ≡ (70 ∷ []) ++ spaced (decimal t.0 ∷ (verdict ∷ []) ∷ []) }
    ensures len { length line.new.bytes ≤ 14 }
{
    begin(line, b'F', t);
    line.push_byte(b' ');
    line.push_byte(verdict);
}

fn judged_with(line: &mut Line, t: Tick, verdict: u8, a: u32)
    requires { IsWord t.0 }
    ensures bytes { line.new.bytes ≡ (70 ∷ []) ++ spaced (decimal t.0 ∷ (verdict ∷ []) ∷ decimal a ∷ []) }
    ensures len { length line.new.bytes ≤ 25 }
{
    judged(line, t, verdict);
    line.push_field(a);
}

fn good(line: &mut Line, t: Tick, value: u32, telemetry: u32)
    requires { IsWord t.0 }
    ensures bytes { line.new.bytes ≡ (70 ∷ []) ++ spaced (decimal t.0 ∷ (71 ∷ []) ∷ decimal value ∷ decimal telemetry ∷ []) }
    ensures len { length line.new.bytes ≤ 36 }
{
    judged_with(line, t, b'G', value);
    line.push_field(telemetry);
}

fn one_byte(line: &mut Line, letter: u8, t: Tick, a: u8)
    requires { IsWord t.0 }
    ensures bytes { line.new.bytes ≡ (letter ∷ []) ++ spaced (decimal t.0 ∷ hex a ∷ []) }
    ensures len { length line.new.bytes ≤ 15 }
{
    begin(line, letter, t);
    line.push_hex(a);
}

fn two_bytes(line: &mut Line, letter: u8, t: Tick, a: u8, b: u8)
    requires { IsWord t.0 }
    ensures bytes { line.new.bytes ≡ (letter ∷ []) ++ spaced (decimal t.0 ∷ hex a ∷ hex b ∷ []) }
    ensures len { length line.new.bytes ≤ 18 }
{
    one_byte(line, letter, t, a);
    line.push_hex(b);
}

fn no_period(line: &mut Line, t: Tick)
    requires { IsWord t.0 }
    ensures bytes { line.new.bytes ≡ (86 ∷ []) ++ spaced (decimal t.0 ∷ (110 ∷ 111 ∷ 110 ∷ 101 ∷ []) ∷ []) }
    ensures len { length line.new.bytes ≤ 17 }
{
    begin(line, b'V', t);
    line.push_bytes(b" none");
}

fn reply(line: &mut Line, t: Tick, s: Tick, b: u32)
    requires word { IsWord t.0 }
    requires start { IsWord s.0 }
    ensures bytes { line.new.bytes ≡ (82 ∷ []) ++ spaced (decimal t.0 ∷ decimal s.0 ∷ bits 21 b ∷ []) }
    ensures len { length line.new.bytes ≤ 45 }
{
    one_number(line, b'R', t, s.0 as u32);
    line.push_byte(b' ');
    line.push_bits(21, b);
}

/// A note's line up to its line feed.
fn write_fields(line: &mut Line, n: &Note)
    requires { InRange n.now }
    ensures bytes { line.new.bytes ≡ (letter n.now ∷ []) ++ spaced (note_fields n.now) }
    ensures len { length line.new.bytes ≤ 45 }
{
    match *n {
        Note::Up { t, r } => one_number(line, b'U', t, u32::from(r)),
        Note::Enter { t, k } => one_number(line, b'I', t, u32::from(k)),
        Note::Leave { t, k } => one_number(line, b'O', t, u32::from(k)),
        Note::Gate { t, hi, lo } => two_numbers(line, b'G', t, u32::from(hi), u32::from(lo)),
        Note::Window { t, m } => one_number(line, b'W', t, u32::from(m)),
        Note::Good { t, v, q } => good(line, t, u32::from(v), u32::from(q)),
        Note::Detected { t, m } => judged_with(line, t, b'D', u32::from(m)),
        Note::Nothing { t } => judged(line, t, b'N'),
        Note::Bad { t, w } => judged_with(line, t, b'B', u32::from(w)),
        Note::Control { t, n, s, d } => three_numbers(line, b'K', t, n, u32::from(s), u32::from(d)),
        Note::Armed { t } => begin(line, b'A', t),
        Note::Lost { t, c } => one_number(line, b'X', t, u32::from(c)),
        Note::Command { t, c } => one_number(line, b'M', t, u32::from(c)),
        Note::Saved { t, r } => one_number(line, b'P', t, u32::from(r)),
        Note::Step { t, s } => one_number(line, b'Q', t, u32::from(s)),
        Note::Cross { t } => begin(line, b'Z', t),
        Note::Period { t, p: None } => no_period(line, t),
        Note::Period { t, p: Some(p) } => one_number(line, b'V', t, p),
        Note::Reply { t, s, b } => reply(line, t, s, b),
        Note::Packet { t, cc, kk } => two_bytes(line, b'B', t, cc, kk),
        Note::Sent { t, xx } => one_byte(line, b'S', t, xx),
        Note::Dropped { t, xx } => one_byte(line, b'L', t, xx),
        Note::Watched { t, i, n, s } => three_numbers(line, b'Y', t, i, n, u32::from(s)),
    }
}

/// Writes a note's line, in place of what the line held. A caller who writes many notes keeps one line for them all.
pub fn write_note(line: &mut Line, n: &Note)
    requires { InRange n.now }
    ensures { line.new.bytes ≡ note_bytes n.now }
{
    write_fields(line, n);
    line.push_byte(b'\n');
}

/// A note's line.
pub fn note_text(n: &Note) -> Line
    requires { InRange n.now }
    ensures { result.bytes ≡ note_bytes n.now }
{
    let mut line = Line::new();
    write_note(&mut line, n);
    line
}
