ghost use Rattle.std.specs.Prelude.{◌≡◌, ◌<◌, ◌≤◌, ◌-◌, if◌then◌else◌, Bool, List, length, slice_index};
ghost use Rattle.esc_base.specs.Range.{HasSmallValue};
ghost use Rattle.dshot_frame.specs.Bits.{number, reading};
ghost use Rattle.dshot_frame.specs.Verdict.{verdict_of, starts, widths, steps, is_span, is_width, is_step, is_timely, is_timely_at, is_polar, bits_of};

use crate::checksum::checksum;
use edge_capture::{Burst, mode_numbers};
use esc_base::{Frame, Mode, Verdict, Why};

// The bits of a frame, each with two edges.
const BITS: usize = 16;

/// What the edges of a window are as a frame of this mode, which is one of the four DShot modes. The first fault is
/// told: there aren't 32 edges, the first one goes to the resting level, the frame is too short or too long, an
/// active part or the distance of two bit starts is out of tolerance, the checksum is wrong.
pub fn verdict(mode: Mode, burst: &Burst) -> Verdict
    ensures judged { result ≡ verdict_of mode burst.now }
    ensures value { HasSmallValue result }
{
    let numbers = mode_numbers(mode);
    if burst.len() != 2 * BITS {
        return Verdict::Bad(Why::Count);
    }
    if !begins_active(burst, numbers.inverted) {
        return Verdict::Bad(Why::Polarity);
    }
    let bit = numbers.bit as u64;
    if !spans_a_frame(bit, burst.at(30).t.0 - burst.at(0).t.0) {
        return Verdict::Bad(Why::Span);
    }
    match read_word(burst, bit) {
        Some(word) => read_frame(word, numbers.inverted),
        None => Verdict::Bad(Why::Width),
    }
}

// Whether the first edge goes to the active level.
fn begins_active(burst: &Burst, inverted: bool) -> bool
    requires { 0 < length burst.now }
    ensures { result ≡ is_polar inverted burst.now }
{
    burst.at(0).level != inverted
}

// From the first bit's start to the last one's are 15 bits, give or take an eighth.
fn spans_a_frame(bit: u64, ticks: u64) -> bool
    requires { bit ≤ 160 }
    ensures { result ≡ is_span bit ticks }
{
    105 * bit / 8 <= ticks && ticks <= 135 * bit / 8
}

fn is_active_part(bit: u64, ticks: u64) -> bool
    requires { bit ≤ 160 }
    ensures { result ≡ is_width bit ticks }
{
    bit / 8 <= ticks && ticks <= 15 * bit / 16
}

fn is_bit_apart(bit: u64, ticks: u64) -> bool
    requires { bit ≤ 160 }
    ensures { result ≡ is_step bit ticks }
{
    3 * bit / 4 <= ticks && ticks <= 5 * bit / 4
}

// The ticks for which bit `i` is active.
fn width_of(burst: &Burst, i: usize) -> u64
    requires edges { length burst.now ≡ 32 }
    requires bit { i < 16 }
    ensures { result ≡ slice_index (widths burst.now) i }
{
    burst.at(2 * i + 1).t.0 - burst.at(2 * i).t.0
}

// The ticks from the start of the bit before bit `i` to its own.
fn step_to(burst: &Burst, i: usize) -> u64
    requires edges { length burst.now ≡ 32 }
    requires after_first { 0 < i }
    requires bit { i < 16 }
    ensures { result ≡ slice_index (steps (starts burst.now)) (i - 1) }
{
    burst.at(2 * i).t.0 - burst.at(2 * i - 2).t.0
}

// Whether bit `i` is within tolerance: its active part, and its distance from the bit before.
fn is_in_time(burst: &Burst, bit: u64, i: usize) -> bool
    requires edges { length burst.now ≡ 32 }
    requires place { i < 16 }
    requires length { bit ≤ 160 }
    ensures { result ≡ is_timely_at bit burst.now i }
{
    is_active_part(bit, width_of(burst, i)) && (i == 0 || is_bit_apart(bit, step_to(burst, i)))
}

// The word of 16 bits, or none where an active part or a distance is out of tolerance.
fn read_word(burst: &Burst, bit: u64) -> Option<u16>
    requires edges { length burst.now ≡ 32 }
    requires bit { bit ≤ 160 }
    ensures { result ≡ (if is_timely bit burst.now then Some (number (bits_of bit burst.now)) else None) }
{
    let mut word = 0;
    for i in 0..BITS {
        if !is_in_time(burst, bit, i) {
            return None;
        }
        let is_one = width_of(burst, i) > bit / 2;
        word = word << 1 | u16::from(is_one);
    }
    Some(word)
}

// The frame of a word, if its checksum is right.
fn read_frame(word: u16, inverted: bool) -> Verdict
    ensures said { (bits : List Bool) → length bits ≡ 16 → word ≡ number bits → result ≡ reading inverted bits }
    ensures value { HasSmallValue result }
{
    let upper = word >> 4;
    if word & 15 != checksum(upper, inverted) {
        return Verdict::Bad(Why::Check);
    }
    Verdict::Good(Frame {
        value: upper >> 1,
        telemetry: upper & 1 == 1,
    })
}
