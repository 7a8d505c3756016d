//! The lines of a script, read.
ghost use Rattle.std.specs.Prelude.{◌≤◌, ℕ, IfOk, IfSome};
ghost use Rattle.am32trace.specs.Asked.{IsRate, IsSound, IsSoundAction};

use crate::action::{Action, Directive};
use crate::comparator::Beat;
use crate::expected::Expected;
use crate::frame_out::{Payload, Spoil};
use crate::packet::packet_bytes;
use crate::serial_line::MOST_BYTES;
use arrayvec::ArrayVec;
use esc_base::{Frame, Mode, Tick};
use trace_text::number_in;
use trace_tools::{Words, duration_in};

/// What a line asks for; nothing where it is blank or a comment.
pub fn directive(line: &[u8]) -> Result<Option<Directive>, Expected>
    ensures { IfOk result (λ d. IfSome d IsSound) }
{
    let mut words = Words::of(line);
    let Some(first) = words.next() else {
        return Ok(None);
    };
    let directive = if first == b"signal".as_slice() {
        signal(&mut words)?
    } else {
        let t = duration_in(first).ok_or(Expected::Directive)?;
        timed(Tick(t), &mut words)?
    };
    match words.next() {
        Some(_) => Err(Expected::LineEnd),
        None => Ok(Some(directive)),
    }
}

/// What happens at `t`.
fn timed(t: Tick, words: &mut Words) -> Result<Directive, Expected>
    ensures { IfOk result IsSound }
{
    match words.next() {
        Some(b"end") => Ok(Directive::End { t }),
        Some(word) => Ok(Directive::At {
            t,
            action: action(word, words)?,
        }),
        None => Err(Expected::Action),
    }
}

/// The longest duration that a word says, in ticks.
const LONGEST: u64 = 4294967296;

fn time(words: &mut Words) -> Result<u64, Expected>
    ensures { IfOk result (λ t. t ≤ 4294967296) }
{
    match words.next().and_then(|word| duration_in(word)) {
        Some(ticks) => {
            if ticks > LONGEST {
                return Err(Expected::Duration);
            }
            Ok(ticks)
        }
        None => Err(Expected::Duration),
    }
}

fn number(words: &mut Words, low: u32, high: u32, expected: Expected) -> Result<u32, Expected>
    requires { low ≤ high }
    ensures least { IfOk result (λ n. low ≤ n) }
    ensures most { IfOk result (λ n. n ≤ high) }
{
    let Some(word) = words.next() else {
        return Err(expected);
    };
    match number_in(word, low, high) {
        Some(n) => Ok(n),
        None => Err(expected),
    }
}

/// Nothing is wrong yet.
const RIGHT: Spoil = Spoil {
    flipped: 0,
    wide: None,
    edges: 32,
};

// ---- the signal

/// The least ticks from one message to the next: 31.25 us, 62.5 us and 2.5 ms.
fn least_period(mode: Mode) -> u64
    ensures { (period : ℕ) → result ≤ period → period ≤ 4294967296 → IsRate mode period }
{
    match mode {
        Mode::D600 | Mode::D600Inv => 1500,
        Mode::D300 | Mode::D300Inv => 3000,
        Mode::Servo | Mode::Unknown => 120000,
    }
}

fn inverted(mode: Mode) -> Mode {
    match mode {
        Mode::D300 => Mode::D300Inv,
        Mode::D600 => Mode::D600Inv,
        mode => mode,
    }
}

fn signal(words: &mut Words) -> Result<Directive, Expected>
    ensures { IfOk result IsSound }
{
    let kind = match words.next() {
        Some(b"dshot300") => Mode::D300,
        Some(b"dshot600") => Mode::D600,
        Some(b"servo") => Mode::Servo,
        _ => return Err(Expected::SignalKind),
    };
    let (mode, every) = match words.next() {
        Some(b"inverted") => (inverted(kind), words.next()),
        word => (kind, word),
    };
    if every != Some(b"every".as_slice()) {
        return Err(Expected::Every);
    }
    let period = time(words)?;
    if period < least_period(mode) {
        return Err(Expected::Rate);
    }
    Ok(Directive::Signal { mode, period })
}

// ---- what happens at a time

fn action(word: &[u8], words: &mut Words) -> Result<Action, Expected>
    ensures { IfOk result IsSoundAction }
{
    match word {
        b"throttle" => throttle(words),
        b"command" => {
            let value = number(words, 1, 47, Expected::Command)? as u16;
            repeated(words, value)
        }
        b"pulse" => pulse(words),
        b"off" => Ok(Action::Off),
        b"frame" => frame(words),
        b"flip" => Ok(Action::Spoil(flip(words, RIGHT)?)),
        b"wide" => Ok(Action::Spoil(wide(words, RIGHT)?)),
        b"cut" => Ok(Action::Spoil(cut(words, RIGHT)?)),
        b"noise" => Ok(Action::Noise(time(words)?)),
        b"line" => Ok(Action::Line(level(words)?)),
        b"comparator" => comparator(words),
        b"serial" => Ok(Action::Serial(bytes(words, Expected::Bytes)?)),
        b"packet" => packet(words),
        b"stall" => stall(words),
        _ => Err(Expected::Action),
    }
}

fn throttle(words: &mut Words) -> Result<Action, Expected>
    ensures { IfOk result IsSoundAction }
{
    let value = number(words, 0, 2047, Expected::Throttle)? as u16;
    if 0 < value && value < 48 {
        return Err(Expected::Throttle);
    }
    repeated(words, value)
}

/// Frames with this value, with a telemetry request where the line says so.
fn repeated(words: &mut Words, value: u16) -> Result<Action, Expected>
    requires { value ≤ 2047 }
    ensures { IfOk result IsSoundAction }
{
    let telemetry = match words.next() {
        None => false,
        Some(b"telemetry") => true,
        Some(_) => return Err(Expected::LineEnd),
    };
    Ok(Action::Send(Payload {
        frame: Frame { value, telemetry },
    }))
}

fn pulse(words: &mut Words) -> Result<Action, Expected>
    ensures { IfOk result IsSoundAction }
{
    let width = time(words)?;
    if width < 48 || width > 115200 {
        return Err(Expected::Width);
    }
    Ok(Action::Pulse(width))
}

fn frame(words: &mut Words) -> Result<Action, Expected>
    ensures { IfOk result IsSoundAction }
{
    let value = number(words, 0, 2047, Expected::Value)? as u16;
    let mut telemetry = false;
    let mut spoil = None;
    // At most one of each, and each bit once.
    for _ in 0..20 {
        match words.next() {
            None => break,
            Some(b"telemetry") => telemetry = true,
            Some(b"flip") => spoil = Some(flip(words, spoil.unwrap_or(RIGHT))?),
            Some(b"wide") => spoil = Some(wide(words, spoil.unwrap_or(RIGHT))?),
            Some(b"cut") => spoil = Some(cut(words, spoil.unwrap_or(RIGHT))?),
            Some(_) => return Err(Expected::FrameWord),
        }
    }
    let payload = Payload {
        frame: Frame { value, telemetry },
    };
    Ok(Action::Frame { payload, spoil })
}

fn flip(words: &mut Words, spoil: Spoil) -> Result<Spoil, Expected> {
    let bit = number(words, 0, 15, Expected::Bit)?;
    Ok(Spoil {
        flipped: spoil.flipped ^ (1 << (15 - bit)),
        wide: spoil.wide,
        edges: spoil.edges,
    })
}

fn wide(words: &mut Words, spoil: Spoil) -> Result<Spoil, Expected> {
    let bit = number(words, 0, 15, Expected::Bit)?;
    Ok(Spoil {
        flipped: spoil.flipped,
        wide: Some(bit),
        edges: spoil.edges,
    })
}

fn cut(words: &mut Words, spoil: Spoil) -> Result<Spoil, Expected> {
    let edges = number(words, 1, 31, Expected::Edges)? as usize;
    Ok(Spoil {
        flipped: spoil.flipped,
        wide: spoil.wide,
        edges,
    })
}

fn level(words: &mut Words) -> Result<bool, Expected> {
    match words.next() {
        Some(b"high") => Ok(true),
        Some(b"low") => Ok(false),
        _ => Err(Expected::Level),
    }
}

fn comparator(words: &mut Words) -> Result<Action, Expected>
    ensures { IfOk result IsSoundAction }
{
    match words.next() {
        Some(b"high") => Ok(Action::Hold(true)),
        Some(b"low") => Ok(Action::Hold(false)),
        Some(b"every") => Ok(Action::Change(beat(words)?)),
        _ => Err(Expected::Motion),
    }
}

fn beat(words: &mut Words) -> Result<Beat, Expected> {
    let every = time(words)?;
    let (bounces, apart) = match words.next() {
        None => (0, 0),
        Some(b"bounce") => (number(words, 1, 1000, Expected::Bounces)?, time(words)?),
        Some(_) => return Err(Expected::LineEnd),
    };
    let bounces = u64::from(bounces);
    if every < 1 || bounces.saturating_mul(apart).saturating_mul(2) >= every {
        return Err(Expected::Bounces);
    }
    Ok(Beat {
        every,
        bounces,
        apart,
    })
}

// ---- serial bytes

fn hex_digit(digit: u8) -> Option<u8> {
    match digit {
        b'0'..=b'9' => Some(digit - b'0'),
        b'a'..=b'f' => Some(digit - b'a' + 10),
        b'A'..=b'F' => Some(digit - b'A' + 10),
        _ => None,
    }
}

fn byte(word: &[u8]) -> Option<u8> {
    match word {
        [high, low] => Some(hex_digit(*high)? << 4 | hex_digit(*low)?),
        _ => None,
    }
}

/// The bytes of the words that are left, at least one.
fn bytes(words: &mut Words, expected: Expected) -> Result<ArrayVec<u8, 263>, Expected> {
    let mut bytes = ArrayVec::new();
    for _ in 0..=MOST_BYTES {
        let Some(word) = words.next() else { break };
        let byte = byte(word).ok_or(expected)?;
        if bytes.try_push(byte).is_err() {
            return Err(expected);
        }
    }
    if bytes.is_empty() {
        return Err(expected);
    }
    Ok(bytes)
}

fn address(word: &[u8]) -> Option<u16> {
    match word {
        [a, b, c, d] => {
            let high = byte(&[*a, *b])?;
            let low = byte(&[*c, *d])?;
            Some(u16::from(high) << 8 | u16::from(low))
        }
        _ => None,
    }
}

fn packet(words: &mut Words) -> Result<Action, Expected>
    ensures { IfOk result IsSoundAction }
{
    let cmd = words.next().and_then(|word| byte(word));
    let addr = words.next().and_then(|word| address(word));
    let (Some(cmd), Some(addr)) = (cmd, addr) else {
        return Err(Expected::Packet);
    };
    let params = bytes(words, Expected::Packet)?;
    match packet_bytes(cmd, addr, params.as_slice()) {
        Some(bytes) => Ok(Action::Serial(bytes)),
        None => Err(Expected::Packet),
    }
}

fn stall(words: &mut Words) -> Result<Action, Expected>
    ensures { IfOk result IsSoundAction }
{
    let ticks = time(words)?;
    if ticks < 1 || ticks > 16777216 {
        return Err(Expected::Stall);
    }
    Ok(Action::Stall(ticks as u32))
}
