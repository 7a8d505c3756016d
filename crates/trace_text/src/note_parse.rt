ghost use Rattle.std.specs.Prelude.{◌≡◌, ◌<◌, ◌^◌, ◌==◌, ◌||◌, if◌then◌else◌, None, IfSome, option_map};
ghost use Rattle.esc_base.specs.declared.note.Note.TheVariants.{Up as UpNote};
ghost use Rattle.trace_text.specs.Line.{number_between};
ghost use Rattle.esc_base.specs.Range.{InRange, IsWord};
ghost use Rattle.trace_text.specs.NoteRead.{bits_of, is_none_word, period_of, verdict_of, later_note, note_of};

use crate::field::{byte, number_in};
use esc_base::{Note, Tick};

fn is_binary(digit: u8) -> bool
    ensures { result ≡ (digit == 48 || digit == 49) }
{
    digit == b'0' || digit == b'1'
}

/// The number that 21 binary digits say.
fn bits(digits: &[u8]) -> Option<u32>
    ensures value { result ≡ bits_of digits.now }
    ensures fits { IfSome result (λ b. b < 2 ^ 21) }
{
    if digits.len() != 21 {
        return None;
    }
    let mut b: u32 = 0;
    for digit in digits {
        if !is_binary(*digit) {
            return None;
        }
        b = b.saturating_mul(2).saturating_add((*digit - b'0') as u32);
    }
    Some(b)
}

fn is_none(word: &[u8]) -> bool
    ensures { result ≡ is_none_word word.now }
{
    match word {
        b"none" => true,
        _ => false,
    }
}

/// `none`, or a period.
fn period(word: &[u8]) -> Option<Option<u32>>
    ensures { result ≡ period_of word.now }
{
    if is_none(word) {
        return Some(None);
    }
    Some(Some(number_in(word, 0, u32::MAX)?))
}

/// The note of a verdict's letter and its numbers.
fn verdict(t: Tick, letter: &[u8], a: &[u8], b: &[u8]) -> Option<Note>
    requires { IsWord t.0 }
    ensures note { result ≡ verdict_of t letter.now a.now b.now }
    ensures in_range { IfSome result InRange }
{
    match letter {
        [b'G'] => Some(Note::Good {
            t,
            v: number_in(a, 0, 2047)? as u16,
            q: number_in(b, 0, 1)? as u8,
        }),
        [b'D'] => Some(Note::Detected {
            t,
            m: number_in(a, 1, 5)? as u8,
        }),
        [b'N'] => Some(Note::Nothing { t }),
        [b'B'] => Some(Note::Bad {
            t,
            w: number_in(a, 1, 5)? as u8,
        }),
        _ => None,
    }
}

/// The note of a command, a save, the drive or the serial side, by its letter.
fn later(letter: u8, t: Tick, a: &[u8], b: &[u8], c: &[u8]) -> Option<Note>
    requires { IsWord t.0 }
    ensures note { result ≡ later_note letter t a.now b.now c.now }
    ensures in_range { IfSome result InRange }
{
    match letter {
        b'M' => Some(Note::Command {
            t,
            c: number_in(a, 0, 47)? as u8,
        }),
        b'P' => Some(Note::Saved {
            t,
            r: number_in(a, 0, 1)? as u8,
        }),
        b'Q' => Some(Note::Step {
            t,
            s: number_in(a, 1, 6)? as u8,
        }),
        b'Z' => Some(Note::Cross { t }),
        b'V' => Some(Note::Period { t, p: period(a)? }),
        b'R' => Some(Note::Reply {
            t,
            s: Tick(u64::from(number_in(a, 0, u32::MAX)?)),
            b: bits(b)?,
        }),
        b'B' => Some(Note::Packet {
            t,
            cc: byte(a)?,
            kk: byte(b)?,
        }),
        b'S' => Some(Note::Sent { t, xx: byte(a)? }),
        b'L' => Some(Note::Dropped { t, xx: byte(a)? }),
        b'Y' => Some(Note::Watched {
            t,
            i: number_in(a, 0, u32::MAX)?,
            n: number_in(b, 0, u32::MAX)?,
            s: number_in(c, 0, 1)? as u8,
        }),
        _ => None,
    }
}

fn up(t: Tick, a: &[u8]) -> Option<Note>
    ensures note { result ≡ (if t.0 == 0 then option_map (λ r. UpNote t r) (number_between 0 3 a.now) else None) }
    ensures in_range { IfSome result InRange }
{
    if t.0 != 0 {
        return None;
    }
    Some(Note::Up {
        t,
        r: number_in(a, 0, 3)? as u8,
    })
}

/// The note of a letter, a time and the words after them.
pub fn note(letter: u8, t: Tick, a: &[u8], b: &[u8], c: &[u8]) -> Option<Note>
    requires { IsWord t.0 }
    ensures note { result ≡ note_of letter t a.now b.now c.now }
    ensures in_range { IfSome result InRange }
{
    match letter {
        b'U' => up(t, a),
        b'I' => Some(Note::Enter {
            t,
            k: number_in(a, 0, 6)? as u8,
        }),
        b'O' => Some(Note::Leave {
            t,
            k: number_in(a, 0, 6)? as u8,
        }),
        b'G' => Some(Note::Gate {
            t,
            hi: number_in(a, 0, 7)? as u8,
            lo: number_in(b, 0, 7)? as u8,
        }),
        b'W' => Some(Note::Window {
            t,
            m: number_in(a, 0, 5)? as u8,
        }),
        b'F' => verdict(t, a, b, c),
        b'K' => Some(Note::Control {
            t,
            n: number_in(a, 0, u32::MAX)?,
            s: number_in(b, 0, 7)? as u8,
            d: number_in(c, 0, 1900)? as u16,
        }),
        b'A' => Some(Note::Armed { t }),
        b'X' => Some(Note::Lost {
            t,
            c: number_in(a, 0, 2)? as u8,
        }),
        _ => later(letter, t, a, b, c),
    }
}
