//! Plain lines, `E` and `C`, which most lines of a trace are: split and read in one pass.
ghost use Rattle.std.specs.Prelude.{◌≡◌, ◌≤◌, ◌<◌, length, take, true, IfSome, Ok};
ghost use Rattle.std.specs.List.{list_all};
ghost use Rattle.std.specs.Char.{is_ascii_digit};
ghost use Rattle.trace_text.specs.Line.{number, level_of, said};
ghost use Rattle.trace_text.specs.Ahead.{IsLine, Follows};
ghost use Rattle.trace_text.specs.declared.parse.Entry.TheVariants.{Event as IsEvent};

use crate::Place;
use crate::field::{level, starts_plainly};
use crate::parse::LAST_TICK;
use esc_base::{Event, Tick};

/// The most digits of a time.
const MOST_DIGITS: usize = 10;

/// The most bytes of a plain line, with its line feed.
const LONGEST_PLAIN: usize = MOST_DIGITS + 5;

/// The number that the first digits say, up to ten of them, and how many they are.
fn leading_number(bytes: &[u8]) -> (u64, usize)
    requires enough { 10 ≤ length bytes.now }
    ensures most { result.1 ≤ 10 }
    ensures digits { list_all is_ascii_digit (take result.1 bytes.now) ≡ true }
    ensures value { result.0 ≡ number (take result.1 bytes.now) }
{
    let mut n: u64 = 0;
    let mut len = 0;
    while len < MOST_DIGITS {
        let digit = bytes[len];
        if !digit.is_ascii_digit() {
            return (n, len);
        }
        n = n * 10 + (digit - b'0') as u64;
        len += 1;
    }
    (n, len)
}

impl Place {
    /// The event of a plain line at the front, and the line's length: a time, `E` or `C`, a level and a line feed. Every
    /// other line is left to `parse`, and so is one that comes with less behind it than the longest plain line may take.
    pub fn plain_event(&self, bytes: &[u8]) -> Option<(Event, usize)>
        requires few { self.now.line < 16777216 }
        ensures line { IfSome result (λ r. IsLine r.1 bytes.now) }
        ensures said { IfSome result (λ r. said self.now (take r.1 bytes.now) ≡ Ok (IsEvent r.0)) }
        ensures follows { IfSome result (λ r. Follows self.now r.0) }
    {
        if bytes.len() < LONGEST_PLAIN {
            return None;
        }
        let (time, len) = leading_number(bytes);
        let (digits, behind) = bytes.split_at(len);
        if !starts_plainly(digits) || time < self.time.0 || time > LAST_TICK {
            return None;
        }
        if behind[0] != b' ' || behind[2] != b' ' || behind[4] != b'\n' {
            return None;
        }
        let t = Tick(time);
        let level = level(&[behind[3]])?;
        match behind[1] {
            b'E' => Some((Event::Edge { t, level }, len + 4)),
            b'C' => Some((Event::Comp { t, level }, len + 4)),
            _ => None,
        }
    }
}
