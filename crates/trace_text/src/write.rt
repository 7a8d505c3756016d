ghost use Rattle.std.specs.Prelude.{◌≡◌, ◌+◌, ◌≤◌, ◌<◌, ◌++◌, ◌∷◌, [], length, take, decimal, false};
ghost use Rattle.std.specs.Fmt.{digit_glyph};
ghost use Rattle.trace_text.specs.Text.{hex, bits};

use itoa::write_digits;
use std::marker::Model;

/// A line with its line feed, at most 64 bytes.
#[derive(Drop)]
pub struct Line {
    buffer: [u8; 64],
    len: usize,
}

impl Model for Line {
    ghost use Rattle.std.specs.Prelude.{◌≡◌, ◌≤◌, length, take};
    ghost use Rattle.trace_text.specs.Text.{Written};

    ghost Value = { Written };

    ghost view = { λ l. record { bytes = take l.len l.buffer } };

    ghost invariant = { λ l. (l.len ≤ 64) × (length l.buffer ≡ 64) };
}

/// How many digits a number has, 1 to 10.
#[tactic(auto, using(crate::proofs::Digits::length_decimal_is, std::proofs::lemmas::Fmt::decimal_digit))]
fn digits_of(n: u32) -> usize
    ensures len { result ≡ length (decimal n) }
    ensures most { result ≤ 10 }
{
    if n < 10 { 1 } else { n.ilog10() as usize + 1 }
}

/// The lower-case hexadecimal digit of a number below 16.
fn hex_digit_of(n: u8) -> u8
    requires { n < 16 }
    ensures { result ≡ digit_glyph false n }
{
    if n < 10 { b'0' + n } else { b'a' + (n - 10) }
}

/// Writes a space and a number in decimal from a place on, and answers where they end.
fn write_field(buffer: &mut [u8; 64], at: usize, n: u32) -> usize
    requires { at + 11 ≤ 64 }
    ensures written { take result buffer.new ≡ take at buffer.old ++ 32 ∷ decimal n }
    ensures later { at ≤ result }
    ensures most { result ≤ at + 11 }
    ensures len { length buffer.new ≡ 64 }
{
    if n < 10 {
        buffer[at] = b' ';
        buffer[at + 1] = b'0' + n as u8;
        return at + 2;
    }
    let end = at + 1 + digits_of(n);
    write_digits(n as u64, buffer, end);
    buffer[at] = b' ';
    end
}

impl Line {
    /// A line without a byte.
    pub fn new() -> Line
        ensures { result.bytes ≡ [] }
    {
        Line {
            buffer: [0; 64],
            len: 0,
        }
    }

    /// The bytes of the line.
    pub fn as_bytes(&self) -> &[u8]
        ensures { result.now ≡ self.now.bytes }
    {
        &self.buffer[..self.len]
    }

    /// Takes all bytes away.
    pub fn clear(&mut self)
        ensures { self.new.bytes ≡ [] }
    {
        self.len = 0;
    }

    /// Appends a byte.
    pub fn push_byte(&mut self, byte: u8)
        requires room { length self.old.bytes < 64 }
        ensures bytes { self.new.bytes ≡ self.old.bytes ++ byte ∷ [] }
        ensures len { length self.new.bytes ≡ length self.old.bytes + 1 }
    {
        self.buffer[self.len] = byte;
        self.len += 1;
    }

    /// Appends bytes.
    pub fn push_bytes(&mut self, bytes: &[u8])
        requires { length self.old.bytes + length bytes.now ≤ 64 }
        ensures bytes { self.new.bytes ≡ self.old.bytes ++ bytes.now }
        ensures len { length self.new.bytes ≡ length self.old.bytes + length bytes.now }
    {
        let end = self.len + bytes.len();
        self.buffer[self.len..end].copy_from_slice(bytes);
        self.len = end;
    }

    /// Appends a number in decimal, at most ten digits.
    pub fn push_number(&mut self, n: u32)
        requires { length self.old.bytes + 10 ≤ 64 }
        ensures bytes { self.new.bytes ≡ self.old.bytes ++ decimal n }
        ensures len { length self.new.bytes ≤ length self.old.bytes + 10 }
    {
        let end = self.len + digits_of(n);
        write_digits(n as u64, &mut self.buffer, end);
        self.len = end;
    }

    /// Appends a number in decimal, behind a space.
    pub fn push_field(&mut self, n: u32)
        requires { length self.old.bytes + 11 ≤ 64 }
        ensures bytes { self.new.bytes ≡ self.old.bytes ++ 32 ∷ decimal n }
        ensures len { length self.new.bytes ≤ length self.old.bytes + 11 }
    {
        self.len = write_field(&mut self.buffer, self.len, n);
    }

    /// Appends a byte as two hexadecimal digits, behind a space.
    pub fn push_hex(&mut self, byte: u8)
        requires { length self.old.bytes + 3 ≤ 64 }
        ensures bytes { self.new.bytes ≡ self.old.bytes ++ 32 ∷ hex byte }
        ensures len { length self.new.bytes ≡ length self.old.bytes + 3 }
    {
        self.push_byte(b' ');
        self.push_byte(hex_digit_of(byte / 16));
        self.push_byte(hex_digit_of(byte % 16));
    }

    /// Appends the lowest `count` bits of a number, the highest of them first.
    pub fn push_bits(&mut self, count: u32, b: u32)
        requires { length self.old.bytes + count ≤ 64 }
        ensures bytes { self.new.bytes ≡ self.old.bytes ++ bits count b }
        ensures len { length self.new.bytes ≡ length self.old.bytes + count }
    {
        if count > 0 {
            self.push_bits(count - 1, b / 2);
            self.push_byte(b'0' + (b % 2) as u8);
        }
    }
}
