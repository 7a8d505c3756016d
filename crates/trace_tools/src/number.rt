//! Decimal numbers, and times with units as ticks.
ghost use Rattle.std.specs.Prelude.{◌≡◌, ◌≤◌, ◌<◌, ◌*◌, ◌-◌, ◌^◌, ◌⊎◌, IfSome, IfNone};
ghost use Rattle.trace_tools.specs.Nearest.{IsNearest};

/// The greatest time of a trace, in ticks of 48 MHz: about 22.37 seconds.
pub const LAST_TICK: u64 = 1073741824;

/// The ticks of a microsecond.
const TICKS_PER_US: u64 = 48;

/// The most digits behind a point.
const MOST_DECIMALS: usize = 15;

/// The greatest number of digits' units: it fits a product by 96.
const MOST_UNITS: u64 = 100_000_000_000_000_000;

/// A power of ten, up to the fifteenth.
pub fn power_of_ten(n: usize) -> u64
    requires { n ≤ 15 }
    ensures power { result ≡ 10 ^ n }
    ensures some { 1 ≤ result }
    ensures most { result ≤ 1000000000000000 }
{
    let mut power = 1;
    for _ in 0..n {
        power *= 10;
    }
    power
}

/// A decimal number: so many units, each the tenth part of 1 to the power of `decimals`.
#[derive(Clone, Copy, Drop)]
pub struct Decimal {
    pub units: u64,
    pub decimals: usize,
    ghost few: { units ≤ 100000000000000000 },
    ghost fine: { decimals ≤ 15 },
}

/// The value of some digits, at most 17 of them.
fn digits_in(digits: &[u8]) -> Option<u64> {
    if digits.len() > 17 {
        return None;
    }
    let mut n: u64 = 0;
    for digit in digits {
        if !digit.is_ascii_digit() {
            return None;
        }
        n = n.saturating_mul(10).saturating_add((*digit - b'0') as u64);
    }
    Some(n)
}

/// The digits before a point, and those behind it.
fn at_point(word: &[u8]) -> (&[u8], &[u8]) {
    match word.iter().position(|byte| *byte == b'.') {
        Some(i) => (&word[..i], &word[i + 1..]),
        None => (word, &[]),
    }
}

/// The number that a word says: digits, with a point and up to 15 digits behind it or not, below 10^17 units.
pub fn decimal_in(word: &[u8]) -> Option<Decimal> {
    let (whole, part) = at_point(word);
    if whole.is_empty() || part.len() > MOST_DECIMALS {
        return None;
    }
    let units = digits_in(whole)?
        .saturating_mul(power_of_ten(part.len()))
        .saturating_add(digits_in(part)?);
    if units > MOST_UNITS {
        return None;
    }
    Some(Decimal {
        units,
        decimals: part.len(),
    })
}

impl Decimal {
    /// The nearest number of ticks of so many units of 10^`power` microseconds; halves are rounded up. None where that is 2^64 or
    /// more, or where `power` is above 15.
    pub fn ticks(self, power: usize) -> Option<u64>
        ensures nearest { IfSome result (λ t. IsNearest t (48 * self.units * 10 ^ power) (10 ^ self.decimals)) }
        ensures none { IfNone result ((15 < power) ⊎ (2 ^ 64 ≤ 48 * (self.units * 10 ^ (power - self.decimals)))) }
    {
        if power > MOST_DECIMALS {
            return None;
        }
        if self.decimals < power {
            let us = self.units.checked_mul(power_of_ten(power - self.decimals))?;
            let ticks = us.checked_mul(TICKS_PER_US)?;
            return Some(ticks);
        }
        let parts = power_of_ten(self.decimals - power);
        Some((2 * TICKS_PER_US * self.units + parts) / (2 * parts))
    }
}

/// The letters behind the digits of a word, and the digits.
fn unit_of(word: &[u8]) -> (&[u8], &[u8]) {
    let digits = word
        .iter()
        .position(|byte| !byte.is_ascii_digit() && *byte != b'.')
        .unwrap_or(word.len());
    word.split_at(digits)
}

/// The ticks of a duration: a number and `us`, `ms` or `s`, rounded to the nearest tick, or a whole number of ticks and `t`.
/// At most 2^32 ticks.
pub fn duration_in(word: &[u8]) -> Option<u64> {
    let (digits, unit) = unit_of(word);
    let number = decimal_in(digits)?;
    let ticks = match unit {
        b"us" => number.ticks(0)?,
        b"ms" => number.ticks(3)?,
        b"s" => number.ticks(6)?,
        b"t" if number.decimals == 0 => number.units,
        _ => return None,
    };
    if ticks > 1 << 32 { None } else { Some(ticks) }
}
