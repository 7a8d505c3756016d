//! Times of a capture, as ticks.
ghost use Rattle.std.specs.Prelude.{◌≤◌, ◌*◌, IfSome};
ghost use Rattle.trace_tools.specs.Nearest.{IsNearest};
ghost use Rattle.am32csv.specs.Clock.{parts_of, tick_parts};

use crate::layout::Clock;
use trace_tools::{decimal_in, power_of_ten};

/// The decimals of a second that are kept.
const DECIMALS: usize = 15;

impl Clock {
    /// What a field says: seconds, in parts of 10^-15, below zero or not, or the number of a sample.
    pub fn stamp(&self, field: &[u8]) -> Option<i64> {
        match self {
            Clock::Seconds => match field {
                [b'-', digits @ ..] => femtoseconds(digits)?.checked_neg(),
                digits => femtoseconds(digits),
            },
            Clock::Samples(_) => {
                let number = decimal_in(field)?;
                if number.decimals > 0 {
                    return None;
                }
                Some(number.units as i64)
            }
        }
    }

    /// The nearest tick to so many of these parts after tick 0; halves are rounded up.
    pub fn tick(&self, parts: u64) -> Option<u64>
        ensures { IfSome result (λ t. IsNearest t (parts * tick_parts self.now) (parts_of self.now)) }
    {
        match self {
            Clock::Seconds => nearest(parts, 48, 1_000_000_000),
            Clock::Samples(rate) => nearest(parts, 48_000_000, u64::from(rate.hertz)),
        }
    }
}

/// `n * of / parts`, rounded to the nearest whole number; halves are rounded up.
fn nearest(n: u64, of: u64, parts: u64) -> Option<u64>
    requires some { 1 ≤ parts }
    requires few { parts ≤ 4294967295 }
    ensures { IfSome result (λ t. IsNearest t (n * of) parts) }
{
    let product = n.checked_mul(of)?;
    let doubled = product.checked_mul(2)?;
    let rounded = doubled.checked_add(parts)?;
    Some(rounded / (2 * parts))
}

/// Digits with a point or not, in parts of 10^-15.
fn femtoseconds(digits: &[u8]) -> Option<i64> {
    let number = decimal_in(digits)?;
    let parts = number
        .units
        .checked_mul(power_of_ten(DECIMALS - number.decimals))?;
    i64::try_from(parts).ok()
}
