ghost use Rattle.std.specs.Prelude.{◌≡◌, ◌^◌, ◌-◌, ◌<◌, ◌≤◌, ◌∷◌, ◌==◌, [], min, is_some, IfSome, MatchOption, SomeIff, position};
ghost use Rattle.std.specs.Char.{digit_value};
ghost use Rattle.trace_text.specs.Line.{fields, has_plain_start, is_decimal, number, level_of, byte_of, number_between};

/// The place of the first such byte, counted from 0.
pub fn position_of(wanted: u8, bytes: &[u8]) -> Option<usize>
    ensures { result ≡ position (λ b. b == wanted) bytes.now }
{
    bytes.iter().position(|byte| *byte == wanted)
}

/// The bytes before the first space, and those after it; all bytes and `None` where there is no space.
pub fn split_field(bytes: &[u8]) -> (&[u8], Option<&[u8]>)
    ensures { MatchOption result.1 (fields bytes.now ≡ result.0.now ∷ []) (λ rest. fields bytes.now ≡ result.0.now ∷ fields rest.now) }
{
    match position_of(b' ', bytes) {
        Some(i) => (&bytes[..i], Some(&bytes[i + 1..])),
        None => (bytes, None),
    }
}

/// Whether there are digits, and no leading zero but in `0` itself.
pub fn starts_plainly(digits: &[u8]) -> bool
    ensures { result ≡ has_plain_start digits.now }
{
    match digits {
        [] => false,
        [_] => true,
        [first, ..] => *first != b'0',
    }
}

/// The number that decimal digits without a needless leading zero say; `u64::MAX` where it is above that.
pub fn decimal_of(digits: &[u8]) -> Option<u64>
    ensures valid { is_some result ≡ is_decimal digits.now }
    ensures value { IfSome result (λ n. n ≡ min (number digits.now) (2 ^ 64 - 1)) }
{
    if !starts_plainly(digits) {
        return None;
    }
    let mut n: u64 = 0;
    for digit in digits {
        if !digit.is_ascii_digit() {
            return None;
        }
        n = n.saturating_mul(10).saturating_add((*digit - b'0') as u64);
    }
    Some(n)
}

/// The level that `0` or `1` says.
pub fn level(value: &[u8]) -> Option<bool>
    ensures { result ≡ level_of value.now }
{
    match value {
        [b'0'] => Some(false),
        [b'1'] => Some(true),
        _ => None,
    }
}

/// The value of a hexadecimal digit of either case.
fn hex_digit(digit: u8) -> Option<u8>
    ensures { SomeIff result (digit_value digit < 16) (digit_value digit) }
{
    match digit {
        b'0'..=b'9' => Some(digit - b'0'),
        b'a'..=b'f' => Some(digit - b'a' + 10),
        b'A'..=b'F' => Some(digit - b'A' + 10),
        _ => None,
    }
}

/// The byte that two hexadecimal digits say.
pub fn byte(value: &[u8]) -> Option<u8>
    ensures { result ≡ byte_of value.now }
{
    match value {
        [high, low] => Some(hex_digit(*high)? * 16 + hex_digit(*low)?),
        _ => None,
    }
}

/// The number that decimal digits say, where it is within bounds.
pub fn number_in(digits: &[u8], low: u32, high: u32) -> Option<u32>
    ensures value { result ≡ number_between low high digits.now }
    ensures above { IfSome result (λ n. low ≤ n) }
    ensures below { IfSome result (λ n. n ≤ high) }
{
    match decimal_of(digits) {
        Some(n) if u64::from(low) <= n && n <= u64::from(high) => Some(n as u32),
        _ => None,
    }
}
