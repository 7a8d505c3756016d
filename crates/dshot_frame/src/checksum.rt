ghost use Rattle.std.specs.Prelude.{◌≡◌, ◌<◌, ℕ, Bool, List, length};
ghost use Rattle.dshot_frame.specs.Bits.{number, checksum_of};

/// The checksum of the upper twelve bits of a word, 0 to 15: the exclusive or of their three nibbles, or in an
/// inverted frame its complement.
pub fn checksum(upper: u16, inverted: bool) -> u16
    requires { upper < 4096 }
    ensures small { result < 16 }
    ensures value { (bits : List Bool) → length bits ≡ 12 → upper ≡ number bits →
        result ≡ number (checksum_of inverted bits) }
{
    let sum = (upper ^ (upper >> 4) ^ (upper >> 8)) & 15;
    if inverted { sum ^ 15 } else { sum }
}
