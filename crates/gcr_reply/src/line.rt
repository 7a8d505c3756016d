ghost use Rattle.std.specs.Prelude.{◌≡◌, ◌^◌, ◌<◌, ◌↔◌, ℕ};
ghost use Rattle.gcr_reply.specs.Line.{bits_of, IsLine, Carries};

use crate::groups::word_of_gcr;

/// The 21 levels of the line for 20 GCR bits, the first level as the most significant bit. The first level is low,
/// and each further one differs from the level before it where the GCR bit is 1.
pub fn line_bits(gcr: u32) -> u32
    requires { gcr < 2 ^ 20 }
    ensures { IsLine result (bits_of 20 gcr) }
{
    let mut line = 0;
    for sent in 0..20u32 {
        let level = (line ^ (gcr >> (19 - sent))) & 1;
        line = line << 1 | level;
    }
    line
}

/// The word that 21 levels of the line carry, or `None` where no word of 16 bits has these levels: there are more of
/// them, the first is high, or a group of five changes stands for no nibble.
pub fn unline(bits: u32) -> Option<u16>
    ensures { (word : ℕ) → (result ≡ Some word) ↔ Carries bits word }
{
    if bits >> 20 != 0 {
        return None;
    }
    word_of_gcr(bits ^ (bits >> 1))
}
